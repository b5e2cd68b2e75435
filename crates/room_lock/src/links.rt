// Links of substreams that stand in rooms.
ghost use Rattle.std.specs.Prelude.{◌≡◌, ◌≢◌, ◌≤◌, ◌<◌, ◌+◌, ◌-◌, ◌^◌, ◌∷◌, [], ℕ, List, true, false, length, vec_len, vec_capacity};
ghost use Rattle.pcm_base.specs.model.Group.{stream_of};
ghost use Rattle.pcm_base.specs.model.Stream.{Member as ModelMember};
ghost use Rattle.pcm_group.specs.Inside.{members_in};
ghost use Rattle.pcm_stream.specs.Members.{numbers_of};
ghost use Rattle.room_book.specs.Rooms.{fresh_streams};
ghost use Rattle.room_parts.specs.Passes.{IsBy};
ghost use Rattle.room_lock.specs.Answers.{OnDone, OnFull, OnMemory, log_in};
ghost use Rattle.room_lock.specs.InRoom.{InRoom, IsIn};
ghost use Rattle.room_lock.specs.Inside.{view_of};
ghost use Rattle.room_lock.specs.Known.{Knows};
ghost use Rattle.room_lock.specs.Linked.{link_by, link_of};
ghost use Rattle.room_lock.specs.Met.{IsMeeting, met, stay};
ghost use Rattle.room_lock.specs.Ready.{knows_of};
ghost use Rattle.room_lock.specs.Recorded.{AllHaveRoom};
ghost use Rattle.room_lock.specs.Refused.{AreRefused, AreFull};

use crate::answer::Answer;
use crate::contents::Contents;
use crate::linking::{is_ok, linked, record_link};
use crate::meeting::{Spares, meet, prepare_to_meet};
use crate::members::page_at;
use crate::ready::full;
use crate::recording::{Receipt, count_at};
use crate::refusing::refuse;
use floor_rule::SharedWords;
use pcm_base::{ClientId, SubId};
use pcm_laws::waiting::steps as leave_waiting;
use room_book::laws::{links, moves};
use room_parts::{FloorName, Pass};

// The link of two that stand alone, once its memory is taken.
fn tell_and_meet<N: FloorName>(
    words: &SharedWords,
    pass: &mut Pass<N>,
    first: &mut Contents<N>,
    second: &mut Contents<N>,
    group: &mut Contents<N>,
    spares: Spares,
    client: ClientId,
    sub: SubId,
    other: SubId,
) -> Answer
    requires words { (words.now.table ≡ N.table) × (words.now.cards ≡ length N.cards) }
    requires first { InRoom (fresh_streams N.cards N.long_max) (length N.cards) first.old.serial (view_of first.old) }
    requires second { InRoom (fresh_streams N.cards N.long_max) (length N.cards) second.old.serial (view_of second.old) }
    requires group { InRoom (fresh_streams N.cards N.long_max) (length N.cards) group.old.serial (view_of group.old) }
    requires here { (numbers_of (members_in first.old.group) ≡ sub ∷ []) × (numbers_of (members_in second.old.group) ≡ other ∷ []) }
    requires apart { sub.0 ≢ other.0 }
    requires lone { (first.old.number < 16) × (second.old.number < 16) }
    requires empty { members_in group.old.group ≡ [] }
    requires there { (16 ≤ group.old.number) × (group.old.number < 32) }
    requires by { IsBy pass.old.caller (link_by client sub other) }
    requires calls { length pass.old.knows.calls < 2 ^ 64 - 1 }
    requires room { AllHaveRoom first.old.recs.items × AllHaveRoom second.old.recs.items }
    requires lines { (vec_len first.old.book < vec_capacity first.old.book) × (vec_len second.old.book < vec_capacity second.old.book) × (vec_len group.old.book + 2 ≤ vec_capacity group.old.book) × (vec_len group.old.recs + 2 ≤ vec_capacity group.old.recs) }
    requires spares { (members_in spares.first ≡ []) × (members_in spares.second ≡ []) }
    ensures met { (xs ys : List ModelMember) → IsIn (fresh_streams N.cards N.long_max) (length N.cards) first.old.serial (view_of first.old) xs → IsIn (fresh_streams N.cards N.long_max) (length N.cards) second.old.serial (view_of second.old) ys
        → OnDone result (λ reply receipt woken. IsMeeting (link_of client sub other (stream_of sub xs).state (stream_of other ys).state false) pass.old.knows (view_of first.old) (view_of first.new) (view_of second.old) (view_of second.new) (view_of group.old) (view_of group.new) xs ys reply woken) }
    ensures members { (xs ys : List ModelMember) → IsIn (fresh_streams N.cards N.long_max) (length N.cards) first.old.serial (view_of first.old) xs → IsIn (fresh_streams N.cards N.long_max) (length N.cards) second.old.serial (view_of second.old) ys
        → OnDone result (λ reply receipt woken. IsIn (fresh_streams N.cards N.long_max) (length N.cards) first.new.serial (view_of first.new) (stay reply xs) × IsIn (fresh_streams N.cards N.long_max) (length N.cards) second.new.serial (view_of second.new) (stay reply ys) × IsIn (fresh_streams N.cards N.long_max) (length N.cards) group.new.serial (view_of group.new) (met reply xs ys)) }
    ensures pass { OnDone result (λ reply receipt woken. Knows N.cards N.long_max (link_by client sub other) 0 reply receipt pass.old pass.new) }
    ensures receipt { OnDone result (λ reply receipt woken. (receipt.sub ≡ sub) × (receipt.index ≡ length (log_in sub first.old.recs.items))) }
    ensures numbers { (first.new.number ≡ first.old.number) × (second.new.number ≡ second.old.number) × (group.new.number ≡ group.old.number) }
    ensures done { OnFull result (λ sub count. ⊥) × OnMemory result ⊥ }
{
    moves();
    links();
    leave_waiting();
    let one = page_at(first.group.members(), 0);
    let two = page_at(second.group.members(), 0);
    let link = linked(client, sub, other, one.state, two.state, false);
    let index = count_at(&first.recs, 0);
    let receipt = Receipt { sub, index };
    record_link(
        words,
        pass,
        &mut first.recs,
        0,
        &mut second.recs,
        0,
        &link,
        &one,
        &two,
    );
    let reply = link.reply;
    if !is_ok(reply) {
        return Answer::Done {
            reply,
            receipt,
            woken: 0,
        };
    }
    let woken = meet(words, first, second, group, spares, &one, &two, receipt);
    Answer::Done {
        reply,
        receipt,
        woken,
    }
}

/// A link of two substreams that stand alone, as `link_rooms` says.
pub(crate) fn link_alone<N: FloorName>(
    words: &SharedWords,
    pass: &mut Pass<N>,
    first: &mut Contents<N>,
    second: &mut Contents<N>,
    group: &mut Contents<N>,
    client: ClientId,
    sub: SubId,
    other: SubId,
) -> Answer
    requires words { (words.now.table ≡ N.table) × (words.now.cards ≡ length N.cards) }
    requires first { InRoom (fresh_streams N.cards N.long_max) (length N.cards) first.old.serial (view_of first.old) }
    requires second { InRoom (fresh_streams N.cards N.long_max) (length N.cards) second.old.serial (view_of second.old) }
    requires group { InRoom (fresh_streams N.cards N.long_max) (length N.cards) group.old.serial (view_of group.old) }
    requires here { (numbers_of (members_in first.old.group) ≡ sub ∷ []) × (numbers_of (members_in second.old.group) ≡ other ∷ []) }
    requires apart { sub.0 ≢ other.0 }
    requires lone { (first.old.number < 16) × (second.old.number < 16) }
    requires empty { members_in group.old.group ≡ [] }
    requires there { (16 ≤ group.old.number) × (group.old.number < 32) }
    requires by { IsBy pass.old.caller (link_by client sub other) }
    ensures first { InRoom (fresh_streams N.cards N.long_max) (length N.cards) first.new.serial (view_of first.new) }
    ensures second { InRoom (fresh_streams N.cards N.long_max) (length N.cards) second.new.serial (view_of second.new) }
    ensures group { InRoom (fresh_streams N.cards N.long_max) (length N.cards) group.new.serial (view_of group.new) }
    ensures met { (xs ys : List ModelMember) → IsIn (fresh_streams N.cards N.long_max) (length N.cards) first.old.serial (view_of first.old) xs → IsIn (fresh_streams N.cards N.long_max) (length N.cards) second.old.serial (view_of second.old) ys
        → OnDone result (λ reply receipt woken. IsMeeting (link_of client sub other (stream_of sub xs).state (stream_of other ys).state false) pass.old.knows (view_of first.old) (view_of first.new) (view_of second.old) (view_of second.new) (view_of group.old) (view_of group.new) xs ys reply woken) }
    ensures members { (xs ys : List ModelMember) → IsIn (fresh_streams N.cards N.long_max) (length N.cards) first.old.serial (view_of first.old) xs → IsIn (fresh_streams N.cards N.long_max) (length N.cards) second.old.serial (view_of second.old) ys
        → OnDone result (λ reply receipt woken. IsIn (fresh_streams N.cards N.long_max) (length N.cards) first.new.serial (view_of first.new) (stay reply xs) × IsIn (fresh_streams N.cards N.long_max) (length N.cards) second.new.serial (view_of second.new) (stay reply ys) × IsIn (fresh_streams N.cards N.long_max) (length N.cards) group.new.serial (view_of group.new) (met reply xs ys)) }
    ensures pass { OnDone result (λ reply receipt woken. Knows N.cards N.long_max (link_by client sub other) 0 reply receipt pass.old pass.new) }
    ensures receipt { OnDone result (λ reply receipt woken. (receipt.sub ≡ sub) × (receipt.index ≡ length (log_in sub first.old.recs.items))) }
    ensures numbers { (first.new.number ≡ first.old.number) × (second.new.number ≡ second.old.number) × (group.new.number ≡ group.old.number) }
    ensures refused { OnFull result (λ sub count. AreRefused first.old.recs.items first.new.recs.items second.old.recs.items second.new.recs.items pass.old pass.new sub count) }
    ensures full { AreFull first.old.recs.items second.old.recs.items → OnDone result (λ reply receipt woken. ⊥) × OnMemory result ⊥ }
    ensures memory { OnMemory result ((knows_of first.new.recs.items ≡ knows_of first.old.recs.items) × (knows_of second.new.recs.items ≡ knows_of second.old.recs.items) × (pass.new ≡ pass.old)) }
    ensures unchanged { OnFull result (λ sub count. (first.new.group ≡ first.old.group) × (second.new.group ≡ second.old.group) × (first.new.book.items ≡ first.old.book.items) × (second.new.book.items ≡ second.old.book.items) × (group.new ≡ group.old)) }
    ensures kept { OnMemory result ((first.new.group ≡ first.old.group) × (second.new.group ≡ second.old.group) × (group.new.group ≡ group.old.group)) }
    ensures books { OnMemory result ((first.new.book.items ≡ first.old.book.items) × (second.new.book.items ≡ second.old.book.items) × (group.new.book.items ≡ group.old.book.items)) }
{
    if let Some(place) = full(&first.recs) {
        return refuse(&mut first.recs, words, pass, place);
    }
    if let Some(place) = full(&second.recs) {
        return refuse(&mut second.recs, words, pass, place);
    }
    match prepare_to_meet(first, second, group, pass) {
        Some(spares) => tell_and_meet(
            words, pass, first, second, group, spares, client, sub, other,
        ),
        None => Answer::Memory,
    }
}
