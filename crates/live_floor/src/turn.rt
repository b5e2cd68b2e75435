// An event in the room of its substream.
ghost use Rattle.std.specs.Prelude.{◌≡◌, ◌≢◌, ◌≤◌, true, length};
ghost use Rattle.std.specs.Option.{ForSome, is_none};
ghost use Rattle.pcm_base.specs.declared.reply.Reply.TheVariants.{Memory as MemoryReply};
ghost use Rattle.pcm_base.specs.model.Replay.{is_member};
ghost use Rattle.pcm_group.specs.Turn.{is_card_event, is_group_call};
ghost use Rattle.pcm_stream.specs.Members.{numbers_of};
ghost use Rattle.room_parts.specs.Passes.{IsBy};
ghost use Rattle.room_lock.specs.Answers.{OnDone, OnFull, OnMemory};
ghost use Rattle.room_lock.specs.Handed.{IsHanded};
ghost use Rattle.room_lock.specs.Known.{Knows, told_log};
ghost use Rattle.live_floor.specs.Turns.{IsRefusedInRoom, IsTurnOfRoom};

use crate::counted::CountedRoom;
use floor_rule::SharedWords;
use pcm_base::Event;
use room_lock::Answer;
use room_parts::{FloorName, Pass};
use std::sync::ledger::Ledger;

/// An event of a member, as `Room::turn` says, with the room that it found.
pub(crate) fn turn_in<N: FloorName + Ledger>(
    found: &mut CountedRoom<N>,
    words: &SharedWords,
    pass: &mut Pass<N>,
    event: &Event,
    io: &mut [u8],
) -> Answer
    requires words { (words.now.table ≡ N.table) × (words.now.cards ≡ length N.cards) }
    requires here { is_member event.now.sub (numbers_of found.old.room.members) ≡ true }
    requires call { is_group_call event.now.call ≡ true }
    requires caller { is_card_event event.now.call ≡ is_none event.now.client }
    requires client { ForSome event.now.client (λ c. c.0 ≤ 15) }
    requires by { IsBy pass.old.caller event.now }
    ensures sub { OnDone result (λ reply receipt woken. receipt.sub ≡ event.now.sub) }
    ensures pass { OnDone result (λ reply receipt woken. Knows N.cards N.long_max event.now (length io.old) reply receipt pass.old pass.new) }
    ensures turn { OnDone result (λ reply receipt woken. IsTurnOfRoom N.cards N.long_max event.now io.old io.new pass.old.knows pass.new.knows reply receipt woken) }
    ensures handed { OnDone result (λ reply receipt woken. IsHanded N.cards N.long_max event.now.sub (told_log receipt pass.new.knows) receipt.index io.old) }
    ensures never { OnDone result (λ reply receipt woken. reply ≢ MemoryReply) }
    ensures full { OnFull result (λ sub count. IsRefusedInRoom N.cards N.long_max event.now pass.old pass.new sub count × (io.new ≡ io.old)) }
    ensures memory { OnMemory result ((pass.new ≡ pass.old) × (io.new ≡ io.old)) }
    ensures caller { (pass.new.caller ≡ pass.old.caller) × (pass.new.knows.number ≡ pass.old.knows.number) }
{
    let _number = found.room.number();
    found.room.turn(words, pass, event, io)
}
