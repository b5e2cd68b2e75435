// One step of a group, and what it leaves of its client's call.
ghost use Rattle.std.specs.Prelude.{◌≡◌, ◌≢◌, ◌≤◌, ◌*◌, ◌%◌, ℕ, List, Some, IfSome, length, slice_get, false, true, if◌then◌else◌};
ghost use Rattle.std.specs.Option.{ForSome, is_none};
ghost use Rattle.pcm_base.specs.Shape.{IsSoundShape};
ghost use Rattle.pcm_base.specs.declared.call.Layout.{Layout as LayoutOf};
ghost use Rattle.pcm_base.specs.declared.config.Shape.{Shape as ShapeOf};
ghost use Rattle.pcm_base.specs.declared.reply.Reply.TheVariants.{Frames, Memory};
ghost use Rattle.pcm_base.specs.model.Group.{group_step};
ghost use Rattle.pcm_base.specs.model.Stream.{Member as ModelMember};
ghost use Rattle.pcm_base.specs.model.World.{group_of, with_group};
ghost use Rattle.pcm_group.specs.Bytes.{HasLength, bytes_left};
ghost use Rattle.pcm_group.specs.Lent.{Loads, is_lent_call};
ghost use Rattle.pcm_group.specs.Turn.{caller, is_card_event, is_group_call};
ghost use Rattle.pcm_world.specs.Answered.{bytes_told, is_asleep, is_left, shown_step};
ghost use Rattle.pcm_world.specs.Calls.{stream_at};
ghost use Rattle.pcm_world.specs.Groups.{AreFreeFor, GroupsStand, numbers_in, place_in};
ghost use Rattle.pcm_world.specs.Shown.{slot_bytes};

use crate::bytes::first_frames;
use crate::calls::{Kept, put_result};
use crate::groups::Groups;
use pcm_base::{ClientId, Event, Reply, Shape, Told};

/// One step of the group at this place.
pub(crate) fn in_group(groups: &mut Groups, place: usize, event: &Event, io: &mut Vec<u8>) -> Told
    requires number { event.now.sub.0 ≤ 15 }
    requires place { place_in event.now.sub (numbers_in groups.old.items.items) ≡ Some place }
    requires call { is_group_call event.now.call ≡ true }
    requires caller { is_card_event event.now.call ≡ is_none event.now.client }
    requires client { ForSome event.now.client (λ c. c.0 ≤ 15) }
    requires free { ∥ ((xs : List (List ModelMember)) × GroupsStand groups.old.items.items xs × ForSome event.now.client (λ c. AreFreeFor event.now.call event.now.sub c (group_of event.now.sub xs))) ∥₁ }
    requires length { (xs : List (List ModelMember)) → GroupsStand groups.old.items.items xs → HasLength event.now.call io.old.items (stream_at event.now.sub xs) }
    ensures told { (xs : List (List ModelMember)) → GroupsStand groups.old.items.items xs → result.reply ≢ Memory
        → result ≡ shown_step event.now.sub (group_step event.now.call (caller event.now) event.now.sub io.old.items (group_of event.now.sub xs)) }
    ensures stands { (xs : List (List ModelMember)) → GroupsStand groups.old.items.items xs → result.reply ≢ Memory
        → GroupsStand groups.new.items.items (with_group event.now.sub (group_step event.now.call (caller event.now) event.now.sub io.old.items (group_of event.now.sub xs)).members xs) }
    ensures memory { (xs : List (List ModelMember)) → GroupsStand groups.old.items.items xs → result.reply ≡ Memory → GroupsStand groups.new.items.items xs }
    ensures loaded { (xs : List (List ModelMember)) → GroupsStand groups.old.items.items xs → Loads event.now.call (stream_at event.now.sub xs) result.reply io.old.items io.new.items }
    ensures bytes { (xs : List (List ModelMember)) → GroupsStand groups.old.items.items xs → result.reply ≢ Memory → is_lent_call event.now.call ≡ false
        → io.new.items ≡ bytes_left event.now.call (caller event.now) (stream_at event.now.sub xs) (group_step event.now.call (caller event.now) event.now.sub io.old.items (group_of event.now.sub xs)).answer io.old.items }
    ensures kept { result.reply ≡ Memory → io.new.items ≡ io.old.items }
    ensures size { length io.new.items ≡ length io.old.items }
{
    let turn = groups.step(place, event, io);
    Told {
        reply: turn.reply,
        state: Some(groups.state(event.sub)),
        woken: turn.woken,
    }
}

// What an answer leaves of a client's call: one that sleeps is kept, and what one has read is the client's result.
fn end_call(
    calls: &mut [Option<Kept>; 16],
    results: &mut [Option<Vec<u8>>; 16],
    client: ClientId,
    reply: &Reply,
    shape: &Option<Shape>,
    kept: &mut Kept,
)
    requires client { client.0 ≤ 15 }
    requires sound { IfSome shape.now IsSoundShape }
    requires frames { (h : ShapeOf) (l : LayoutOf) (n : ℕ) → shape.now ≡ Some h → kept.old.layout ≡ Some l → reply.now ≡ Frames n → (length kept.old.bytes.items % h.frame_bytes ≡ 0) × (n * h.frame_bytes ≤ length kept.old.bytes.items) }
    ensures call { slice_get calls.new client.0 ≡ (if is_asleep reply.now then Some (Some kept.old) else slice_get calls.old client.0) }
    ensures calls { (k : ℕ) → k ≢ client.0 → slice_get calls.new k ≡ slice_get calls.old k }
    ensures result { slot_bytes (slice_get results.new client.0) ≡ bytes_told reply.now kept.old.layout shape.now kept.old.bytes.items (slot_bytes (slice_get results.old client.0)) }
    ensures results { (k : ℕ) → k ≢ client.0 → slice_get results.new k ≡ slice_get results.old k }
{
    let place = client.0 as usize;
    match (reply, kept.layout, shape) {
        (Reply::Asleep, _, _) => calls[place] = Some(kept.take()),
        (Reply::Frames(count), Some(layout), Some(shape)) => {
            first_frames(&mut kept.bytes, layout, shape, *count);
            put_result(&mut results[place], &mut kept.bytes);
        }
        _ => {}
    }
}

/// What an answer leaves of a client's call: one that sleeps is kept, and what one has read is the client's result. An event
/// of a card leaves nothing.
pub(crate) fn end(
    calls: &mut [Option<Kept>; 16],
    results: &mut [Option<Vec<u8>>; 16],
    client: Option<ClientId>,
    reply: &Reply,
    shape: &Option<Shape>,
    kept: &mut Kept,
)
    requires client { ForSome client (λ c. c.0 ≤ 15) }
    requires sound { IfSome shape.now IsSoundShape }
    requires frames { (h : ShapeOf) (l : LayoutOf) (n : ℕ) → shape.now ≡ Some h → kept.old.layout ≡ Some l → reply.now ≡ Frames n → (length kept.old.bytes.items % h.frame_bytes ≡ 0) × (n * h.frame_bytes ≤ length kept.old.bytes.items) }
    ensures call { ForSome client (λ c. slice_get calls.new c.0 ≡ (if is_asleep reply.now then Some (Some kept.old) else slice_get calls.old c.0)) }
    ensures calls { (k : ℕ) → ForSome client (λ c. k ≢ c.0) → slice_get calls.new k ≡ slice_get calls.old k }
    ensures result { ForSome client (λ c. slot_bytes (slice_get results.new c.0) ≡ bytes_told reply.now kept.old.layout shape.now kept.old.bytes.items (slot_bytes (slice_get results.old c.0))) }
    ensures results { (k : ℕ) → ForSome client (λ c. k ≢ c.0) → slice_get results.new k ≡ slice_get results.old k }
{
    if let Some(client) = client {
        end_call(calls, results, client, reply, shape, kept);
    }
}

/// What an answer leaves of a call that went on: where there was no memory, it stays as it was.
pub(crate) fn end_going(
    calls: &mut [Option<Kept>; 16],
    results: &mut [Option<Vec<u8>>; 16],
    client: ClientId,
    reply: &Reply,
    shape: &Option<Shape>,
    mut kept: Kept,
)
    requires client { client.0 ≤ 15 }
    requires sound { IfSome shape.now IsSoundShape }
    requires frames { (h : ShapeOf) (l : LayoutOf) (n : ℕ) → shape.now ≡ Some h → kept.layout ≡ Some l → reply.now ≡ Frames n → (length kept.bytes.items % h.frame_bytes ≡ 0) × (n * h.frame_bytes ≤ length kept.bytes.items) }
    ensures call { slice_get calls.new client.0 ≡ (if is_left reply.now then Some (Some kept) else slice_get calls.old client.0) }
    ensures calls { (k : ℕ) → k ≢ client.0 → slice_get calls.new k ≡ slice_get calls.old k }
    ensures result { slot_bytes (slice_get results.new client.0) ≡ bytes_told reply.now kept.layout shape.now kept.bytes.items (slot_bytes (slice_get results.old client.0)) }
    ensures results { (k : ℕ) → k ≢ client.0 → slice_get results.new k ≡ slice_get results.old k }
{
    if let Reply::Memory = reply {
        calls[client.0 as usize] = Some(kept);
        return;
    }
    end_call(calls, results, client, reply, shape, &mut kept);
}
