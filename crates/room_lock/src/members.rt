// The members of a room's group, by their places.
ghost use Rattle.std.specs.Prelude.{◌≡◌, ◌<◌, ◌≤◌, ◌*◌, ◌^◌, ℕ, List, true, false, length, slice_get, Some, IfSome};
ghost use Rattle.pcm_base.specs.declared.ids.SubId.{SubId as SubIdOf};
ghost use Rattle.pcm_base.specs.model.Events.{waiting_of};
ghost use Rattle.pcm_base.specs.Shape.{IsSoundShape};
ghost use Rattle.pcm_base.specs.model.Frame.{bytes_of};
ghost use Rattle.pcm_base.specs.model.Group.{stream_of};
ghost use Rattle.pcm_base.specs.model.Movement.{move};
ghost use Rattle.pcm_base.specs.model.Replay.{IsLent, layout_of, reading_length};
ghost use Rattle.pcm_base.specs.model.Stream.{Member as ModelMember};
ghost use Rattle.pcm_stream.specs.Members.{all_differ, members_of, numbers_of};
ghost use Rattle.pcm_stream.specs.MembersStand.{AllStandFor};
ghost use Rattle.room_book.specs.Logs.{client_of};
ghost use Rattle.room_lock.specs.InGroup.{IsPageIn};
ghost use Rattle.room_lock.specs.Shaped.{HasShape};

use card_emul::AnyCard;
use pcm_base::{Call, Card, ClientId, Event, Layout, Page, Shape, Task};
use pcm_stream::Members;

// What stands for the client of a card's event.
const NOBODY: ClientId = ClientId(16);

/// What a client sees of the member at a place.
pub(crate) fn page_at(members: &Members<AnyCard>, place: usize) -> Page
    requires apart { all_differ (numbers_of (members_of members.now)) ≡ true }
    requires place { place < length (members_of members.now) }
    ensures shows { (k : SubIdOf) (xs : List ModelMember) → slice_get (numbers_of (members_of members.now)) place ≡ Some k → AllStandFor (members_of members.now) xs
        → IsPageIn result (stream_of k xs) }
    ensures low { result.hw < 2 ^ 36 }
{
    members.at(place).stream.page()
}

// The count of bytes of a frame of the member at a place; 0 where it has no configuration.
fn frame_bytes_at(members: &Members<AnyCard>, place: usize) -> u64
    requires apart { all_differ (numbers_of (members_of members.now)) ≡ true }
    requires place { place < length (members_of members.now) }
    ensures { (k : SubIdOf) (xs : List ModelMember) → slice_get (numbers_of (members_of members.now)) place ≡ Some k → AllStandFor (members_of members.now) xs
        → result ≡ (stream_of k xs).setup.frame_bytes }
{
    match members.at(place).stream.shape() {
        Some(shape) => shape.frame_bytes,
        None => 0,
    }
}

// The front of so many frames of bytes; None where there are fewer.
fn front(frames: u64, frame_bytes: u64, count: usize) -> Option<usize>
    ensures { IfSome result (λ n. (n ≡ frames * frame_bytes) × (n ≤ count)) }
{
    let size = frames.checked_mul(frame_bytes)?;
    if size > count as u64 {
        return None;
    }
    Some(size as usize)
}

// What the client's call on the member at a place waits for.
fn task_at(members: &Members<AnyCard>, place: usize, client: ClientId) -> Option<Task>
    requires apart { all_differ (numbers_of (members_of members.now)) ≡ true }
    requires place { place < length (members_of members.now) }
    ensures { (k : SubIdOf) (xs : List ModelMember) → slice_get (numbers_of (members_of members.now)) place ≡ Some k → AllStandFor (members_of members.now) xs
        → result ≡ waiting_of client (stream_of k xs).sleepers }
{
    members.at(place).sleepers.task(client)
}

/// How many bytes an event of the member at a place is lent, of those handed in: a call that reads the front of its own
/// length, any other all. None where a call that reads was handed fewer than its length.
pub(crate) fn lent_at(
    members: &Members<AnyCard>,
    place: usize,
    event: &Event,
    count: usize,
) -> Option<usize>
    requires apart { all_differ (numbers_of (members_of members.now)) ≡ true }
    requires place { place < length (members_of members.now) }
    ensures lent { (k : SubIdOf) (xs : List ModelMember) → slice_get (numbers_of (members_of members.now)) place ≡ Some k → AllStandFor (members_of members.now) xs
        → IfSome result (λ n. IsLent (reading_length event.now.call (client_of event.now.client) (stream_of k xs)) count n) }
    ensures within { IfSome result (λ n. n ≤ count) }
{
    let frame_bytes = frame_bytes_at(members, place);
    match event.call {
        Call::Read(_, _, frames) => front(frames, frame_bytes, count),
        Call::Load(_, frames) => front(frames, frame_bytes, count),
        Call::Go => match task_at(members, place, event.client.unwrap_or(NOBODY)) {
            Some(Task::Transfer(call, _)) if !call.writing => {
                front(call.moved.checked_add(call.rest)?, frame_bytes, count)
            }
            _ => Some(count),
        },
        _ => Some(count),
    }
}

/// How the bytes of an event of the member at a place lie.
pub(crate) fn layout_at(members: &Members<AnyCard>, place: usize, event: &Event) -> Layout
    requires apart { all_differ (numbers_of (members_of members.now)) ≡ true }
    requires place { place < length (members_of members.now) }
    ensures { (k : SubIdOf) (xs : List ModelMember) → slice_get (numbers_of (members_of members.now)) place ≡ Some k → AllStandFor (members_of members.now) xs
        → result ≡ layout_of event.now.call (client_of event.now.client) (stream_of k xs) }
{
    match event.call {
        Call::Write(layout, _) => layout,
        Call::Read(layout, _, _) => layout,
        Call::Go => match task_at(members, place, event.client.unwrap_or(NOBODY)) {
            Some(Task::Transfer(call, _)) => call.layout,
            _ => Layout::Interleaved,
        },
        _ => Layout::Interleaved,
    }
}

/// The shape of the member at a place, where it has one.
pub(crate) fn shape_at(members: &Members<AnyCard>, place: usize) -> Option<Shape>
    requires apart { all_differ (numbers_of (members_of members.now)) ≡ true }
    requires place { place < length (members_of members.now) }
    ensures shape { (k : SubIdOf) (xs : List ModelMember) → slice_get (numbers_of (members_of members.now)) place ≡ Some k → AllStandFor (members_of members.now) xs
        → HasShape (stream_of k xs) result }
    ensures sound { IfSome result IsSoundShape }
{
    members.at(place).stream.shape().copied()
}

/// What the card of the member at a place has taken.
pub(crate) fn taken_at(members: &Members<AnyCard>, place: usize) -> &[u8]
    requires apart { all_differ (numbers_of (members_of members.now)) ≡ true }
    requires place { place < length (members_of members.now) }
    ensures { (k : SubIdOf) (xs : List ModelMember) → slice_get (numbers_of (members_of members.now)) place ≡ Some k → AllStandFor (members_of members.now) xs
        → result.now ≡ bytes_of (stream_of k xs).card.taken }
{
    members.at(place).stream.card().taken()
}

// The most bytes that the card of the member at a place takes in a movement by so many frames.
fn most_taken(members: &Members<AnyCard>, place: usize, frames: u64) -> usize
    requires apart { all_differ (numbers_of (members_of members.now)) ≡ true }
    requires place { place < length (members_of members.now) }
    ensures { (k : SubIdOf) (xs : List ModelMember) → slice_get (numbers_of (members_of members.now)) place ≡ Some k → AllStandFor (members_of members.now) xs
        → length (bytes_of (move frames (stream_of k xs)).frames) ≤ result }
{
    match shape_at(members, place) {
        Some(shape) => (frames.min(shape.buffer) * shape.frame_bytes) as usize,
        None => 0,
    }
}

/// The most bytes that an event of the member at a place moves, which is lent so many.
pub(crate) fn most_at(members: &Members<AnyCard>, place: usize, event: &Event, lent: usize) -> usize
    requires apart { all_differ (numbers_of (members_of members.now)) ≡ true }
    requires place { place < length (members_of members.now) }
    ensures lent { lent ≤ result }
    ensures taken { (k : SubIdOf) (n : ℕ) (xs : List ModelMember) → event.now.call ≡ Call.MoveBy n → slice_get (numbers_of (members_of members.now)) place ≡ Some k → AllStandFor (members_of members.now) xs
        → length (bytes_of (move n (stream_of k xs)).frames) ≤ result }
{
    match event.call {
        Call::MoveBy(frames) => lent.max(most_taken(members, place, frames)),
        _ => lent,
    }
}
