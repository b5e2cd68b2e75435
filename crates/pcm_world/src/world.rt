// The world.
ghost use Rattle.std.specs.Prelude.{◌≡◌, ◌≢◌, ◌≤◌, ◌<◌, ◌-◌, ◌^◌, [], ℕ, true, drop, min, IfSome};
ghost use Rattle.std.specs.Option.{ForSome, is_none, is_some};
ghost use Rattle.pcm_base.specs.declared.ids.ClientId.{ClientId as ClientIdOf};
ghost use Rattle.pcm_base.specs.declared.ids.SubId.{SubId as SubIdOf};
ghost use Rattle.pcm_base.specs.declared.reply.Reply.TheVariants.{Memory};
ghost use Rattle.pcm_base.specs.model.World.{World as ModelWorld, empty, set_long as set_long_of, declare as declare_of, step as step_of, stream_in, is_declared};
ghost use Rattle.card_emul.specs.Limits.{limits_of};
ghost use Rattle.pcm_stream.specs.StandsFor.{StandsFor};
ghost use Rattle.pcm_group.specs.Turn.{is_card_event};
ghost use Rattle.pcm_world.specs.Stands.{AreWorld};

use crate::bytes::lend;
use crate::calls::{Kept, layout_read};
use crate::groups::Groups;
use crate::links::{is_closed, link, no_such, told, unlink};
use crate::steps::{end, end_going, in_group};
use card_emul::AnyCard;
use pcm_base::{Call, ClientId, Dir, Errno, Event, Model, Reply, SubId, Told};
use pcm_stream::Substream;
use std::alloc::Global;

/// LONG_MAX of a session that sets none.
const FIRST_LONG_MAX: u64 = 2_147_483_647;

/// A movement: whose card moved, and how many bytes it had taken before.
#[derive(Clone, Copy)]
pub(crate) struct Taken {
    sub: SubId,
    before: usize,
}

/// The substreams of a session in their link groups, and the clients with their calls in progress. It always stands for a
/// world of the model.
#[derive(Drop)]
pub struct World {
    long_max: u64,
    groups: Groups,
    calls: [Option<Kept>; 16],
    // the call that began last; the next one takes its memory
    current: Kept,
    results: [Option<Vec<u8>>; 16],
    taken: Option<Taken>,
    ghost long: { long_max < 2 ^ 36 },
    ghost stands: { ∥ ((w : ModelWorld) × AreWorld long_max groups.items.items calls w) ∥₁ },
}

impl World {
    ghost use Rattle.std.specs.Prelude.{◌&&◌, false, length, not, slice_get, Some, None};
    ghost use Rattle.pcm_base.specs.model.Events.{opens};
    ghost use Rattle.pcm_base.specs.model.Words.{is_closed as is_closed_state};
    ghost use Rattle.pcm_base.specs.model.World.{InProgress, begun, call_of, in_group as in_group_of, is_go, named as named_of};
    ghost use Rattle.pcm_group.specs.Turn.{caller, is_group_call};
    ghost use Rattle.pcm_world.specs.Answered.{IsAnswered};
    ghost use Rattle.pcm_world.specs.Groups.{place_in, taken_of};
    ghost use Rattle.pcm_world.specs.Inside.{numbers_inside};
    ghost use Rattle.pcm_world.specs.Shown.{IsWorld, is_reading as is_reading_of, is_movement, moved_after, moved_in, result_after, result_in, second_of, shown};

    /// A world without a substream. What it keeps is taken from `alloc`.
    pub fn new(alloc: Global) -> World
        ensures world { IsWorld result empty }
        ensures result { (c : ClientIdOf) → result_in result c ≡ [] }
        ensures moved { (k : SubIdOf) → moved_in result k ≡ [] }
    {
        World {
            long_max: FIRST_LONG_MAX,
            groups: Groups::new(alloc),
            calls: Default::default(),
            current: Kept::new(alloc),
            results: Default::default(),
            taken: None,
        }
    }

    /// Sets LONG_MAX of the session: EBUSY where a substream is declared, then EINVAL unless it is 15 to 2^36 - 1. This
    /// project's own.
    pub fn set_long(&mut self, n: u64) -> Reply
        ensures answered { result ≢ Memory }
        ensures reply { (w : ModelWorld) → IsWorld self.old w → result ≡ (set_long_of n w).reply }
        ensures world { (w : ModelWorld) → IsWorld self.old w → IsWorld self.new (set_long_of n w).world }
        ensures result { (c : ClientIdOf) → result_in self.new c ≡ result_in self.old c }
        ensures moved { (k : SubIdOf) → moved_in self.new k ≡ moved_in self.old k }
    {
        if !self.groups.is_empty() {
            return Reply::Err(Errno::Ebusy);
        }
        if n < 15 || n >= 1 << 36 {
            return Reply::Err(Errno::Einval);
        }
        self.long_max = n;
        Reply::Ok
    }

    /// Declares a substream with a card of this model; EBUSY where it is declared. `Memory` leaves all as it was. This
    /// project's own.
    pub fn declare(&mut self, sub: SubId, model: Model, dir: Dir) -> Reply
        requires number { sub.0 ≤ 15 }
        ensures reply { (w : ModelWorld) → IsWorld self.old w → result ≢ Memory → result ≡ (declare_of sub (limits_of model) dir w).reply }
        ensures world { (w : ModelWorld) → IsWorld self.old w → result ≢ Memory → IsWorld self.new (declare_of sub (limits_of model) dir w).world }
        ensures memory { (w : ModelWorld) → IsWorld self.old w → result ≡ Memory → IsWorld self.new w }
        ensures result { (c : ClientIdOf) → result_in self.new c ≡ result_in self.old c }
        ensures moved { (k : SubIdOf) → moved_in self.new k ≡ moved_in self.old k }
    {
        if self.groups.find(sub).is_some() {
            return Reply::Err(Errno::Ebusy);
        }
        match self.groups.declare(sub, model, dir, self.long_max) {
            Ok(()) => Reply::Ok,
            Err(_) => Reply::Memory,
        }
    }

    /// One step: an event with the bytes that were handed in. A client with a call in progress gets Busy for all but its own
    /// Go, whose bytes are those that it kept. `Memory` leaves all as it was.
    pub fn step(&mut self, event: &Event, bytes: &[u8]) -> Told
        requires caller { is_card_event event.now.call ≡ is_none event.now.client }
        requires client { ForSome event.now.client (λ c. c.0 ≤ 15) }
        requires number { event.now.sub.0 ≤ 15 }
        requires second { (second_of event.now.call event.now.sub).0 ≤ 15 }
        ensures told { (w : ModelWorld) → IsWorld self.old w → result.reply ≢ Memory → result ≡ shown (step_of w event.now bytes.now) }
        ensures world { (w : ModelWorld) → IsWorld self.old w → result.reply ≢ Memory → IsWorld self.new (step_of w event.now bytes.now).world }
        ensures memory { (w : ModelWorld) → IsWorld self.old w → result.reply ≡ Memory → IsWorld self.new w }
        ensures result { (w : ModelWorld) (c : ClientIdOf) → IsWorld self.old w → result.reply ≢ Memory
            → result_in self.new c ≡ result_after c event.now w (step_of w event.now bytes.now) (result_in self.old c) }
        ensures moved { (w : ModelWorld) (k : SubIdOf) → IsWorld self.old w → result.reply ≢ Memory → moved_in self.new k ≡ moved_after k event.now (step_of w event.now bytes.now) }
        ensures unread { (c : ClientIdOf) → result.reply ≡ Memory → result_in self.new c ≡ result_in self.old c }
        ensures unmoved { (k : SubIdOf) → result.reply ≡ Memory → moved_in self.new k ≡ moved_in self.old k }
    {
        let taken = self.movement(event);
        let told = self.answer(event, bytes);
        if told.reply != Reply::Memory {
            self.taken = taken;
        }
        told
    }

    // Where the card of a movement stands before it.
    fn movement(&self, event: &Event) -> Option<Taken>
        requires { event.now.sub.0 ≤ 15 }
        ensures some { (n : ℕ) → event.now.call ≡ Call.MoveBy n → result ≡ Some (record { sub = event.now.sub; before = length (taken_of event.now.sub self.now.groups.items.items) }) }
        ensures none { is_movement event.now.call ≡ false → result ≡ None }
    {
        match event.call {
            Call::MoveBy(_) => Some(Taken {
                sub: event.sub,
                before: self.groups.taken(event.sub).len(),
            }),
            _ => None,
        }
    }

    // First whether the client has a call in progress.
    fn answer(&mut self, event: &Event, bytes: &[u8]) -> Told
        requires caller { is_card_event event.now.call ≡ is_none event.now.client }
        requires client { ForSome event.now.client (λ c. c.0 ≤ 15) }
        requires number { event.now.sub.0 ≤ 15 }
        requires second { (second_of event.now.call event.now.sub).0 ≤ 15 }
        ensures answered { (w : ModelWorld) → IsWorld self.old w → result.reply ≢ Memory → IsAnswered self.old self.new event.now w (step_of w event.now bytes.now) result }
        ensures memory { (w : ModelWorld) → IsWorld self.old w → result.reply ≡ Memory → IsWorld self.new w }
        ensures unread { (c : ClientIdOf) → result.reply ≡ Memory → result_in self.new c ≡ result_in self.old c }
        ensures taken { self.new.taken ≡ self.old.taken }
    {
        let Some(client) = event.client else {
            return self.named(event, bytes);
        };
        let called = self.calls[client.0 as usize].is_some();
        match event.call {
            Call::Go if called => self.go_on(client),
            Call::Go => told(Reply::Err(Errno::Einval), None),
            _ if called => told(Reply::Busy(client), Some(self.groups.state(event.sub))),
            _ => self.named(event, bytes),
        }
    }

    // The event of a client that has no call in progress, or of a card.
    fn named(&mut self, event: &Event, bytes: &[u8]) -> Told
        requires begins { is_go event.now.call ≡ false }
        requires caller { is_card_event event.now.call ≡ is_none event.now.client }
        requires client { ForSome event.now.client (λ c. c.0 ≤ 15) }
        requires number { event.now.sub.0 ≤ 15 }
        requires second { (second_of event.now.call event.now.sub).0 ≤ 15 }
        requires idle { ForSome event.now.client (λ c. slice_get self.old.calls c.0 ≡ Some None) }
        ensures answered { (w : ModelWorld) → IsWorld self.old w → result.reply ≢ Memory
            → IsAnswered self.old self.new event.now w (named_of event.now.call (begun (caller event.now) event.now.sub bytes.now) w) result }
        ensures memory { (w : ModelWorld) → IsWorld self.old w → result.reply ≡ Memory → IsWorld self.new w }
        ensures unread { (c : ClientIdOf) → result.reply ≡ Memory → result_in self.new c ≡ result_in self.old c }
        ensures taken { self.new.taken ≡ self.old.taken }
    {
        let Some(place) = self.groups.find(event.sub) else {
            return no_such();
        };
        if is_closed(self.groups.state(event.sub)) && !matches!(event.call, Call::OpenSub) {
            return no_such();
        }
        match event.call {
            Call::Link(second) => link(&mut self.groups, event.sub, second),
            Call::Unlink => unlink(&mut self.groups, event.sub),
            _ => self.begin(place, event, bytes),
        }
    }

    // The step of one group, by a call that begins or an event of a card.
    fn begin(&mut self, place: usize, event: &Event, bytes: &[u8]) -> Told
        requires number { event.now.sub.0 ≤ 15 }
        requires place { place_in event.now.sub (numbers_inside self.old.groups) ≡ Some place }
        requires call { is_group_call event.now.call ≡ true }
        requires begins { is_go event.now.call ≡ false }
        requires caller { is_card_event event.now.call ≡ is_none event.now.client }
        requires client { ForSome event.now.client (λ c. c.0 ≤ 15) }
        requires opened { (w : ModelWorld) → IsWorld self.old w → (is_closed_state (stream_in event.now.sub w).state && not (opens event.now.call)) ≡ false }
        requires idle { ForSome event.now.client (λ c. slice_get self.old.calls c.0 ≡ Some None) }
        ensures answered { (w : ModelWorld) → IsWorld self.old w → result.reply ≢ Memory
            → IsAnswered self.old self.new event.now w (in_group_of event.now.call (begun (caller event.now) event.now.sub bytes.now) w) result }
        ensures memory { (w : ModelWorld) → IsWorld self.old w → result.reply ≡ Memory → IsWorld self.new w }
        ensures unread { (c : ClientIdOf) → result.reply ≡ Memory → result_in self.new c ≡ result_in self.old c }
        ensures taken { self.new.taken ≡ self.old.taken }
    {
        let layout = layout_read(event.call);
        let shape = self.groups.shape_for(event.sub, layout);
        let Ok(()) = lend(&mut self.current.bytes, event.call, &shape, bytes) else {
            return told(Reply::Memory, None);
        };
        self.current.sub = event.sub;
        self.current.layout = layout;
        let told = in_group(&mut self.groups, place, event, &mut self.current.bytes);
        end(
            &mut self.calls,
            &mut self.results,
            event.client,
            &told.reply,
            &shape,
            &mut self.current,
        );
        told
    }

    // The client's call in progress goes on, with its own bytes. It stays a call of its own, so that the common way needs no room for it.
    #[inline(never)]
    fn go_on(&mut self, client: ClientId) -> Told
        requires { client.0 ≤ 15 }
        ensures answered { (w : ModelWorld) (k : SubIdOf) (p : InProgress) → IsWorld self.old w → call_of client w.calls ≡ Some p → result.reply ≢ Memory
            → IsAnswered self.old self.new (record { client = Some client; sub = k; call = Call.Go }) w (in_group_of Call.Go p w) result }
        ensures memory { (w : ModelWorld) → IsWorld self.old w → result.reply ≡ Memory → IsWorld self.new w }
        ensures unread { (c : ClientIdOf) → result.reply ≡ Memory → result_in self.new c ≡ result_in self.old c }
        ensures taken { self.new.taken ≡ self.old.taken }
    {
        let Some(mut kept) = self.calls[client.0 as usize].take() else {
            return told(Reply::Err(Errno::Einval), None);
        };
        let Some(place) = self.groups.find(kept.sub) else {
            return no_such();
        };
        let event = Event {
            client: Some(client),
            sub: kept.sub,
            call: Call::Go,
        };
        let shape = self.groups.shape(kept.sub);
        let told = in_group(&mut self.groups, place, &event, &mut kept.bytes);
        end_going(
            &mut self.calls,
            &mut self.results,
            client,
            &told.reply,
            &shape,
            kept,
        );
        told
    }

    /// The bytes that were read, in all its steps together, by the client's last read or load that was answered with frames;
    /// none before the first.
    pub fn result(&self, client: ClientId) -> &[u8]
        requires { client.0 ≤ 15 }
        ensures { result.now ≡ result_in self.now client }
    {
        match &self.results[client.0 as usize] {
            Some(bytes) => bytes,
            None => &[],
        }
    }

    /// Whether the client's call in progress reads.
    pub fn is_reading(&self, client: ClientId) -> bool
        requires { client.0 ≤ 15 }
        ensures { (w : ModelWorld) → IsWorld self.now w → result ≡ is_reading_of (call_of client w.calls) w }
    {
        match &self.calls[client.0 as usize] {
            Some(kept) => kept.layout.is_some(),
            None => false,
        }
    }

    /// What the card of a playback substream took in the last event.
    pub fn moved(&self, sub: SubId) -> &[u8]
        requires { sub.0 ≤ 15 }
        ensures { result.now ≡ moved_in self.now sub }
    {
        let Some(taken) = self.taken else {
            return &[];
        };
        if taken.sub.0 != sub.0 {
            return &[];
        }
        from(self.groups.taken(sub), taken.before)
    }

    /// The substream; None exactly where it is not declared.
    pub fn substream(&self, sub: SubId) -> Option<&Substream<AnyCard>>
        requires { sub.0 ≤ 15 }
        ensures some { (w : ModelWorld) → IsWorld self.now w → IfSome result (λ s. StandsFor s.now (stream_in sub w)) }
        ensures none { (w : ModelWorld) → IsWorld self.now w → is_some result ≡ is_declared sub w }
    {
        self.groups.substream(sub)
    }

    /// The frames that the card has moved since the last accepted hw_params, 2^64 - 1 where there are more; 0 without a
    /// configuration.
    pub fn moved_total(&self, sub: SubId) -> u64
        requires { sub.0 ≤ 15 }
        ensures { (w : ModelWorld) → IsWorld self.now w → result ≡ min (stream_in sub w).moved (2 ^ 64 - 1) }
    {
        match self.groups.substream(sub) {
            Some(stream) => stream.moved_total(),
            None => 0,
        }
    }
}

// The bytes from a place on, none where there are fewer.
fn from(bytes: &[u8], start: usize) -> &[u8]
    ensures { result.now ≡ drop start bytes.now }
{
    &bytes[start.min(bytes.len())..]
}
