// What a caller carries from call to call.
ghost use Rattle.std.specs.Prelude.{◌≡◌, ◌+◌, ◌-◌, ◌<◌, ◌^◌, ℕ, [], get_or, length, max, set, true};
ghost use Rattle.std.specs.declared.option.Option.TheVariants.{None as Nowhere};
ghost use Rattle.floor_rule.specs.Steps.{IsPage, KnowsOwn, told_by_pass, with_page};
ghost use Rattle.floor_rule.specs.Views.{both_lists};
ghost use Rattle.room_parts.specs.Passes.{PassStands, busy_after, client_of};
ghost use Rattle.room_parts.specs.Seen.{seen_of};

use crate::name::FloorName;
use floor_rule::{Entry, Glance, Note, PassSeat, SharedWords, unpack};
use pcm_base::{ClientId, Reply, SubId};
use std::marker::{Model, PhantomData};

// A substream's number is one of so many.
const SUBS: usize = 256;

/// Whose calls a pass makes: a client's, or the events of a substream's card.
#[derive(Clone, Copy, Debug, PartialEq, Eq)]
pub enum Caller {
    Client(ClientId),
    Card(SubId),
}

/// A caller's seat at the words, between two calls: each of its calls has its receipt. Contracts see what the seat knows,
/// whose it is, and on which substream a call is in progress.
#[derive(Drop)]
pub struct Pass<N: FloorName> {
    pub(crate) seat: PassSeat,
    caller: Caller,
    pub(crate) busy: Option<SubId>,
    pub(crate) seen: [u32; SUBS],
    of: PhantomData<N>,
}

impl<N: FloorName> Model for Pass<N> {
    ghost use Rattle.std.specs.Prelude.{◌≡◌, length};
    ghost use Rattle.room_parts.specs.Passes.{PassStands, PassView};
    ghost use Rattle.room_parts.specs.Seen.{Remembers};

    ghost Value = { PassView };

    ghost view = { λ p. record { knows = p.seat.knows; caller = p.caller; busy = p.busy } };

    ghost invariant = { λ p. (p.seat.table ≡ N.table) × PassStands (length N.cards) p.caller p.busy p.seat.knows × (length p.seen ≡ 256) × Remembers p.seen p.seat.knows };
}

// On which substream a call with this entry is in progress.
pub(crate) fn busy_on(entry: &Entry) -> Option<SubId>
    ensures { result ≡ busy_after entry.now }
{
    match entry {
        Entry::Own {
            event,
            reply: Reply::Asleep,
            ..
        } => Some(event.sub),
        _ => None,
    }
}

// So much of the log of a substream was seen.
pub(crate) fn raise(seen: &mut [u32; SUBS], sub: SubId, count: u32)
    requires size { length seen.old ≡ 256 }
    ensures within { sub.0 < 256 }
    ensures raised { seen.new ≡ set seen.old sub.0 (max (get_or seen.old sub.0 0) count) }
{
    let at = usize::from(sub.0);
    seen[at] = seen[at].max(count);
}

impl<N: FloorName> Pass<N> {
    /// A pass of this seat, with no calls.
    pub fn new(seat: PassSeat, caller: Caller) -> Pass<N>
        requires table { seat.table ≡ N.table }
        requires fresh { (seat.knows.calls ≡ []) × (seat.knows.receipts ≡ []) × (seat.knows.reads ≡ []) }
        ensures knows { result.knows ≡ seat.knows }
        ensures caller { result.caller ≡ caller }
        ensures idle { result.busy ≡ Nowhere }
    {
        Pass {
            seat,
            caller,
            busy: None,
            seen: [0; SUBS],
            of: PhantomData,
        }
    }

    /// The client whose calls these are; none where they are a card's events.
    pub fn client(&self) -> Option<ClientId>
        ensures { result ≡ client_of self.now.caller }
    {
        match self.caller {
            Caller::Client(client) => Some(client),
            Caller::Card(_) => None,
        }
    }

    /// The substream on which a call of this pass is in progress.
    pub fn busy(&self) -> Option<SubId>
        ensures { result ≡ self.now.busy }
    {
        self.busy
    }

    /// How much of the log of a substream it has seen: the greatest of the counts of the page words that it has read and of
    /// index + 1 over its receipts there, 0 where it has neither.
    pub fn seen(&self, sub: SubId) -> u32
        ensures { result ≡ seen_of sub.0 self.now.knows }
    {
        self.seen[usize::from(sub.0)]
    }

    /// How many calls it has made.
    pub fn calls(&self) -> u64
        ensures { result ≡ length self.now.knows.calls }
    {
        self.seat.calls()
    }

    /// The page of a substream. It goes beyond nothing that the pass has seen of that log.
    pub fn page(&mut self, words: &SharedWords, sub: SubId) -> Glance
        requires table { words.now.table ≡ N.table }
        requires card { sub.0 < words.now.cards }
        ensures page { (word : ℕ) × IsPage sub.0 word self.old.knows result.count (record { state = result.state; hw = result.hw }) × (self.new.knows ≡ with_page self.old.knows sub.0 result.count word) }
        ensures same { (self.new.caller ≡ self.old.caller) × (self.new.busy ≡ self.old.busy) }
    {
        let page = unpack(self.seat.read_page(words, sub));
        raise(&mut self.seen, sub, page.count);
        page
    }

    /// The room of a substream, as far as the words tell.
    pub fn place(&mut self, words: &SharedWords, sub: SubId) -> u32
        requires table { words.now.table ≡ N.table }
        requires card { sub.0 < words.now.cards }
        ensures room { result < 32 }
        ensures same { self.new ≡ self.old }
    {
        self.seat.read_place(words, sub)
    }

    /// A note of the calls of this pass, of the pages that it has read and of all that it was told.
    pub fn tell(&mut self, words: &SharedWords) -> Note
        requires table { words.now.table ≡ N.table }
        ensures same { self.new ≡ self.old }
        ensures note { result ≡ record { table = N.table; lists = told_by_pass self.old.knows } }
    {
        self.seat.copy_note(words)
    }

    /// The pass is told what the note tells.
    pub fn hear(&mut self, words: &SharedWords, note: Note)
        requires table { words.now.table ≡ N.table }
        requires note { note.table ≡ N.table }
        ensures { self.new ≡ record self.old { knows = record self.old.knows { held = both_lists note.lists self.old.knows.held } } }
    {
        self.seat.take_note(words, note);
    }

    /// Looks at what the pass was told of its own calls. All its calls have receipts, which stand in what it holds.
    pub fn look(&mut self, words: &SharedWords)
        requires table { words.now.table ≡ N.table }
        ensures knows { KnowsOwn self.old.knows }
        ensures stands { PassStands (length N.cards) self.old.caller self.old.busy self.old.knows }
        ensures same { self.new ≡ self.old }
    {
        self.seat.look(words);
    }
}
