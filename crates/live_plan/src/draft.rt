// A plan that is still being read.
ghost use Rattle.std.specs.Prelude.{◌≡◌, ◌≢◌, ◌<◌, ◌+◌, ◌⊎◌, ◌++◌, ◌∷◌, [], IfOk, IfErr, OnOk, None, ℕ, length, slice_index_or, Vec};
ghost use Rattle.std.specs.Global.{Global};
ghost use Rattle.pcm_line.specs.Grammar.{IsLine};
ghost use Rattle.pcm_line.specs.declared.line.Line.{Line as LineOf};
ghost use Rattle.pcm_line.specs.declared.line.Line.TheVariants as line_of;
ghost use Rattle.pcm_line.specs.Sayable.{IsSayableEvent, Sayable};
ghost use Rattle.pcm_line.specs.declared.error.LineError.TheVariants as line_error;
ghost use Rattle.live_plan.specs.Draft.{StandsFor, StandsBut};
ghost use Rattle.live_plan.specs.Lines.{line_limit};
ghost use Rattle.live_plan.specs.Plan.{HasFault};
ghost use Rattle.live_plan.specs.Rules.{fault_of as fault_of_line};
ghost use Rattle.live_plan.specs.Said.{Said, Nothing, Then};

use crate::fault;
use crate::part::Part;
use crate::plan::Plan;
use pcm_base::{Bytes, ClientId, Event};
use pcm_line::{Line, LineError, read_line};
use std::alloc::{AllocError, AllocFailed, Global};

/// LONG_MAX of a plan that sets none.
const FIRST_LONG_MAX: u64 = 2_147_483_647;

/// A plan of which some lines were read: what they say, the part in which the next one stands, how many they are, and how
/// many beats there are over all, the greatest number standing for any greater sum.
#[derive(Drop)]
pub(crate) struct Draft {
    pub plan: Plan,
    pub part: Part,
    pub count: u64,
    pub beats: u64,
}

// A list for each client.
fn no_calls(alloc: Global) -> Result<Vec<Vec<Line>>, AllocError>
    ensures count { IfOk result (λ clients. length clients.items ≡ 16) }
    ensures empty { IfOk result (λ clients. (c : ℕ) (none : Vec LineOf Global) → c < 16 → (slice_index_or clients.items c none).items ≡ []) }
{
    let mut clients = Vec::new(alloc);
    for _ in 0..16u8 {
        clients.push(Vec::new(alloc))?;
    }
    Ok(clients)
}

// Another call of a client.
fn push_call(
    clients: &mut Vec<Vec<Line>>,
    client: ClientId,
    line: Line,
) -> Result<(), AllocFailed<Line>>
    requires client { client.0 < 16 }
    requires count { length clients.old.items ≡ 16 }
    ensures count { length clients.new.items ≡ 16 }
    ensures own { OnOk result ((none : Vec LineOf Global) → (slice_index_or clients.new.items client.0 none).items ≡ (slice_index_or clients.old.items client.0 none).items ++ line ∷ []) }
    ensures others { (c : ℕ) (none : Vec LineOf Global) → c ≢ client.0 → slice_index_or clients.new.items c none ≡ slice_index_or clients.old.items c none }
{
    clients[usize::from(client.0)].push(line)
}

impl Draft {
    /// No line was read.
    pub fn new(alloc: Global) -> Result<Draft, AllocError>
        ensures { IfOk result (λ draft. StandsFor draft Nothing) }
    {
        let plan = Plan {
            long_max: FIRST_LONG_MAX,
            cards: Vec::new(alloc),
            setup: Vec::new(alloc),
            clients: no_calls(alloc)?,
            beats: Vec::new(alloc),
            saves: Vec::new(alloc),
        };
        Ok(Draft {
            plan,
            part: Part::Setup,
            count: 0,
            beats: 0,
        })
    }

    // An event of the setup, or a client's call behind it.
    fn keep_event(&mut self, event: Event, bytes: Bytes) -> Result<(), AllocFailed<Line>>
        requires sayable { IsSayableEvent event bytes }
        requires clients { length self.old.plan.clients.items ≡ 16 }
        ensures { (said : Said) → StandsBut self.old said → OnOk result (StandsFor self.new (Then said (line_of.Event event bytes))) }
    {
        match (self.part, event.client) {
            (Part::Setup, _) => self.plan.setup.push(Line::Event(event, bytes)),
            (Part::Workers, Some(client)) => {
                push_call(&mut self.plan.clients, client, Line::Event(event, bytes))
            }
            _ => Ok(()),
        }
    }

    // Puts a line to those of its kind.
    fn keep(&mut self, line: Line) -> Result<(), LineError>
        requires few { self.old.count < line_limit }
        requires sayable { Sayable line }
        requires clients { length self.old.plan.clients.items ≡ 16 }
        ensures kept { (said : Said) → StandsFor self.old said → OnOk result (StandsFor self.new (Then said line)) }
        ensures memory { IfErr result (λ e. e ≡ line_error.Memory) }
    {
        self.count += 1;
        match line {
            Line::LongMax(n) => {
                self.plan.long_max = n;
                Ok(())
            }
            Line::Card(_, model, dir) => Ok(self.plan.cards.push((model, dir))?),
            Line::Event(event, bytes) => Ok(self.keep_event(event, bytes)?),
            Line::Feed(sub, name) => Ok(self.plan.setup.push(Line::Feed(sub, name))?),
            Line::Beat(sub, frames, count) => {
                self.beats = self.beats.saturating_add(count);
                Ok(self.plan.beats.push(Line::Beat(sub, frames, count))?)
            }
            Line::Save(sub, name) => Ok(self.plan.saves.push(Line::Save(sub, name))?),
            Line::Threads => {
                self.part = Part::Workers;
                Ok(())
            }
            Line::Join => {
                self.part = Part::End;
                Ok(())
            }
            _ => Ok(()),
        }
    }

    // What is wrong with a line of these bytes that comes next.
    fn fault_of(&self, line: &Line, bytes: &[u8]) -> Option<LineError>
        ensures { (said : Said) → StandsFor self.now said → result ≡ fault_of_line said line.now bytes.now }
    {
        let cards = self.plan.cards.len();
        match line {
            Line::LongMax(n) => fault::long(self.count, *n, bytes),
            Line::Card(sub, ..) => {
                fault::card(self.part, self.plan.setup.is_empty(), cards, *sub, bytes)
            }
            Line::Event(event, _) => fault::event(self.part, cards, event, bytes),
            Line::Feed(sub, _) => fault::on_sub(self.part.is_setup(), cards, *sub, bytes),
            Line::Beat(sub, ..) => fault::beat(self.part, cards, &self.plan.beats, *sub, bytes),
            Line::Save(sub, _) => fault::on_sub(self.part.is_end(), cards, *sub, bytes),
            Line::Threads => fault::threads(self.part, cards),
            Line::Join => fault::join(self.part),
            _ => fault::unplanned(),
        }
    }

    /// The line of these bytes comes next: it is taken, or is at fault. After an error the draft is not told.
    pub fn take_line(&mut self, alloc: Global, bytes: &[u8]) -> Result<(), LineError>
        requires few { self.old.count < line_limit }
        requires clients { length self.old.plan.clients.items ≡ 16 }
        ensures taken { (said : Said) → StandsFor self.old said → OnOk result ((line : LineOf) × IsLine bytes.now line × (fault_of_line said line bytes.now ≡ None) × StandsFor self.new (Then said line)) }
        ensures fault { (said : Said) → StandsFor self.old said → IfErr result (λ e. (e ≡ line_error.Memory) ⊎ HasFault said bytes.now e) }
    {
        let line = read_line(alloc, bytes)?;
        match self.fault_of(&line, bytes) {
            None => self.keep(line),
            Some(fault) => Err(fault),
        }
    }
}
