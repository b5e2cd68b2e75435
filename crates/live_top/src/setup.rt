// The setup of a plan, on the calling thread.
ghost use Rattle.std.specs.Prelude.{◌≡◌, ◌≢◌, ◌∷◌, [], length, Err, IfErr, IfOk, OnErr, OnOk, Some, true};
ghost use Rattle.std.specs.List.{AllByRecursion};
ghost use Rattle.pcm_base.specs.Causes.{Rose};
ghost use Rattle.pcm_io.specs.Shelf.{Stay};
ghost use Rattle.pcm_line.specs.declared.line.Line.TheVariants as the_line;
ghost use Rattle.pcm_text.specs.declared.status.Status.TheVariants.{ShelfFault};
ghost use Rattle.room_parts.specs.Passes.{IsBy};
ghost use Rattle.live_plan.specs.Rules.{is_declared};
ghost use Rattle.live_plan.specs.Sound.{IsSetupLine};
ghost use Rattle.live_work.specs.Calls.{IsMadeIfDone};
ghost use Rattle.live_work.specs.Runs.{io_of};
ghost use Rattle.live_top.specs.Passes.{AreWhose, HaveCalled};
ghost use Rattle.live_top.specs.Setup.{HaveFed, HaveMade, HaveSetUp, HaveSetUpFirst, HaveSetUpTo, IsCallHalt, IsSetupHalt, MayMake, at_first, directions};
ghost use Rattle.live_top.specs.declared.halt.Halt.TheVariants.{Ended};

use crate::files::{has_config, load};
use crate::halt::Halt;
use crate::told::Known;
use live_floor::Passes;
use live_plan::Plan;
use live_work::{Calls, Links, lent, send};
use pcm_base::{Bytes, Call, Config, Dir, Event, Model, Name, Reply, SubId};
use pcm_io::Shelf;
use pcm_line::Line;
use pcm_text::Status;
use room_lock::Answer;
use room_parts::{FloorName, Pass};
use std::alloc::Global;
use std::sync::Wait;

// An event by the pass of its caller. A pass with a call in progress makes none.
fn call_by<N: FloorName, F: Calls<N> + Links<N>, R: Wait>(
    rt: &R,
    floor: &F,
    pass: &mut Pass<N>,
    event: &Event,
    io: &mut [u8],
) -> Answer
    requires may { MayMake (length N.cards) event.now io.old }
    requires by { IsBy pass.old.caller event.now }
    ensures { IsMadeIfDone N.cards N.long_max result event.now io.old pass.old pass.new }
{
    if pass.busy().is_some() {
        return Answer::Memory;
    }
    match event.client {
        Some(client) => send(rt, floor, pass, client, event, io),
        None => floor.call(rt, pass, event, io),
    }
}

// An event by the pass of its client or of its card.
fn call_of<N: FloorName, F: Calls<N> + Links<N>, R: Wait>(
    rt: &R,
    floor: &F,
    passes: &mut Passes<N>,
    event: &Event,
    io: &mut [u8],
) -> Answer
    requires whose { AreWhose (length N.cards) passes.old.clients.items passes.old.cards.items }
    requires may { MayMake (length N.cards) event.now io.old }
    ensures whose { AreWhose (length N.cards) passes.new.clients.items passes.new.cards.items }
    ensures made { HaveMade N.cards N.long_max result event.now io.old passes.old.clients.items passes.new.clients.items passes.old.cards.items passes.new.cards.items }
{
    match event.client {
        Some(client) => {
            let pass = &mut passes.clients[usize::from(client.0)];
            call_by(rt, floor, pass, event, io)
        }
        None => {
            let pass = &mut passes.cards[usize::from(event.sub.0)];
            call_by(rt, floor, pass, event, io)
        }
    }
}

// The reply to an event of the setup, which is made by the pass of its client or of its card.
fn make<N: FloorName, F: Calls<N> + Links<N>, R: Wait>(
    rt: &R,
    floor: &F,
    passes: &mut Passes<N>,
    event: &Event,
    io: &mut [u8],
) -> Result<Reply, Halt>
    requires whose { AreWhose (length N.cards) passes.old.clients.items passes.old.cards.items }
    requires may { MayMake (length N.cards) event.now io.old }
    ensures whose { AreWhose (length N.cards) passes.new.clients.items passes.new.cards.items }
    ensures made { IfOk result (λ answer. HaveCalled N.cards N.long_max (record { call = record { event = event.now; io = io.old }; reply = answer } ∷ []) passes.old.clients.items passes.new.clients.items passes.old.cards.items passes.new.cards.items) }
    ensures none { OnErr result (HaveCalled N.cards N.long_max [] passes.old.clients.items passes.new.clients.items passes.old.cards.items passes.new.cards.items) }
    ensures halted { IfErr result IsCallHalt }
{
    match call_of(rt, floor, passes, event, io) {
        Answer::Done { reply, .. } => Ok(reply),
        Answer::LogFull(..) => Err(Halt::Full),
        Answer::Memory => Err(Halt::Ended(Status::Memory)),
    }
}

// A planned event.
fn make_planned<N: FloorName, F: Calls<N> + Links<N>, R: Wait>(
    rt: &R,
    alloc: Global,
    floor: &F,
    passes: &mut Passes<N>,
    event: &Event,
    bytes: &Bytes,
) -> Result<Reply, Halt>
    requires whose { AreWhose (length N.cards) passes.old.clients.items passes.old.cards.items }
    requires line { IsSetupLine (length N.cards) (the_line.Event event.now bytes.now) }
    ensures whose { AreWhose (length N.cards) passes.new.clients.items passes.new.cards.items }
    ensures made { IfOk result (λ answer. HaveCalled N.cards N.long_max (record { call = record { event = event.now; io = io_of event.now.call bytes.now }; reply = answer } ∷ []) passes.old.clients.items passes.new.clients.items passes.old.cards.items passes.new.cards.items) }
    ensures none { OnErr result (HaveCalled N.cards N.long_max [] passes.old.clients.items passes.new.clients.items passes.old.cards.items passes.new.cards.items) }
    ensures halted { IfErr result IsCallHalt }
{
    let mut io = lent(alloc, &event.call, bytes.as_slice())?;
    make(rt, floor, passes, event, &mut io)
}

// The frames of a file are given to the card where they are of this configuration.
fn feed<N: FloorName, F: Calls<N> + Links<N>, S: Shelf, R: Wait>(
    rt: &R,
    alloc: Global,
    floor: &F,
    passes: &mut Passes<N>,
    sub: SubId,
    name: &Name,
    config: Config,
    shelf: &mut S,
) -> Result<(), Halt>
    requires whose { AreWhose (length N.cards) passes.old.clients.items passes.old.cards.items }
    requires sub { is_declared (length N.cards) sub ≡ true }
    ensures whose { AreWhose (length N.cards) passes.new.clients.items passes.new.cards.items }
    ensures made { OnOk result (HaveFed N.cards N.long_max (S.files shelf.old) sub name.now (Some config) passes.old.clients.items passes.new.clients.items passes.old.cards.items passes.new.cards.items) }
    ensures none { OnErr result (HaveCalled N.cards N.long_max [] passes.old.clients.items passes.new.clients.items passes.old.cards.items passes.new.cards.items) }
    ensures halted { IfErr result (IsSetupHalt (S.files shelf.old) (the_line.Feed sub name.now ∷ [])) }
    ensures stay { Stay (S.files shelf.old) (S.files shelf.new) }
    ensures rose { result ≡ Err (Ended ShelfFault) → Rose (S.faults shelf.old) (S.faults shelf.new) }
    ensures calm { result ≢ Err (Ended ShelfFault) → S.faults shelf.new ≡ S.faults shelf.old }
{
    let mut wav = load(alloc, name, shelf)?;
    if !has_config(&wav, &config) {
        return Ok(());
    }
    let event = Event {
        client: None,
        sub,
        call: Call::Give,
    };
    make(rt, floor, passes, &event, &mut wav.frames)?;
    Ok(())
}

// A line of the setup, and what its reply tells.
fn set_up_line<N: FloorName, F: Calls<N> + Links<N>, S: Shelf, R: Wait>(
    rt: &R,
    alloc: Global,
    floor: &F,
    passes: &mut Passes<N>,
    cards: &[(Model, Dir)],
    known: &mut Known,
    line: &Line,
    shelf: &mut S,
) -> Result<(), Halt>
    requires whose { AreWhose (length N.cards) passes.old.clients.items passes.old.cards.items }
    requires line { IsSetupLine (length N.cards) line.now }
    requires cards { length cards.now ≡ length N.cards }
    requires known { length known.old.told.items ≡ length N.cards }
    ensures whose { AreWhose (length N.cards) passes.new.clients.items passes.new.cards.items }
    ensures known { length known.new.told.items ≡ length N.cards }
    ensures made { OnOk result (HaveSetUpTo N.cards N.long_max (record { dirs = directions cards.now; files = S.files shelf.old; told = known.old.told.items }) (line.now ∷ []) known.new.told.items passes.old.clients.items passes.new.clients.items passes.old.cards.items passes.new.cards.items) }
    ensures none { OnErr result (HaveCalled N.cards N.long_max [] passes.old.clients.items passes.new.clients.items passes.old.cards.items passes.new.cards.items) }
    ensures halted { IfErr result (IsSetupHalt (S.files shelf.old) (line.now ∷ [])) }
    ensures stay { Stay (S.files shelf.old) (S.files shelf.new) }
    ensures rose { result ≡ Err (Ended ShelfFault) → Rose (S.faults shelf.old) (S.faults shelf.new) }
    ensures calm { result ≢ Err (Ended ShelfFault) → S.faults shelf.new ≡ S.faults shelf.old }
{
    match line {
        Line::Event(event, bytes) => {
            let reply = make_planned(rt, alloc, floor, passes, event, bytes)?;
            known.learn(event, reply);
            Ok(())
        }
        Line::Feed(sub, name) => match known.to_feed(cards[usize::from(sub.0)].1, *sub) {
            Some(config) => feed(rt, alloc, floor, passes, *sub, name, config, shelf),
            None => Ok(()),
        },
        _ => Ok(()),
    }
}

/// Makes the events of the setup in order.
pub(crate) fn set_up<N: FloorName, F: Calls<N> + Links<N>, S: Shelf, R: Wait>(
    rt: &R,
    alloc: Global,
    floor: &F,
    passes: &mut Passes<N>,
    plan: &Plan,
    shelf: &mut S,
) -> Result<(), Halt>
    requires whose { AreWhose (length N.cards) passes.old.clients.items passes.old.cards.items }
    requires lines { AllByRecursion (IsSetupLine (length N.cards)) plan.now.setup.items }
    requires cards { length N.cards ≡ length plan.now.cards.items }
    ensures whose { AreWhose (length N.cards) passes.new.clients.items passes.new.cards.items }
    ensures made { OnOk result (HaveSetUp N.cards N.long_max (at_first plan.now.cards.items (S.files shelf.old)) plan.now.setup.items passes.old.clients.items passes.new.clients.items passes.old.cards.items passes.new.cards.items) }
    ensures first { OnErr result (HaveSetUpFirst N.cards N.long_max (at_first plan.now.cards.items (S.files shelf.old)) plan.now.setup.items passes.old.clients.items passes.new.clients.items passes.old.cards.items passes.new.cards.items) }
    ensures halted { IfErr result (IsSetupHalt (S.files shelf.old) plan.now.setup.items) }
    ensures stay { Stay (S.files shelf.old) (S.files shelf.new) }
    ensures rose { result ≡ Err (Ended ShelfFault) → Rose (S.faults shelf.old) (S.faults shelf.new) }
    ensures calm { result ≢ Err (Ended ShelfFault) → S.faults shelf.new ≡ S.faults shelf.old }
{
    let cards = plan.cards.as_slice();
    let mut known = Known::new(alloc, cards.len())?;
    'lines: for line in &plan.setup {
        set_up_line(rt, alloc, floor, passes, cards, &mut known, line, shelf)?;
    }
    Ok(())
}
