// What a script has come to, and what a line makes of it.
ghost use Rattle.std.specs.Prelude.{◌≡◌, ◌≢◌, ◌≤◌, ◌⊎◌, ◌++◌, true, IfErr, IfOk, OnOk};
ghost use Rattle.std.specs.declared.option.Option.{Option};
ghost use Rattle.pcm_base.specs.model.World.{World as ModelWorld};
ghost use Rattle.pcm_base.specs.Causes.{Rose};
ghost use Rattle.pcm_io.specs.Shelf.{Files, Stay, OthersStay};
ghost use Rattle.pcm_line.specs.declared.line.Line.TheVariants as line_of;
ghost use Rattle.pcm_line.specs.Sayable.{IsSayableEvent, Sayable};
ghost use Rattle.pcm_top.specs.declared.command.Command.TheVariants.{Run};
ghost use Rattle.pcm_top.specs.declared.end.End.{End as EndOf};
ghost use Rattle.pcm_top.specs.declared.end.End.TheVariants.{ShelfFault, Whole};
ghost use Rattle.pcm_top.specs.declared.end.Unanswered.TheVariants.{Ended, Memory};
ghost use Rattle.pcm_top.specs.CodeSession.{IsSession, IsNext, IsStopped, IsCut, Keeps};
ghost use Rattle.pcm_top.specs.Run.{is_built_at, run_line as run_line_of, files_saved, save_answer, save_refusal, end_line_of, end_lines};
ghost use Rattle.pcm_top.specs.Script.{closing, has};
ghost use Rattle.pcm_top.specs.Session.{Session as Come, begin};
ghost use Rattle.pcm_world.specs.Shown.{IsWorld};

use crate::carry::carry_line;
use crate::command::Command;
use crate::end::{End, Unanswered};
use crate::event::{is_reading, shown, tells_read};
use crate::feed::feed_line;
use crate::refine::push_answer;
use crate::save::file_to_save;
use crate::told::told_of;
use pcm_base::{Bytes, Dir, Event, Model, Name, Reply, SubId, Told};
use pcm_io::{Shelf, ShelfError};
use pcm_line::Line;
use pcm_text::{end_text, push_told};
use pcm_world::World;
use std::alloc::{AllocError, Global};

/// The most substreams.
const SUBSTREAMS: u8 = 16;

/// The world, the version of the script, and the text of the answers so far.
#[derive(Drop)]
pub struct Session {
    pub world: World,
    pub version: u64,
    pub text: Vec<u8>,
}

impl Session {
    /// Before the first line.
    pub fn new(alloc: Global) -> Session
        ensures { (files : Option Files) → IsSession result files (begin files) }
    {
        Session {
            world: World::new(alloc),
            version: 1,
            text: Vec::new(alloc),
        }
    }
}

// LONG_MAX of the session.
fn long_line(number: u64, n: u64, session: &mut Session) -> Result<(), AllocError>
    ensures { (s : Come) → Keeps session.old s → OnOk result (Keeps session.new (run_line_of number (line_of.LongMax n) s)) }
{
    let told = Told {
        reply: session.world.set_long(n),
        state: None,
        woken: 0,
    };
    push_told(&mut session.text, number, &told, None)
}

// The version of the script, which names no substream.
fn version_line(number: u64, n: u64, session: &mut Session) -> Result<(), AllocError>
    ensures { (s : Come) → Keeps session.old s → OnOk result (Keeps session.new (run_line_of number (line_of.Version n) s)) }
{
    session.version = n;
    let told = Told {
        reply: Reply::Ok,
        state: None,
        woken: 0,
    };
    push_told(&mut session.text, number, &told, None)
}

// A card for a substream.
fn card_line(
    number: u64,
    sub: SubId,
    model: Model,
    dir: Dir,
    session: &mut Session,
) -> Result<(), AllocError>
    requires { sub.0 ≤ 15 }
    ensures { (s : Come) → Keeps session.old s → OnOk result (Keeps session.new (run_line_of number (line_of.Card sub model dir) s)) }
{
    let reply = session.world.declare(sub, model, dir);
    if matches!(reply, Reply::Memory) {
        return Err(AllocError);
    }
    let told = told_of(&session.world, sub, reply);
    push_told(&mut session.text, number, &told, None)
}

// An event, told in the line of this number.
fn event_line(
    number: u64,
    event: &Event,
    bytes: &Bytes,
    session: &mut Session,
) -> Result<(), AllocError>
    requires { IsSayableEvent event.now bytes.now }
    ensures { (s : Come) → Keeps session.old s → OnOk result (Keeps session.new (run_line_of number (line_of.Event event.now bytes.now) s)) }
{
    let reads = is_reading(&session.world, event);
    let told = session.world.step(event, bytes.as_slice());
    if matches!(told.reply, Reply::Memory) {
        return Err(AllocError);
    }
    let reads = tells_read(reads, &told.reply);
    let bytes = shown(&session.world, event, reads);
    push_told(&mut session.text, number, &told, bytes)
}

// What the card took goes into a file of the shelf.
fn save_taken<F: Shelf>(
    alloc: Global,
    sub: SubId,
    name: &Name,
    world: &World,
    shelf: &mut F,
) -> Result<Reply, Unanswered>
    requires number { sub.0 ≤ 15 }
    requires stands { (w : ModelWorld) × IsWorld world.now w }
    ensures answered { IfOk result (λ r. r ≢ Reply.Memory) }
    ensures told { (w : ModelWorld) → IsWorld world.now w → IfOk result (λ r. r ≡ (save_answer sub w).reply) }
    ensures stored { (w : ModelWorld) (files : Option Files) → IsWorld world.now w → Stay files (F.files shelf.old) → OnOk result (Stay (files_saved sub name.now w files) (F.files shelf.new)) }
    ensures ended { IfErr result (λ e. (e ≡ Ended ShelfFault) ⊎ (e ≡ Memory)) }
    ensures allowed { (w : ModelWorld) → IsWorld world.now w → result ≡ Err (Ended ShelfFault) → save_refusal sub w ≡ None }
    ensures failed { result ≡ Err (Ended ShelfFault) → OthersStay (F.files shelf.old) (F.files shelf.new) name.now }
    ensures memory { result ≡ Err Memory → Stay (F.files shelf.old) (F.files shelf.new) }
    ensures rose { result ≡ Err (Ended ShelfFault) → Rose (F.faults shelf.old) (F.faults shelf.new) }
    ensures calm { result ≢ Err (Ended ShelfFault) → F.faults shelf.new ≡ F.faults shelf.old }
{
    match file_to_save(alloc, world, sub)? {
        Err(e) => Ok(Reply::Err(e)),
        Ok(file) => match shelf.store(name, &file) {
            Ok(()) => Ok(Reply::Ok),
            Err(ShelfError::Failed) => Err(Unanswered::Ended(End::ShelfFault)),
            Err(ShelfError::Memory) => Err(Unanswered::Memory),
        },
    }
}

// The line of a save.
fn save_line<F: Shelf>(
    alloc: Global,
    number: u64,
    sub: SubId,
    name: &Name,
    session: &mut Session,
    shelf: &mut F,
) -> Result<(), Unanswered>
    requires number { sub.0 ≤ 15 }
    requires stands { (w : ModelWorld) × IsWorld session.old.world w }
    ensures ok { (s : Come) → IsSession session.old (F.files shelf.old) s → OnOk result (IsNext Run number (line_of.Save sub name.now) s session.new (F.files shelf.new)) }
    ensures ended { (s : Come) (e : EndOf) → IsSession session.old (F.files shelf.old) s → result ≡ Err (Ended e) → IsStopped Run (line_of.Save sub name.now) s session.new.text.items (F.files shelf.new) e }
    ensures memory { (s : Come) → IsSession session.old (F.files shelf.old) s → result ≡ Err Memory → IsCut Run number (line_of.Save sub name.now) s (F.files shelf.new) }
    ensures rose { result ≡ Err (Ended ShelfFault) → Rose (F.faults shelf.old) (F.faults shelf.new) }
    ensures calm { result ≢ Err (Ended ShelfFault) → F.faults shelf.new ≡ F.faults shelf.old }
{
    let reply = save_taken(alloc, sub, name, &session.world, shelf)?;
    let told = told_of(&session.world, sub, reply);
    push_told(&mut session.text, number, &told, None)?;
    Ok(())
}

// A line of `run`, whichever it is.
#[inline(never)]
fn any_line<F: Shelf>(
    alloc: Global,
    number: u64,
    line: &Line,
    session: &mut Session,
    shelf: &mut F,
) -> Result<(), Unanswered>
    requires built { is_built_at number line.now ≡ true }
    requires says { Sayable line.now }
    requires stands { (w : ModelWorld) × IsWorld session.old.world w }
    ensures ok { (s : Come) → IsSession session.old (F.files shelf.old) s → OnOk result (IsNext Run number line.now s session.new (F.files shelf.new)) }
    ensures ended { (s : Come) (e : EndOf) → IsSession session.old (F.files shelf.old) s → result ≡ Err (Ended e) → IsStopped Run line.now s session.new.text.items (F.files shelf.new) e }
    ensures memory { (s : Come) → IsSession session.old (F.files shelf.old) s → result ≡ Err Memory → IsCut Run number line.now s (F.files shelf.new) }
    ensures rose { result ≡ Err (Ended ShelfFault) → Rose (F.faults shelf.old) (F.faults shelf.new) }
    ensures calm { result ≢ Err (Ended ShelfFault) → F.faults shelf.new ≡ F.faults shelf.old }
{
    match line {
        Line::Version(n) => version_line(number, *n, session)?,
        Line::LongMax(n) => long_line(number, *n, session)?,
        Line::Card(sub, model, dir) => card_line(number, *sub, *model, *dir, session)?,
        Line::Event(event, bytes) => event_line(number, event, bytes, session)?,
        Line::Carry(from, to) => carry_line(alloc, number, *from, *to, session)?,
        Line::Feed(sub, name) => return feed_line(alloc, number, *sub, name, session, shelf),
        Line::Save(sub, name) => return save_line(alloc, number, *sub, name, session, shelf),
        _ => unreachable!(),
    }
    Ok(())
}

// A line of `run`. The events, which are frequent, stand apart: the compiled code clears room for every call that a function
// names, whichever line comes.
fn run_line<F: Shelf>(
    alloc: Global,
    number: u64,
    line: &Line,
    session: &mut Session,
    shelf: &mut F,
) -> Result<(), Unanswered>
    requires built { is_built_at number line.now ≡ true }
    requires says { Sayable line.now }
    requires stands { (w : ModelWorld) × IsWorld session.old.world w }
    ensures ok { (s : Come) → IsSession session.old (F.files shelf.old) s → OnOk result (IsNext Run number line.now s session.new (F.files shelf.new)) }
    ensures ended { (s : Come) (e : EndOf) → IsSession session.old (F.files shelf.old) s → result ≡ Err (Ended e) → IsStopped Run line.now s session.new.text.items (F.files shelf.new) e }
    ensures memory { (s : Come) → IsSession session.old (F.files shelf.old) s → result ≡ Err Memory → IsCut Run number line.now s (F.files shelf.new) }
    ensures rose { result ≡ Err (Ended ShelfFault) → Rose (F.faults shelf.old) (F.faults shelf.new) }
    ensures calm { result ≢ Err (Ended ShelfFault) → F.faults shelf.new ≡ F.faults shelf.old }
{
    match line {
        Line::Event(event, bytes) => Ok(event_line(number, event, bytes, session)?),
        _ => any_line(alloc, number, line, session, shelf),
    }
}

/// Executes a line of the command. Where it ends the script it has no text. This project's own.
pub fn answer_line<F: Shelf>(
    alloc: Global,
    command: Command,
    number: u64,
    line: &Line,
    session: &mut Session,
    shelf: &mut F,
) -> Result<(), Unanswered>
    requires has { has command number line.now ≡ true }
    requires says { Sayable line.now }
    // The world stands for some world of the model, as that of each session does: a save asks it.
    requires stands { (w : ModelWorld) × IsWorld session.old.world w }
    ensures ok { (s : Come) → IsSession session.old (F.files shelf.old) s → OnOk result (IsNext command number line.now s session.new (F.files shelf.new)) }
    ensures ended { (s : Come) (e : EndOf) → IsSession session.old (F.files shelf.old) s → result ≡ Err (Ended e) → IsStopped command line.now s session.new.text.items (F.files shelf.new) e }
    ensures memory { (s : Come) → IsSession session.old (F.files shelf.old) s → result ≡ Err Memory → IsCut command number line.now s (F.files shelf.new) }
    ensures rose { result ≡ Err (Ended ShelfFault) → Rose (F.faults shelf.old) (F.faults shelf.new) }
    ensures calm { result ≢ Err (Ended ShelfFault) → F.faults shelf.new ≡ F.faults shelf.old }
{
    match (command, line) {
        (Command::Run, _) => run_line(alloc, number, line, session, shelf),
        (Command::Refine, Line::Space(model, space)) => {
            push_answer(&mut session.text, *model, space)?;
            Ok(())
        }
        _ => unreachable!(),
    }
}

// The line of a substream behind the last line, none where it is not declared.
fn push_end(alloc: Global, session: &mut Session, sub: SubId) -> Result<(), AllocError>
    requires { sub.0 ≤ 15 }
    ensures world { session.new.world ≡ session.old.world }
    ensures line { (w : ModelWorld) → IsWorld session.old.world w → OnOk result (session.new.text.items ≡ session.old.text.items ++ end_line_of w sub.0) }
{
    if let Some(stream) = session.world.substream(sub) {
        let line = end_text(alloc, sub, &stream.page(), session.world.moved_total(sub))?;
        session.text.extend_from_slice(&line)?;
    }
    Ok(())
}

// One for each declared substream, by rising number.
fn push_ends(alloc: Global, session: &mut Session) -> Result<(), AllocError>
    ensures { (w : ModelWorld) → IsWorld session.old.world w → OnOk result (session.new.text.items ≡ session.old.text.items ++ end_lines w) }
{
    'subs: for number in 0..SUBSTREAMS {
        push_end(alloc, session, SubId(number))?;
    }
    Ok(())
}

/// Puts the lines behind the text that follow the last line of the command: in `run` one for each declared substream.
pub fn close(alloc: Global, command: Command, session: &mut Session) -> Result<(), AllocError>
    ensures { (s : Come) → IsWorld session.old.world s.world → OnOk result (session.new.text.items ≡ session.old.text.items ++ closing command Whole s) }
{
    match command {
        Command::Run => push_ends(alloc, session),
        Command::Refine => Ok(()),
    }
}
