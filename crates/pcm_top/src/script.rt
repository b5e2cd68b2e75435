// The lines of a script, executed one after another as they are read.
ghost use Rattle.std.specs.Prelude.{◌≡◌, ◌≢◌, ◌⊎◌, ◌<◌, ◌+◌, None, Some, Ok, true, false, IfOk, IfErr, IfSome, IfNone, OnErr, IsErrOf};
ghost use Rattle.std.specs.declared.option.Option.{Option};
ghost use Rattle.std.specs.Io.KnownBytes.{IsAtEnd};
ghost use Rattle.pcm_base.specs.Causes.{Rose};
ghost use Rattle.pcm_base.specs.model.World.{World as ModelWorld};
ghost use Rattle.pcm_io.specs.Shelf.{Files};
ghost use Rattle.pcm_line.specs.Grammar.{IsLine, LineFault};
ghost use Rattle.pcm_line.specs.declared.error.LineError.TheVariants as line_error;
ghost use Rattle.pcm_top.specs.declared.end.Cut.TheVariants as cut_by;
ghost use Rattle.pcm_top.specs.CodeSession.{IsSession, HasPassed, HasEnded, HasLacked, IsRan, IsRanToFault, IsRanShort, IsNoLine};
ghost use Rattle.pcm_top.specs.Script.{has, misplaced as misplaced_of};
ghost use Rattle.pcm_top.specs.Session.{Session as Come, begin};
ghost use Rattle.pcm_world.specs.Shown.{IsWorld};

use crate::built::is_built_at;
use crate::command::Command;
use crate::end::{Cut, End, Unanswered};
use crate::session::{Session, answer_line, close};
use pcm_io::{Lines, ReadEnd, Shelf, Sink, Source, write_pieces};
use pcm_line::{Line, LineError, is_skipped, read_line};
use std::alloc::{AllocError, Global};

/// The most lines of a script.
pub const LINE_LIMIT: u64 = 1_048_576;

/// The most bytes of a script.
pub const BYTE_LIMIT: usize = 67_108_864;

// Whether the command has the line in the place of this number.
fn has_line(command: Command, number: u64, line: &Line) -> bool
    ensures { result ≡ has command number line.now }
{
    match command {
        Command::Run => is_built_at(number, line),
        Command::Refine => matches!(line, Line::Space(..)),
    }
}

// What is wrong in a line that the command does not have in the place of this number.
fn misplaced(command: Command, number: u64, line: &Line) -> LineError
    ensures { result ≡ misplaced_of command number line.now }
{
    match (command, line) {
        (Command::Run, Line::Version(_)) if number == 1 => LineError::Number(8),
        _ => LineError::Word(0),
    }
}

// The line that was read, where the command has it in the place of this number.
fn line_of<'a>(command: Command, number: u64, read: &'a Result<Line, LineError>) -> Option<&'a Line>
    ensures read { IfSome result (λ line. read.now ≡ Ok line.now) }
    ensures has { IfSome result (λ line. has command number line.now ≡ true) }
    ensures none { IfNone result (IfOk read.now (λ line. has command number line ≡ false)) }
{
    match read {
        Ok(line) if has_line(command, number, line) => Some(line),
        _ => None,
    }
}

// How the script ends at what is no line of the command in the place of this number. It is rare, and stands apart: the
// compiled code clears room for all that a function may give.
#[inline(never)]
fn no_line(
    command: Command,
    number: u64,
    bytes: &[u8],
    read: &Result<Line, LineError>,
) -> Result<End, AllocError>
    requires says { IfOk read.now (λ line. IsLine bytes.now line) }
    requires faulty { IfErr read.now (λ e. (e ≡ line_error.Memory) ⊎ LineFault bytes.now e) }
    requires misplaced { IfOk read.now (λ line. has command number line ≡ false) }
    ensures { IfOk result (λ ended. IsNoLine command number bytes.now ended) }
{
    match read {
        Ok(line) => Ok(End::BadLine(number, misplaced(command, number, line))),
        Err(LineError::Memory) => Err(AllocError),
        Err(fault) => Ok(End::BadLine(number, *fault)),
    }
}

// Executes the line of these bytes, before which there are so many, and which may hold the byte past the limit, or skips it;
// or tells how the script ends there. An error comes for want of memory alone.
fn answer_bytes<F: Shelf>(
    alloc: Global,
    command: Command,
    count: u64,
    last: bool,
    bytes: &[u8],
    session: &mut Session,
    shelf: &mut F,
) -> Result<Option<End>, AllocError>
    requires few { count < LINE_LIMIT }
    // The world stands for some world of the model, as that of each session does: a save asks it.
    requires stands { (w : ModelWorld) × IsWorld session.old.world w }
    ensures passed { (s : Come) → IsSession session.old (F.files shelf.old) s → IfOk result (λ r. IfNone r (HasPassed command last count bytes.now s session.new (F.files shelf.new))) }
    ensures ended { (s : Come) → IsSession session.old (F.files shelf.old) s → IfOk result (λ r. IfSome r (λ ended. HasEnded command last count bytes.now s session.new.text.items (F.files shelf.new) ended)) }
    ensures lacked { (s : Come) → IsSession session.old (F.files shelf.old) s → OnErr result (HasLacked command last count bytes.now s (F.files shelf.new)) }

    // A fault of the shelf is the one cause of ShelfFault.
    ensures rose { IfOk result (λ r. r ≡ Some End.ShelfFault → Rose (F.faults shelf.old) (F.faults shelf.new)) }
    ensures calm { IfOk result (λ r. r ≢ Some End.ShelfFault → F.faults shelf.new ≡ F.faults shelf.old) }
    ensures kept { OnErr result (F.faults shelf.new ≡ F.faults shelf.old) }
{
    if last {
        return Ok(Some(End::ScriptBytes));
    }
    if is_skipped(session.version, bytes) {
        return Ok(None);
    }
    let read = read_line(alloc, bytes);
    let Some(line) = line_of(command, count + 1, &read) else {
        return Ok(Some(no_line(command, count + 1, bytes, &read)?));
    };
    match answer_line(alloc, command, count + 1, line, session, shelf) {
        Ok(()) => Ok(None),
        Err(Unanswered::Ended(ended)) => Ok(Some(ended)),
        Err(Unanswered::Memory) => Err(AllocError),
    }
}

/// Executes the lines of the source's script, or of its front up to the first byte past 67,108,864, each as soon as it is
/// read, and writes the answers in whole pieces as soon as they are gathered; the rest stands in the session's text. It ends
/// at the first line that is the 1,048,577th, or holds the byte past the limit, or is none of the command, or whose file is
/// not stored. This project's own.
pub fn run_lines<S: Source, K: Sink, F: Shelf>(
    alloc: Global,
    command: Command,
    source: &mut S,
    session: &mut Session,
    out: &mut K,
    shelf: &mut F,
) -> Result<End, Cut>
    requires { (files : Option Files) → IsSession session.old files (begin files) }
    ensures ran { IfOk result (λ ended. IfSome (S.left source.old) (λ script. IsRan command script (F.files shelf.old) (F.files shelf.new) (K.written out.old) (K.written out.new) session.new.text.items ended)) }
    ensures faulted { result ≡ Err cut_by.ReadFault → IfSome (S.left source.old) (λ script. IsRanToFault command script (S.left source.new) (F.files shelf.old) (F.files shelf.new) (K.written out.old) (K.written out.new) session.new.text.items) }
    ensures cut { result ≢ Err cut_by.ReadFault → OnErr result (IfSome (S.left source.old) (λ script. IsRanShort command script (F.files shelf.old) (F.files shelf.new) (K.written out.old) (K.written out.new))) }
    ensures end { result ≡ Ok End.Whole → IsAtEnd (S.left source.new) }

    // A fault is the one cause of each of the three.
    ensures read { result ≡ Err cut_by.ReadFault → Rose (S.faults source.old) (S.faults source.new) }
    ensures calm_source { result ≢ Err cut_by.ReadFault → S.faults source.new ≡ S.faults source.old }
    ensures write { result ≡ Err cut_by.WriteFault → Rose (K.faults out.old) (K.faults out.new) }
    ensures calm_sink { result ≢ Err cut_by.WriteFault → K.faults out.new ≡ K.faults out.old }
    ensures store { result ≡ Ok End.ShelfFault → Rose (F.faults shelf.old) (F.faults shelf.new) }
    ensures calm_shelf { result ≢ Ok End.ShelfFault → F.faults shelf.new ≡ F.faults shelf.old }
{
    let mut lines = Lines::new(alloc, BYTE_LIMIT + 1);
    let mut count: u64 = 0;
    'lines: loop {
        match lines.has_more(source) {
            Ok(true) => {}
            Ok(false) => break,
            Err(_) => return Err(Cut::ReadFault),
        }
        if count == LINE_LIMIT {
            return Ok(End::ScriptLines);
        }
        match lines.next_line(source) {
            Ok(()) => {}
            Err(ReadEnd::Failed) => return Err(Cut::ReadFault),
            Err(ReadEnd::Memory) => return Err(Cut::Memory),
        }
        let last = lines.is_used_up();
        match answer_bytes(alloc, command, count, last, lines.line(), session, shelf) {
            Ok(None) => {}
            Ok(Some(ended)) => return Ok(ended),
            Err(_) => return Err(Cut::Memory),
        }
        count += 1;
        match write_pieces(out, &mut session.text) {
            Ok(()) => {}
            Err(_) => return Err(Cut::WriteFault),
        }
    }
    match close(alloc, command, session) {
        Ok(()) => Ok(End::Whole),
        Err(_) => Err(Cut::Memory),
    }
}
