// All that the program does.
ghost use Rattle.std.specs.Prelude.{◌≡◌, ◌≢◌, ◌↔◌, ◌⊎◌, ℕ, List, map, true, false, None, IfOk, OnErr, IsErrOf, IfSome, string_bytes};
ghost use Rattle.std.specs.Io.KnownBytes.{IsAtEnd};
ghost use Rattle.pcm_base.specs.Causes.{Rose};
ghost use Rattle.pcm_base.specs.declared.state.Dir.TheVariants.{Capture, Playback};
ghost use Rattle.pcm_group.specs.Inside.{members_in};
ghost use Rattle.play_record.specs.Devices.{HasMoved, IsDevice, taken_by};
ghost use Rattle.pcm_top.specs.declared.end.Cut.TheVariants as cut_by;
ghost use Rattle.pcm_top.specs.declared.request.Request.{Request as RequestOf};
ghost use Rattle.pcm_top.specs.declared.request.Request.TheVariants as request;
ghost use Rattle.pcm_top.specs.Gen.{GenEnds};
ghost use Rattle.pcm_top.specs.Output.{status_of as ends_with, was_cut, is_given, IsOutput, IsFrontRun, IsUpToFault};
ghost use Rattle.pcm_top.specs.Request.{Asks, asked};
ghost use Rattle.pcm_top.specs.Script.{IsScript};
ghost use Rattle.pcm_top.specs.Sound.{IsReady, IsTaken, JobEnds, capturing, playing};

use crate::command::Command;
use crate::end::{Cut, End};
use crate::generated::run_generated;
use crate::request::{Request, request_of};
use crate::script::{BYTE_LIMIT, LINE_LIMIT, run_lines};
use crate::session::Session;
use crate::sound::{capture_file, play_file};
use pcm_io::{LOAD_LIMIT, Shelf, Sink, Source, write_rest};
use pcm_text::{Status, Which};
use play_record::Deck;
use std::alloc::Global;

/// The status of a script that ends so, or of a command whose file is loaded so. This project's own.
pub fn status_of(ended: End) -> Status
    ensures { result ≡ ends_with ended }
{
    match ended {
        End::Whole => Status::Ok,
        End::BadLine(line, fault) => Status::BadLine(line, fault),
        End::ScriptLines => Status::Limit(Which::ScriptLines, LINE_LIMIT + 1),
        End::ScriptBytes => Status::Limit(Which::ScriptBytes, BYTE_LIMIT as u64 + 1),
        End::ShelfFault => Status::ShelfFault,
        End::Missing(name) => Status::Missing(name),
        End::WavBytes => Status::Limit(Which::WavBytes, LOAD_LIMIT as u64),
        End::BadWav(name, fault) => Status::BadWav(name, fault),
    }
}

// Runs the source's script, and writes what is then gathered.
fn run_source<S: Source, K: Sink, F: Shelf>(
    alloc: Global,
    command: Command,
    source: &mut S,
    out: &mut K,
    shelf: &mut F,
) -> Result<End, Cut>
    ensures ran { IfOk result (λ ended. IfSome (S.left source.old) (λ script. IsOutput command script (F.files shelf.old) (F.files shelf.new) (K.written out.old) (K.written out.new) (ends_with ended))) }
    ensures front { IfSome (S.left source.old) (λ script. IsFrontRun command script (F.files shelf.old) (F.files shelf.new) (F.faults shelf.old) (F.faults shelf.new) (K.written out.old) (K.written out.new)) }
    ensures faulted { result ≡ Err cut_by.ReadFault → IfSome (S.left source.old) (λ script. IsUpToFault command script (S.left source.new) (F.files shelf.old) (F.files shelf.new) (K.written out.old) (K.written out.new)) }
    ensures end { result ≡ Ok End.Whole → IsAtEnd (S.left source.new) }
    ensures read { result ≡ Err cut_by.ReadFault → Rose (S.faults source.old) (S.faults source.new) }
    ensures calm_source { result ≢ Err cut_by.ReadFault → result ≢ Err cut_by.WriteFault → S.faults source.new ≡ S.faults source.old }
    ensures write { result ≡ Err cut_by.WriteFault → Rose (K.faults out.old) (K.faults out.new) }
    ensures calm_sink { result ≢ Err cut_by.WriteFault → K.faults out.new ≡ K.faults out.old }
    ensures store { result ≡ Ok End.ShelfFault → Rose (F.faults shelf.old) (F.faults shelf.new) }
    ensures calm_shelf { result ≢ Ok End.ShelfFault → result ≢ Err cut_by.WriteFault → F.faults shelf.new ≡ F.faults shelf.old }
{
    let mut session = Session::new(alloc);
    match run_lines(alloc, command, source, &mut session, out, shelf) {
        Ok(ended) => match write_rest(out, &mut session.text) {
            Ok(()) => Ok(ended),
            Err(_) => Err(Cut::WriteFault),
        },
        Err(Cut::ReadFault) => match write_rest(out, &mut session.text) {
            Ok(()) => Err(Cut::ReadFault),
            Err(_) => Err(Cut::WriteFault),
        },
        Err(Cut::WriteFault) => Err(Cut::WriteFault),
        Err(Cut::Memory) => Err(Cut::Memory),
    }
}

// Runs the source's script, and names what cut it short.
fn run_script<S: Source, K: Sink, F: Shelf>(
    alloc: Global,
    command: Command,
    source: &mut S,
    out: &mut K,
    shelf: &mut F,
) -> Status
    ensures output { was_cut result ≡ false → IfSome (S.left source.old) (λ script. IsOutput command script (F.files shelf.old) (F.files shelf.new) (K.written out.old) (K.written out.new) result) }
    ensures front { IfSome (S.left source.old) (λ script. IsFrontRun command script (F.files shelf.old) (F.files shelf.new) (F.faults shelf.old) (F.faults shelf.new) (K.written out.old) (K.written out.new)) }
    ensures faulted { result ≡ Status.ReadFault → IfSome (S.left source.old) (λ script. IsUpToFault command script (S.left source.new) (F.files shelf.old) (F.files shelf.new) (K.written out.old) (K.written out.new)) }
    ensures statuses { is_given result ≡ true }
    ensures not_usage { result ≢ Status.Usage }
    ensures ended { result ≡ Status.Ok → IsAtEnd (S.left source.new) }
    ensures complete { IfSome (S.left source.old) (λ script. IsScript command script (F.files shelf.old)
        → (¬ Rose (S.faults source.old) (S.faults source.new)) → (¬ Rose (K.faults out.old) (K.faults out.new)) → (¬ Rose (F.faults shelf.old) (F.faults shelf.new))
        → (result ≡ Status.Ok) ⊎ (result ≡ Status.Memory)) }
    ensures read { result ≡ Status.ReadFault → Rose (S.faults source.old) (S.faults source.new) }
    ensures calm_source { result ≢ Status.ReadFault → result ≢ Status.WriteFault → S.faults source.new ≡ S.faults source.old }
    ensures write { result ≡ Status.WriteFault → Rose (K.faults out.old) (K.faults out.new) }
    ensures calm_sink { result ≢ Status.WriteFault → K.faults out.new ≡ K.faults out.old }
    ensures store { result ≡ Status.ShelfFault → Rose (F.faults shelf.old) (F.faults shelf.new) }
    ensures calm_shelf { result ≢ Status.ShelfFault → result ≢ Status.WriteFault → F.faults shelf.new ≡ F.faults shelf.old }
{
    match run_source(alloc, command, source, out, shelf) {
        Ok(ended) => status_of(ended),
        Err(Cut::ReadFault) => Status::ReadFault,
        Err(Cut::WriteFault) => Status::WriteFault,
        Err(Cut::Memory) => Status::Memory,
    }
}

/// Runs the command of these words over the source, the shelf and the deck, writes to the sink and stores on the shelf.
///
/// `run` executes the source's script line by line and writes its transcript, and after the last line one for each declared
/// substream. `refine` answers each space line of the script: with the space line of the least box that holds every
/// configuration which its card's model leaves, or with `err EINVAL 22` where none is left. A script is read in pieces of at
/// most 4,096 bytes, of which one line is held at a time, and the text is written in pieces of 4,096 bytes, each as soon as
/// it is gathered. What is gathered beyond the last whole piece is written at the end, before a `ReadFault` too, but not after
/// a failed write or for want of memory.
///
/// `play IN OUT PERIOD PERIODS` plays the shelf's WAV file IN on the deck's player and stores what its card took, the frames
/// and silence up to a whole period, as OUT. `capture IN OUT N` records N frames on the deck's recorder, whose card is given
/// those of IN, and stores them as OUT, zero frames past the end of IN. Both write one line. What can go wrong is looked for
/// in this order: the file cannot be loaded, is missing, too long or no WAV file; the card's model has no such configuration;
/// the frames have more than 64 MiB; there is no memory; the store fails; the line cannot be written. `gen N` runs the
/// generated script of that number, at most 1000, and writes what its lines came to.
///
/// Any other words are `Usage`, and then nothing is read, written or stored. `ReadFault`, `WriteFault` and `ShelfFault` come
/// only where the count of faults of the source, the sink or the shelf rose. This project's own.
pub fn pcm_main<S: Source, K: Sink, F: Shelf>(
    alloc: Global,
    words: &[String],
    source: &mut S,
    out: &mut K,
    shelf: &mut F,
    deck: &mut Deck,
) -> Status
    requires player { IsDevice Playback (members_in deck.old.player) }
    requires recorder { IsDevice Capture (members_in deck.old.recorder) }
    ensures usage { (result ≡ Status.Usage) ↔ ((r : RequestOf) → ¬ Asks (map string_bytes words.now) r) }
    ensures untouched { result ≡ Status.Usage → (source.new ≡ source.old) × (out.new ≡ out.old) × (shelf.new ≡ shelf.old) }

    // What `run` and `refine` write and store, and the status.
    ensures output { was_cut result ≡ false → IfSome (asked (map string_bytes words.now)) (λ command. IfSome (S.left source.old)
        (λ script. IsOutput command script (F.files shelf.old) (F.files shelf.new) (K.written out.old) (K.written out.new) result)) }
    ensures front { IfSome (asked (map string_bytes words.now)) (λ command. IfSome (S.left source.old)
        (λ script. IsFrontRun command script (F.files shelf.old) (F.files shelf.new) (F.faults shelf.old) (F.faults shelf.new) (K.written out.old) (K.written out.new))) }
    ensures faulted { result ≡ Status.ReadFault → IfSome (asked (map string_bytes words.now)) (λ command. IfSome (S.left source.old)
        (λ script. IsUpToFault command script (S.left source.new) (F.files shelf.old) (F.files shelf.new) (K.written out.old) (K.written out.new))) }
    ensures statuses { IfSome (asked (map string_bytes words.now)) (λ _. is_given result ≡ true) }
    ensures ended { IfSome (asked (map string_bytes words.now)) (λ _. result ≡ Status.Ok → IsAtEnd (S.left source.new)) }

    // A script whose lines are all of the command, or skipped, which keeps the limits and loads WAV files alone, ends well
    // where nothing fails.
    ensures complete { IfSome (asked (map string_bytes words.now)) (λ command. IfSome (S.left source.old) (λ script. IsScript command script (F.files shelf.old)
        → (¬ Rose (S.faults source.old) (S.faults source.new)) → (¬ Rose (K.faults out.old) (K.faults out.new)) → (¬ Rose (F.faults shelf.old) (F.faults shelf.new))
        → (result ≡ Status.Ok) ⊎ (result ≡ Status.Memory))) }

    // What `play` and `capture` write and store, and the status; and what the deck's cards have then taken and moved.
    ensures played { (from to : List ℕ) (period periods : ℕ) → Asks (map string_bytes words.now) (request.Play from to period periods)
        → JobEnds (playing period periods) from to (F.files shelf.old) (F.files shelf.new) (K.written out.old) (K.written out.new) result }
    ensures taken { (from to : List ℕ) (period periods : ℕ) → Asks (map string_bytes words.now) (request.Play from to period periods) → result ≡ Status.Ok
        → IsTaken (playing period periods) from to (F.files shelf.old) (F.files shelf.new) (taken_by (members_in deck.new.player)) }
    ensures captured { (from to : List ℕ) (frames : ℕ) → Asks (map string_bytes words.now) (request.Capture from to frames)
        → JobEnds (capturing frames) from to (F.files shelf.old) (F.files shelf.new) (K.written out.old) (K.written out.new) result }
    ensures moved { (from to : List ℕ) (frames : ℕ) → Asks (map string_bytes words.now) (request.Capture from to frames) → result ≡ Status.Ok
        → HasMoved frames (members_in deck.new.recorder) }
    ensures ready_to_play { (from to : List ℕ) (period periods : ℕ) → Asks (map string_bytes words.now) (request.Play from to period periods)
        → IsReady (playing period periods) (F.files shelf.old) from → (¬ Rose (K.faults out.old) (K.faults out.new)) → (¬ Rose (F.faults shelf.old) (F.faults shelf.new))
        → (result ≡ Status.Ok) ⊎ (result ≡ Status.Memory) }
    ensures ready_to_capture { (from to : List ℕ) (frames : ℕ) → Asks (map string_bytes words.now) (request.Capture from to frames)
        → IsReady (capturing frames) (F.files shelf.old) from → (¬ Rose (K.faults out.old) (K.faults out.new)) → (¬ Rose (F.faults shelf.old) (F.faults shelf.new))
        → (result ≡ Status.Ok) ⊎ (result ≡ Status.Memory) }

    // What `gen` writes, and the status.
    ensures generated { (n : ℕ) → Asks (map string_bytes words.now) (request.Gen n) → GenEnds n (K.written out.old) (K.written out.new) result }
    ensures unstored { (n : ℕ) → Asks (map string_bytes words.now) (request.Gen n) → shelf.new ≡ shelf.old }

    // What no other command reads or changes.
    ensures unread { asked (map string_bytes words.now) ≡ None → source.new ≡ source.old }
    ensures player { ((from to : List ℕ) (period periods : ℕ) → ¬ Asks (map string_bytes words.now) (request.Play from to period periods)) → deck.new.player ≡ deck.old.player }
    ensures recorder { ((from to : List ℕ) (frames : ℕ) → ¬ Asks (map string_bytes words.now) (request.Capture from to frames)) → deck.new.recorder ≡ deck.old.recorder }

    // The causes: a fault of the source, of the sink or of the shelf, named by the status. A failed write is named before a
    // failed read or store.
    ensures read { result ≡ Status.ReadFault → Rose (S.faults source.old) (S.faults source.new) }
    ensures calm_source { result ≢ Status.ReadFault → result ≢ Status.WriteFault → S.faults source.new ≡ S.faults source.old }
    ensures write { result ≡ Status.WriteFault → Rose (K.faults out.old) (K.faults out.new) }
    ensures calm_sink { result ≢ Status.WriteFault → K.faults out.new ≡ K.faults out.old }
    ensures store { result ≡ Status.ShelfFault → Rose (F.faults shelf.old) (F.faults shelf.new) }
    ensures calm_shelf { result ≢ Status.ShelfFault → result ≢ Status.WriteFault → F.faults shelf.new ≡ F.faults shelf.old }
{
    match request_of(words) {
        None => Status::Usage,
        Some(Request::Script(command)) => run_script(alloc, command, source, out, shelf),
        Some(Request::Play(from, to, period, periods)) => {
            play_file(
                alloc,
                &from,
                &to,
                period,
                periods,
                out,
                shelf,
                &mut deck.player,
            )
        }
        Some(Request::Capture(from, to, frames)) => {
            capture_file(alloc, &from, &to, frames, out, shelf, &mut deck.recorder)
        }
        Some(Request::Gen(number)) => run_generated(alloc, number, out),
    }
}
