// The forms of lines, one function for each list of kinds.
ghost use Rattle.std.specs.Prelude.{◌≡◌, ◌⊎◌, IfOk, IfErr, ◌∷◌, []};
ghost use Rattle.pcm_base.specs.declared.call.Call.TheVariants.{Rewind, Forward, SyncPtr};
ghost use Rattle.pcm_line.specs.Forms;
ghost use Rattle.pcm_line.specs.declared.line.Line.{Line};
ghost use Rattle.pcm_line.specs.declared.error.LineError.{LineError};
ghost use Rattle.pcm_line.specs.declared.error.LineError.TheVariants.{Memory};
ghost use Rattle.pcm_line.specs.Grammar.{IsLine, LineFault};
ghost use Rattle.pcm_line.specs.Pieces.{place_at};
ghost use Rattle.pcm_line.specs.Kinds.{OfClient, OfSub, OfNumber};
ghost use Rattle.pcm_line.specs.Forms.{plain_form, counted_form, write_form, read_form, store_form, load_form, drain_form, link_form, go_form, hw_form, sw_form, move_form, irq_form, unplug_form, fail_form, give_form, long_form, card_form, feed_form, save_form, space_form, beat_form, threads_form, join_form, version_form, carry_form, wire_form};
ghost use Rattle.pcm_line.specs.Reading.{Reads, Gives, read_after, read_values, read_bytes};

use crate::error::LineError;
use crate::keyword::{Keyword, keyword_of};
use crate::line::Line;
use crate::pieces::{Pieces, piece_len};
use pcm_base::{Bytes, Call, ClientId, Config, Event, Layout, Space, Span, SubId, SwParams};
use std::alloc::Global;

fn of_client(client: ClientId, sub: SubId, call: Call, bytes: Bytes) -> Line
    ensures { result ≡ Forms.of_client client sub call bytes }
{
    Line::Event(
        Event {
            client: Some(client),
            sub,
            call,
        },
        bytes,
    )
}

fn of_card(sub: SubId, call: Call, bytes: Bytes) -> Line
    ensures { result ≡ Forms.of_card sub call bytes }
{
    Line::Event(
        Event {
            client: None,
            sub,
            call,
        },
        bytes,
    )
}

fn no_bytes(alloc: Global) -> Bytes
    ensures { result ≡ [] }
{
    Bytes::of(Vec::new(alloc))
}

fn long(pieces: &mut Pieces) -> Result<Line, LineError>
    ensures { Reads long_form pieces.old.at pieces.old.rest.now result }
{
    let number = pieces.number()?;
    pieces.end()?;
    Ok(Line::LongMax(number))
}

fn card(pieces: &mut Pieces) -> Result<Line, LineError>
    ensures { Reads card_form pieces.old.at pieces.old.rest.now result }
{
    let sub = pieces.sub()?;
    let model = pieces.model()?;
    let dir = pieces.dir()?;
    pieces.end()?;
    Ok(Line::Card(sub, model, dir))
}

/// A call without further pieces.
fn plain(alloc: Global, pieces: &mut Pieces, call: Call) -> Result<Line, LineError>
    ensures { Reads (plain_form call) pieces.old.at pieces.old.rest.now result }
{
    let client = pieces.client()?;
    let sub = pieces.sub()?;
    pieces.end()?;
    Ok(of_client(client, sub, call, no_bytes(alloc)))
}

/// The values of a call with a number.
fn counted(pieces: &mut Pieces) -> Result<(ClientId, SubId, u64), LineError>
    ensures { Gives (λ x. (x.0, (x.1, (x.2, tt)))) result (read_values (OfClient ∷ OfSub ∷ OfNumber ∷ []) (place_at pieces.old.at pieces.old.rest.now)) }
{
    let client = pieces.client()?;
    let sub = pieces.sub()?;
    let number = pieces.number()?;
    pieces.end()?;
    Ok((client, sub, number))
}

fn rewind(alloc: Global, pieces: &mut Pieces) -> Result<Line, LineError>
    ensures { Reads (counted_form (λ n. Rewind n)) pieces.old.at pieces.old.rest.now result }
{
    let (client, sub, number) = counted(pieces)?;
    Ok(of_client(client, sub, Call::Rewind(number), no_bytes(alloc)))
}

fn forward(alloc: Global, pieces: &mut Pieces) -> Result<Line, LineError>
    ensures { Reads (counted_form (λ n. Forward n)) pieces.old.at pieces.old.rest.now result }
{
    let (client, sub, number) = counted(pieces)?;
    Ok(of_client(client, sub, Call::Forward(number), no_bytes(alloc)))
}

fn sync(alloc: Global, pieces: &mut Pieces) -> Result<Line, LineError>
    ensures { Reads (counted_form (λ n. SyncPtr n)) pieces.old.at pieces.old.rest.now result }
{
    let (client, sub, number) = counted(pieces)?;
    Ok(of_client(client, sub, Call::SyncPtr(number), no_bytes(alloc)))
}

fn load(alloc: Global, pieces: &mut Pieces) -> Result<Line, LineError>
    ensures { Reads load_form pieces.old.at pieces.old.rest.now result }
{
    let client = pieces.client()?;
    let sub = pieces.sub()?;
    let offset = pieces.number()?;
    let frames = pieces.number()?;
    pieces.end()?;
    Ok(of_client(client, sub, Call::Load(offset, frames), no_bytes(alloc)))
}

fn store(alloc: Global, pieces: &mut Pieces) -> Result<Line, LineError>
    ensures { Reads store_form pieces.old.at pieces.old.rest.now result }
{
    let client = pieces.client()?;
    let sub = pieces.sub()?;
    let offset = pieces.number()?;
    let bytes = pieces.hex(alloc)?;
    pieces.end()?;
    Ok(of_client(client, sub, Call::Store(offset), bytes))
}

fn irq(alloc: Global, pieces: &mut Pieces) -> Result<Line, LineError>
    ensures { Reads irq_form pieces.old.at pieces.old.rest.now result }
{
    let sub = pieces.sub()?;
    pieces.end()?;
    Ok(of_card(sub, Call::Irq, no_bytes(alloc)))
}

fn unplug(alloc: Global, pieces: &mut Pieces) -> Result<Line, LineError>
    ensures { Reads unplug_form pieces.old.at pieces.old.rest.now result }
{
    let sub = pieces.sub()?;
    pieces.end()?;
    Ok(of_card(sub, Call::Unplug, no_bytes(alloc)))
}

fn fail(alloc: Global, pieces: &mut Pieces) -> Result<Line, LineError>
    ensures { Reads fail_form pieces.old.at pieces.old.rest.now result }
{
    let sub = pieces.sub()?;
    let number = pieces.number()?;
    pieces.end()?;
    Ok(of_card(sub, Call::FailAt(number), no_bytes(alloc)))
}

fn feed(pieces: &mut Pieces) -> Result<Line, LineError>
    ensures { Reads feed_form pieces.old.at pieces.old.rest.now result }
{
    let sub = pieces.sub()?;
    let name = pieces.name()?;
    pieces.end()?;
    Ok(Line::Feed(sub, name))
}

fn join(pieces: &mut Pieces) -> Result<Line, LineError>
    ensures { Reads join_form pieces.old.at pieces.old.rest.now result }
{
    pieces.end()?;
    Ok(Line::Join)
}

fn hw(alloc: Global, pieces: &mut Pieces) -> Result<Line, LineError>
    ensures { Reads hw_form pieces.old.at pieces.old.rest.now result }
{
    let client = pieces.client()?;
    let sub = pieces.sub()?;
    let config = Config {
        access: pieces.access()?,
        format: pieces.format()?,
        channels: pieces.number()?,
        rate: pieces.number()?,
        period: pieces.number()?,
        periods: pieces.number()?,
    };
    pieces.end()?;
    Ok(of_client(client, sub, Call::HwParams(config), no_bytes(alloc)))
}

fn sw(alloc: Global, pieces: &mut Pieces) -> Result<Line, LineError>
    ensures { Reads sw_form pieces.old.at pieces.old.rest.now result }
{
    let client = pieces.client()?;
    let sub = pieces.sub()?;
    let sw = SwParams {
        avail_min: pieces.number()?,
        start_threshold: pieces.number()?,
        stop_threshold: pieces.number()?,
        silence_threshold: pieces.number()?,
        silence_size: pieces.number()?,
    };
    pieces.end()?;
    Ok(of_client(client, sub, Call::SwParams(sw), no_bytes(alloc)))
}

fn drain(alloc: Global, pieces: &mut Pieces) -> Result<Line, LineError>
    ensures { Reads drain_form pieces.old.at pieces.old.rest.now result }
{
    let client = pieces.client()?;
    let sub = pieces.sub()?;
    let mode = pieces.mode()?;
    pieces.end()?;
    Ok(of_client(client, sub, Call::Drain(mode), no_bytes(alloc)))
}

fn write(alloc: Global, pieces: &mut Pieces, layout: Layout) -> Result<Line, LineError>
    ensures { Reads (write_form layout) pieces.old.at pieces.old.rest.now result }
{
    let client = pieces.client()?;
    let sub = pieces.sub()?;
    let mode = pieces.mode()?;
    let bytes = pieces.hex(alloc)?;
    pieces.end()?;
    Ok(of_client(client, sub, Call::Write(layout, mode), bytes))
}

fn read(alloc: Global, pieces: &mut Pieces, layout: Layout) -> Result<Line, LineError>
    ensures { Reads (read_form layout) pieces.old.at pieces.old.rest.now result }
{
    let client = pieces.client()?;
    let sub = pieces.sub()?;
    let mode = pieces.mode()?;
    let number = pieces.number()?;
    pieces.end()?;
    Ok(of_client(
        client,
        sub,
        Call::Read(layout, mode, number),
        no_bytes(alloc),
    ))
}

fn link(alloc: Global, pieces: &mut Pieces) -> Result<Line, LineError>
    ensures { Reads link_form pieces.old.at pieces.old.rest.now result }
{
    let client = pieces.client()?;
    let sub = pieces.sub()?;
    let other = pieces.sub()?;
    pieces.end()?;
    Ok(of_client(client, sub, Call::Link(other), no_bytes(alloc)))
}

fn go(alloc: Global, pieces: &mut Pieces) -> Result<Line, LineError>
    ensures { Reads go_form pieces.old.at pieces.old.rest.now result }
{
    let client = pieces.client()?;
    pieces.end()?;
    Ok(of_client(client, SubId(0), Call::Go, no_bytes(alloc)))
}

fn move_by(alloc: Global, pieces: &mut Pieces) -> Result<Line, LineError>
    ensures { Reads move_form pieces.old.at pieces.old.rest.now result }
{
    let sub = pieces.sub()?;
    let number = pieces.number()?;
    pieces.end()?;
    Ok(of_card(sub, Call::MoveBy(number), no_bytes(alloc)))
}

fn give(alloc: Global, pieces: &mut Pieces) -> Result<Line, LineError>
    ensures { Reads give_form pieces.old.at pieces.old.rest.now result }
{
    let sub = pieces.sub()?;
    let bytes = pieces.hex(alloc)?;
    pieces.end()?;
    Ok(of_card(sub, Call::Give, bytes))
}

fn save(pieces: &mut Pieces) -> Result<Line, LineError>
    ensures { Reads save_form pieces.old.at pieces.old.rest.now result }
{
    let sub = pieces.sub()?;
    let name = pieces.name()?;
    pieces.end()?;
    Ok(Line::Save(sub, name))
}

fn space(pieces: &mut Pieces) -> Result<Line, LineError>
    ensures { Reads space_form pieces.old.at pieces.old.rest.now result }
{
    let model = pieces.model()?;
    let space = Space {
        accesses: pieces.number()?,
        formats: pieces.number()?,
        channels: Span {
            least: pieces.number()?,
            most: pieces.number()?,
        },
        rate: Span {
            least: pieces.number()?,
            most: pieces.number()?,
        },
        period: Span {
            least: pieces.number()?,
            most: pieces.number()?,
        },
        periods: Span {
            least: pieces.number()?,
            most: pieces.number()?,
        },
        buffer: Span {
            least: pieces.number()?,
            most: pieces.number()?,
        },
    };
    pieces.end()?;
    Ok(Line::Space(model, space))
}

fn beat(pieces: &mut Pieces) -> Result<Line, LineError>
    ensures { Reads beat_form pieces.old.at pieces.old.rest.now result }
{
    let sub = pieces.sub()?;
    let frames = pieces.number()?;
    let count = pieces.number()?;
    pieces.end()?;
    Ok(Line::Beat(sub, frames, count))
}

fn threads(pieces: &mut Pieces) -> Result<Line, LineError>
    ensures { Reads threads_form pieces.old.at pieces.old.rest.now result }
{
    pieces.end()?;
    Ok(Line::Threads)
}

fn version(pieces: &mut Pieces) -> Result<Line, LineError>
    ensures { Reads version_form pieces.old.at pieces.old.rest.now result }
{
    let number = pieces.number()?;
    pieces.end()?;
    Ok(Line::Version(number))
}

fn carry(pieces: &mut Pieces) -> Result<Line, LineError>
    ensures { Reads carry_form pieces.old.at pieces.old.rest.now result }
{
    let from = pieces.sub()?;
    let to = pieces.sub()?;
    pieces.end()?;
    Ok(Line::Carry(from, to))
}

fn wire(pieces: &mut Pieces) -> Result<Line, LineError>
    ensures { Reads wire_form pieces.old.at pieces.old.rest.now result }
{
    let from = pieces.sub()?;
    let to = pieces.sub()?;
    pieces.end()?;
    Ok(Line::Wire(from, to))
}

/// The line of this keyword's form, whichever it is.
#[inline(never)]
fn any_line_after(alloc: Global, keyword: Keyword, pieces: &mut Pieces) -> Result<Line, LineError>
    ensures { Gives (λ line. line) result (read_after keyword (place_at pieces.old.at pieces.old.rest.now)) }
{
    match keyword {
        Keyword::Writei => write(alloc, pieces, Layout::Interleaved),
        Keyword::Move => move_by(alloc, pieces),
        Keyword::Irq => irq(alloc, pieces),
        Keyword::Status => plain(alloc, pieces, Call::Status),
        Keyword::Readi => read(alloc, pieces, Layout::Interleaved),
        Keyword::Writen => write(alloc, pieces, Layout::Planar),
        Keyword::Readn => read(alloc, pieces, Layout::Planar),
        Keyword::Store => store(alloc, pieces),
        Keyword::Load => load(alloc, pieces),
        Keyword::Rewind => rewind(alloc, pieces),
        Keyword::Forward => forward(alloc, pieces),
        Keyword::Sync => sync(alloc, pieces),
        Keyword::Hwsync => plain(alloc, pieces, Call::Hwsync),
        Keyword::Delay => plain(alloc, pieces, Call::Delay),
        Keyword::Page => plain(alloc, pieces, Call::PageNow),
        Keyword::Poll => plain(alloc, pieces, Call::Poll),
        Keyword::Prepare => plain(alloc, pieces, Call::Prepare),
        Keyword::Start => plain(alloc, pieces, Call::Start),
        Keyword::Drop => plain(alloc, pieces, Call::DropNow),
        Keyword::Drain => drain(alloc, pieces),
        Keyword::Xrun => plain(alloc, pieces, Call::Xrun),
        Keyword::Pause => plain(alloc, pieces, Call::PausePush),
        Keyword::Release => plain(alloc, pieces, Call::PauseRelease),
        Keyword::Suspend => plain(alloc, pieces, Call::Suspend),
        Keyword::Resume => plain(alloc, pieces, Call::Resume),
        Keyword::Go => go(alloc, pieces),
        Keyword::Link => link(alloc, pieces),
        Keyword::Unlink => plain(alloc, pieces, Call::Unlink),
        Keyword::Mmap => plain(alloc, pieces, Call::Map),
        Keyword::Munmap => plain(alloc, pieces, Call::Unmap),
        Keyword::Open => plain(alloc, pieces, Call::OpenSub),
        Keyword::Close => plain(alloc, pieces, Call::CloseSub),
        Keyword::Hw => hw(alloc, pieces),
        Keyword::Hwfree => plain(alloc, pieces, Call::HwFree),
        Keyword::Sw => sw(alloc, pieces),
        Keyword::Long => long(pieces),
        Keyword::Card => card(pieces),
        Keyword::Fail => fail(alloc, pieces),
        Keyword::Unplug => unplug(alloc, pieces),
        Keyword::Give => give(alloc, pieces),
        Keyword::Feed => feed(pieces),
        Keyword::Save => save(pieces),
        Keyword::Space => space(pieces),
        Keyword::Beat => beat(pieces),
        Keyword::Threads => threads(pieces),
        Keyword::Join => join(pieces),
        Keyword::Version => version(pieces),
        Keyword::Carry => carry(pieces),
        Keyword::Wire => wire(pieces),
    }
}

/// The line of this keyword's form. The frequent ones stand apart: the compiled code clears room for every call that a
/// function names, whichever line comes.
fn line_after(alloc: Global, keyword: Keyword, pieces: &mut Pieces) -> Result<Line, LineError>
    ensures { Gives (λ line. line) result (read_after keyword (place_at pieces.old.at pieces.old.rest.now)) }
{
    match keyword {
        Keyword::Writei => write(alloc, pieces, Layout::Interleaved),
        Keyword::Move => move_by(alloc, pieces),
        Keyword::Irq => irq(alloc, pieces),
        Keyword::Page => plain(alloc, pieces, Call::PageNow),
        Keyword::Space => space(pieces),
        _ => any_line_after(alloc, keyword, pieces),
    }
}

/// The line that these bytes are, without their line feed; else their leftmost fault. It takes memory for the bytes of a
/// Write, a Store or a Give alone.
pub fn read_line(alloc: Global, bytes: &[u8]) -> Result<Line, LineError>
    // What is read is a line.
    ensures line { IfOk result (λ line. IsLine bytes.now line) }
    // What is refused has that fault, unless memory ran out.
    ensures fault { IfErr result (λ e. (e ≡ Memory) ⊎ LineFault bytes.now e) }
    // A line is read, unless memory runs out.
    ensures only { (line : Line) → IsLine bytes.now line → (result ≡ Err Memory) ⊎ (result ≡ Ok line) }
    // A fault is found, unless memory runs out.
    ensures exact { (e : LineError) → LineFault bytes.now e → (result ≡ Err Memory) ⊎ (result ≡ Err e) }
{
    let (first, rest) = bytes.split_at(piece_len(bytes));
    let Some(keyword) = keyword_of(first) else {
        return Err(LineError::Word(0));
    };
    let mut pieces = Pieces {
        at: first.len() + 1,
        rest,
    };
    line_after(alloc, keyword, &mut pieces)
}
