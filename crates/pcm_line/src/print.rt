// Lines printed: the keyword, then a space and the spelling of each further value.
ghost use Rattle.std.specs.Prelude.{◌≡◌, ◌<◌, ◌≤◌, ◌+◌, ◌++◌, ◌∷◌, OnOk, IfOk, drop, length};
ghost use Rattle.std.specs.List.{AllByRecursion};
ghost use Rattle.pcm_line.specs.Kinds.{OfNumber, OfClient, OfSub, spelled};
ghost use Rattle.pcm_line.specs.Pieces.{joined};
ghost use Rattle.pcm_line.specs.Grammar.{IsLine};
ghost use Rattle.pcm_line.specs.Sayable.{Sayable, IsWellTyped};
ghost use Rattle.pcm_line.specs.Spelling;

use crate::area::write_before;
use crate::hex;
use crate::line::Line;
use crate::words::{access_text, call_word, dir_text, format_text, mode_text, model_text};
use itoa::{Buffer, write_digits};
use pcm_base::{Call, ClientId, Config, Event, Space, Span, SubId, SwParams};
use std::alloc::{AllocError, Global};

/// Appends a space and these bytes.
#[inline(always)]
fn push_piece(out: &mut Vec<u8>, piece: &[u8]) -> Result<(), AllocError>
    ensures { OnOk result (out.new.items ≡ out.old.items ++ 32 ∷ piece.now) }
{
    out.push(b' ')?;
    out.extend_from_slice(piece)
}

#[tactic(auto, using(std::proofs::lemmas::Fmt::decimal_digit))]
fn push_number(out: &mut Vec<u8>, number: u64) -> Result<(), AllocError>
    ensures { OnOk result (out.new.items ≡ out.old.items ++ 32 ∷ spelled OfNumber number) }
{
    if number < 10 {
        return out.extend_from_slice(&[b' ', b'0' + number as u8]);
    }
    let mut buffer = Buffer::new();
    push_piece(out, buffer.format(number).as_bytes())
}

fn push_client(out: &mut Vec<u8>, client: ClientId) -> Result<(), AllocError>
    ensures { OnOk result (out.new.items ≡ out.old.items ++ 32 ∷ spelled OfClient client) }
{
    let mut buffer = Buffer::new();
    out.extend_from_slice(b" c")?;
    out.extend_from_slice(buffer.format(client.0).as_bytes())
}

fn push_sub(out: &mut Vec<u8>, sub: SubId) -> Result<(), AllocError>
    ensures { OnOk result (out.new.items ≡ out.old.items ++ 32 ∷ spelled OfSub sub) }
{
    let mut buffer = Buffer::new();
    out.extend_from_slice(b" s")?;
    out.extend_from_slice(buffer.format(sub.0).as_bytes())
}

fn push_config(out: &mut Vec<u8>, config: Config) -> Result<(), AllocError>
    ensures { OnOk result (out.new.items ≡ joined out.old.items (Spelling.config_texts config)) }
{
    push_piece(out, access_text(config.access))?;
    push_piece(out, format_text(config.format))?;
    push_number(out, config.channels)?;
    push_number(out, config.rate)?;
    push_number(out, config.period)?;
    push_number(out, config.periods)
}

fn push_software(out: &mut Vec<u8>, software: SwParams) -> Result<(), AllocError>
    ensures { OnOk result (out.new.items ≡ joined out.old.items (Spelling.software_texts software)) }
{
    push_number(out, software.avail_min)?;
    push_number(out, software.start_threshold)?;
    push_number(out, software.stop_threshold)?;
    push_number(out, software.silence_threshold)?;
    push_number(out, software.silence_size)
}

/// Room for a space and the digits of each number of a space.
const SPACE_ROOM: usize = 252;

/// Writes a space and the number before what stands from `end` on, and gives the place where they start.
#[inline(always)]
fn write_number_before(area: &mut [u8], end: usize, number: u64) -> usize
    requires room { 21 ≤ end }
    requires inside { end ≤ length area.old }
    ensures start { end ≤ result + 21 }
    ensures written { drop result area.new ≡ 32 ∷ (spelled OfNumber number ++ drop end area.old) }
{
    let start = write_digits(number, area, end);
    write_before(area, start, b" ")
}

#[inline(always)]
fn write_span_before(area: &mut [u8], end: usize, span: Span) -> usize
    requires room { 42 ≤ end }
    requires inside { end ≤ length area.old }
    ensures start { end ≤ result + 42 }
    ensures written { drop result area.new ≡ 32 ∷ (spelled OfNumber span.least ++ 32 ∷ (spelled OfNumber span.most ++ drop end area.old)) }
{
    let start = write_number_before(area, end, span.most);
    write_number_before(area, start, span.least)
}

fn push_space(out: &mut Vec<u8>, space: &Space) -> Result<(), AllocError>
    ensures { OnOk result (out.new.items ≡ joined out.old.items (Spelling.space_texts space.now)) }
{
    let mut area = [0; SPACE_ROOM];
    let buffer = write_span_before(&mut area, SPACE_ROOM, space.buffer);
    let periods = write_span_before(&mut area, buffer, space.periods);
    let period = write_span_before(&mut area, periods, space.period);
    let rate = write_span_before(&mut area, period, space.rate);
    let channels = write_span_before(&mut area, rate, space.channels);
    let formats = write_number_before(&mut area, channels, space.formats);
    let accesses = write_number_before(&mut area, formats, space.accesses);
    out.extend_from_slice(&area[accesses..])
}

/// Appends what follows client and substream.
fn push_operands(out: &mut Vec<u8>, call: Call, bytes: &[u8]) -> Result<(), AllocError>
    ensures { OnOk result (out.new.items ≡ joined out.old.items (Spelling.call_texts call bytes.now)) }
{
    match call {
        Call::HwParams(config) => push_config(out, config),
        Call::SwParams(software) => push_software(out, software),
        Call::Drain(mode) => push_piece(out, mode_text(mode)),
        Call::Write(_, mode) => {
            push_piece(out, mode_text(mode))?;
            hex::push(out, bytes)
        }
        Call::Read(_, mode, frames) => {
            push_piece(out, mode_text(mode))?;
            push_number(out, frames)
        }
        Call::Rewind(frames) | Call::Forward(frames) | Call::MoveBy(frames) => push_number(
            out, frames,
        ),
        Call::SyncPtr(number) | Call::FailAt(number) => push_number(out, number),
        Call::Store(offset) => {
            push_number(out, offset)?;
            hex::push(out, bytes)
        }
        Call::Load(offset, frames) => {
            push_number(out, offset)?;
            push_number(out, frames)
        }
        Call::Link(second) => push_sub(out, second),
        Call::Give => hex::push(out, bytes),
        Call::OpenSub
        | Call::CloseSub
        | Call::HwFree
        | Call::Prepare
        | Call::Start
        | Call::DropNow => Ok(()),
        Call::PausePush
        | Call::PauseRelease
        | Call::Suspend
        | Call::Resume
        | Call::Xrun
        | Call::Go => Ok(()),
        Call::Hwsync | Call::Delay | Call::Status | Call::PageNow | Call::Poll => Ok(()),
        Call::Map | Call::Unmap | Call::Unlink | Call::Irq | Call::Unplug => Ok(()),
    }
}

fn push_event(out: &mut Vec<u8>, event: &Event, bytes: &[u8]) -> Result<(), AllocError>
    ensures pieces { OnOk result (out.new.items ≡ joined out.old.items (Spelling.event_texts event.now bytes.now)) }
    ensures typed { AllByRecursion (λ b. b < 256) bytes.now }
{
    if let Some(client) = event.client {
        push_client(out, client)?;
    }
    if event.call != Call::Go {
        push_sub(out, event.sub)?;
    }
    push_operands(out, event.call, bytes)
}

/// Appends what follows the keyword.
fn push_values(out: &mut Vec<u8>, line: &Line) -> Result<(), AllocError>
    ensures pieces { OnOk result (out.new.items ≡ joined out.old.items (Spelling.line_texts line.now)) }
    ensures typed { OnOk result (IsWellTyped line.now) }
{
    match line {
        Line::LongMax(number) | Line::Version(number) => push_number(out, *number),
        Line::Card(sub, model, dir) => {
            push_sub(out, *sub)?;
            push_piece(out, model_text(*model))?;
            push_piece(out, dir_text(*dir))
        }
        Line::Event(event, bytes) => push_event(out, event, bytes.as_slice()),
        Line::Feed(sub, name) | Line::Save(sub, name) => {
            push_sub(out, *sub)?;
            push_piece(out, name.as_slice())
        }
        Line::Space(model, space) => {
            push_piece(out, model_text(*model))?;
            push_space(out, space)
        }
        Line::Beat(sub, frames, count) => {
            push_sub(out, *sub)?;
            push_number(out, *frames)?;
            push_number(out, *count)
        }
        Line::Threads | Line::Join => Ok(()),
        Line::Carry(from, to) | Line::Wire(from, to) => {
            push_sub(out, *from)?;
            push_sub(out, *to)
        }
    }
}

fn line_word(line: &Line) -> &'static [u8]
    ensures { result.now ≡ Spelling.line_word line.now }
{
    match line {
        Line::LongMax(_) => b"long",
        Line::Card(_, _, _) => b"card",
        Line::Event(event, _) => call_word(event.call),
        Line::Feed(_, _) => b"feed",
        Line::Save(_, _) => b"save",
        Line::Space(_, _) => b"space",
        Line::Beat(_, _, _) => b"beat",
        Line::Threads => b"threads",
        Line::Join => b"join",
        Line::Version(_) => b"version",
        Line::Carry(_, _) => b"carry",
        Line::Wire(_, _) => b"wire",
    }
}

/// Puts the one spelling of a line at the end of the text, without a line feed, as `print_line` gives it.
pub fn push_line(text: &mut Vec<u8>, line: &Line) -> Result<(), AllocError>
    ensures text { OnOk result (text.new.items ≡ text.old.items ++ Spelling.spelling line.now) }
    ensures line { OnOk result (Sayable line.now → IsLine (Spelling.spelling line.now) line.now) }
{
    text.extend_from_slice(line_word(line))?;
    push_values(text, line)
}

/// Most lines fit: room for words and numbers, and for two digits of each byte.
fn room(line: &Line) -> usize {
    match line {
        Line::Event(_, bytes) => bytes.as_slice().len().saturating_mul(2).saturating_add(64),
        _ => 64,
    }
}

/// The one spelling of a line, without a line feed. A line that cannot be said, as one with a client above c15 or with
/// bytes beside a Prepare, is printed alike: what is read of that is a fault or another line.
pub fn print_line(alloc: Global, line: &Line) -> Result<Vec<u8>, AllocError>
    ensures { IfOk result (λ bytes. Sayable line.now → IsLine bytes.items line.now) }
{
    let mut out = Vec::with_capacity(alloc, room(line))?;
    push_line(&mut out, line)?;
    Ok(out)
}
