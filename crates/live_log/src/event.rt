// Events, each with what its step moved and was answered.
ghost use Rattle.std.specs.Prelude.{◌≡◌, ◌++◌, OnOk, option_copied};
ghost use Rattle.pcm_line.specs.declared.line.Line.TheVariants as line_of;
ghost use Rattle.pcm_line.specs.Spelling.{spelling};
ghost use Rattle.pcm_text.specs.Told.{answer_text};
ghost use Rattle.live_log.specs.Event.{answer_shown, event_text, shows_bytes};

use pcm_base::{Bytes, Call, Dir, Event, Reply};
use pcm_line::{Line, push_line};
use pcm_text::{push_hex, push_reply, push_text};
use std::alloc::AllocError;

/// Puts the line of the event at the end of the text, as a script has it with these bytes. They are not copied on the way: a
/// line without bytes ends with `-`, in whose place theirs come.
pub(crate) fn push_script_line(
    text: &mut Vec<u8>,
    event: &Event,
    bytes: &[u8],
) -> Result<(), AllocError>
    ensures { OnOk result (text.new.items ≡ text.old.items ++ spelling (line_of.Event event.now bytes.now)) }
{
    let none = Bytes::of(Vec::new(*text.allocator()));
    push_line(text, &Line::Event(*event, none))?;
    match event.call {
        Call::Write(..) | Call::Store(_) | Call::Give => {
            text.truncate(text.len() - 1);
            push_hex(text, bytes)
        }
        _ => Ok(()),
    }
}

/// Puts the event at the end of the text. Behind its line stands what a Go moved, and what a Read has read that falls asleep.
pub(crate) fn push_event(
    text: &mut Vec<u8>,
    event: &Event,
    reply: &Reply,
    bytes: &[u8],
) -> Result<(), AllocError>
    ensures { OnOk result (text.new.items ≡ text.old.items ++ event_text event.now reply.now bytes.now) }
{
    push_script_line(text, event, bytes)?;
    match (event.call, reply) {
        (Call::Go, _) if bytes.is_empty() => Ok(()),
        (Call::Go, _) | (Call::Read(..), Reply::Asleep) => {
            push_text(text, b" ")?;
            push_hex(text, bytes)
        }
        _ => Ok(()),
    }
}

/// Whether a count of frames is answered with their bytes. What goes on on a capture substream is a Read.
fn shows_bytes(dir: Dir, call: Call) -> bool
    ensures { result ≡ shows_bytes dir call }
{
    match (call, dir) {
        (Call::Read(..) | Call::Load(..), _) => true,
        (Call::MoveBy(_), Dir::Playback) | (Call::Go, Dir::Capture) => true,
        _ => false,
    }
}

/// Puts an answer at the end of the text, as a transcript has it. Want of memory, which no event of a log is answered with, has
/// no text.
pub(crate) fn push_told(
    text: &mut Vec<u8>,
    reply: &Reply,
    bytes: Option<&[u8]>,
) -> Result<(), AllocError>
    ensures { OnOk result (text.new.items ≡ text.old.items ++ answer_text reply.now (option_copied bytes.entry)) }
{
    match reply {
        Reply::Memory => Ok(()),
        reply => push_reply(text, reply, bytes),
    }
}

/// Puts an answer at the end of the text, with the bytes of the step where a client has read them or a playback card taken
/// them.
pub(crate) fn push_answer(
    text: &mut Vec<u8>,
    dir: Dir,
    call: Call,
    reply: &Reply,
    bytes: &[u8],
) -> Result<(), AllocError>
    ensures { OnOk result (text.new.items ≡ text.old.items ++ answer_shown dir call reply.now bytes.now) }
{
    if shows_bytes(dir, call) {
        push_told(text, reply, Some(bytes))
    } else {
        push_told(text, reply, None)
    }
}
