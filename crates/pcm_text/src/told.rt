// One line of the transcript.
ghost use Rattle.std.specs.Prelude.{◌≡◌, ◌≢◌, ◌++◌, OnOk, OnErr, IfOk, option_copied, codes, decimal};
ghost use Rattle.pcm_base.specs.declared.reply.Reply.TheVariants.{Memory};
ghost use Rattle.pcm_text.specs.Front.{KeepsFront};
ghost use Rattle.pcm_text.specs.Told.{told_line, reply_text};
ghost use Rattle.pcm_text.specs.Names.{shown_state};

use crate::push_text;
use crate::reply::{push_bytes, write_reply_before};
use crate::woken::push_woken;
use itoa::write_digits;
use pcm_base::{Reply, State, Told};
use pcm_line::write_before;
use std::alloc::{AllocError, Global};

// More bytes than any line has beside those that it shows.
const LINE_ROOM: usize = 256;

// Room for a line's number and its answer without the bytes.
const FRONT_ROOM: usize = 112;

fn push_front(text: &mut Vec<u8>, number: u64, reply: &Reply) -> Result<(), AllocError>
    requires { reply.now ≢ Memory }
    ensures ok { OnOk result (text.new.items ≡ text.old.items ++ (decimal number ++ codes " " ++ reply_text reply.now)) }
    ensures err { OnErr result (text.new.items ≡ text.old.items) }
{
    let mut area = [0; FRONT_ROOM];
    let answer = write_reply_before(&mut area, FRONT_ROOM, reply);
    let space = write_before(&mut area, answer, b" ");
    let start = write_digits(number, &mut area, space);
    push_text(text, &area[start..])
}

// A line that names no substream shows `-`.
#[inline(always)]
fn push_state(text: &mut Vec<u8>, state: Option<State>) -> Result<(), AllocError>
    ensures ok { OnOk result (text.new.items ≡ text.old.items ++ (codes " " ++ shown_state state)) }
    ensures err { OnErr result (text.new.items ≡ text.old.items) }
{
    match state {
        None => push_text(text, b" -"),
        Some(State::Closed) => push_text(text, b" CLOSED"),
        Some(State::Opened) => push_text(text, b" OPEN"),
        Some(State::Setup) => push_text(text, b" SETUP"),
        Some(State::Prepared) => push_text(text, b" PREPARED"),
        Some(State::Running) => push_text(text, b" RUNNING"),
        Some(State::Xrun) => push_text(text, b" XRUN"),
        Some(State::Draining) => push_text(text, b" DRAINING"),
        Some(State::Paused) => push_text(text, b" PAUSED"),
        Some(State::Suspended) => push_text(text, b" SUSPENDED"),
        Some(State::Disconnected) => push_text(text, b" DISCONNECTED"),
    }
}

fn push_line(
    text: &mut Vec<u8>,
    number: u64,
    told: &Told,
    bytes: Option<&[u8]>,
) -> Result<(), AllocError>
    requires { told.now.reply ≢ Memory }
    ensures ok { OnOk result
        (text.new.items ≡ text.old.items ++ told_line number told.now (option_copied bytes.entry)) }
    ensures err { OnErr result (KeepsFront text.old.items text.new.items) }
{
    push_front(text, number, &told.reply)?;
    push_bytes(text, &told.reply, bytes)?;
    push_state(text, told.state)?;
    push_woken(text, told.woken)?;
    push_text(text, b"\n")
}

/// Puts one line of the transcript at the end of the text: its number from 1, the answer, the bytes that were read or
/// that a playback card took, the state of the substream named first, and the clients marked awake. Want of memory is no
/// answer that a line shows. An error leaves the text as it was. This project's own.
pub fn push_told(
    text: &mut Vec<u8>,
    number: u64,
    told: &Told,
    bytes: Option<&[u8]>,
) -> Result<(), AllocError>
    requires { told.now.reply ≢ Memory }
    ensures ok { OnOk result
        (text.new.items ≡ text.old.items ++ told_line number told.now (option_copied bytes.entry)) }
    ensures err { OnErr result (text.new.items ≡ text.old.items) }
{
    let start = text.len();
    let pushed = push_line(text, number, told, bytes);
    if pushed.is_err() {
        text.truncate(start);
    }
    pushed
}

/// One line of the transcript, ended by a line feed, as `push_told` puts it, made with one allocation. This project's own.
pub fn told_text(
    alloc: Global,
    number: u64,
    told: &Told,
    bytes: Option<&[u8]>,
) -> Result<Vec<u8>, AllocError>
    requires { told.now.reply ≢ Memory }
    ensures { IfOk result (λ v. v.items ≡ told_line number told.now (option_copied bytes.entry)) }
{
    let shown = match bytes {
        Some(bytes) => bytes.len(),
        None => 0,
    };
    let room = shown.saturating_mul(2).saturating_add(LINE_ROOM);
    let mut text = Vec::with_capacity(alloc, room)?;
    push_told(&mut text, number, told, bytes)?;
    Ok(text)
}
