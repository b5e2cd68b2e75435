// The answer of a step.
ghost use Rattle.std.specs.Prelude.{◌≡◌, ◌≢◌, ◌≤◌, ◌+◌, ◌++◌, OnOk, OnErr, decimal, drop, length, option_copied};
ghost use Rattle.pcm_base.specs.declared.reply.Reply.TheVariants.{Memory};
ghost use Rattle.pcm_text.specs.Front.{KeepsFront};
ghost use Rattle.pcm_text.specs.Told.{ready_name, pointers_text, errno_text, reply_text, bytes_text, answer_text};

use crate::{errno_name, push_hex, push_text};
use itoa::{Buffer, write_digits};
use pcm_base::{Errno, Page, Ready, Reply};
use pcm_line::write_before;
use std::alloc::AllocError;

fn ready_name(ready: Ready) -> &'static str
    ensures { result.now ≡ ready_name ready }
{
    match ready {
        Ready::No => "none",
        Ready::Yes => "ready",
        Ready::Error => "error",
    }
}

/// Room for an answer without its bytes: that of pointers is the longest, with three numbers.
pub(crate) const ROOM: usize = 88;

/// Writes the word and the number behind it before what stands from `end` on, and gives the place where they start.
#[inline(always)]
pub(crate) fn write_counted_before(area: &mut [u8], end: usize, word: &[u8], number: u64) -> usize
    requires room { length word.now + 20 ≤ end }
    requires inside { end ≤ length area.old }
    ensures start { end ≤ result + (length word.now + 20) }
    ensures within { result ≤ end }
    ensures written { drop result area.new ≡ word.now ++ decimal number ++ drop end area.old }
{
    let start = write_digits(number, area, end);
    write_before(area, start, word)
}

#[inline(always)]
pub(crate) fn write_pointers_before(area: &mut [u8], end: usize, page: &Page) -> usize
    requires room { 49 ≤ end }
    requires inside { end ≤ length area.old }
    ensures start { end ≤ result + 49 }
    ensures within { result ≤ end }
    ensures written { drop result area.new ≡ pointers_text page.now ++ drop end area.old }
{
    let start = write_counted_before(area, end, b" appl ", page.appl);
    write_counted_before(area, start, b"hw ", page.hw)
}

fn write_page_before(area: &mut [u8], end: usize, page: &Page) -> usize
    requires room { 81 ≤ end }
    requires inside { end ≤ length area.old }
    ensures start { end ≤ result + 81 }
    ensures within { result ≤ end }
    ensures written { drop result area.new ≡ reply_text (Reply.Ptrs page.now) ++ drop end area.old }
{
    let avail = write_counted_before(area, end, b" avail ", page.avail);
    let pointers = write_pointers_before(area, avail, page);
    write_before(area, pointers, b"ptrs ")
}

fn write_ready_before(area: &mut [u8], end: usize, ready: Ready) -> usize
    requires room { 10 ≤ end }
    requires inside { end ≤ length area.old }
    ensures start { end ≤ result + 10 }
    ensures within { result ≤ end }
    ensures written { drop result area.new ≡ reply_text (Reply.Poll ready) ++ drop end area.old }
{
    let name = write_before(area, end, ready_name(ready).as_bytes());
    write_before(area, name, b"poll ")
}

#[inline(never)]
fn write_delay_before(area: &mut [u8], end: usize, frames: i64) -> usize
    requires room { 26 ≤ end }
    requires inside { end ≤ length area.old }
    ensures start { end ≤ result + 26 }
    ensures within { result ≤ end }
    ensures written { drop result area.new ≡ reply_text (Reply.Delay frames) ++ drop end area.old }
{
    let mut buffer = Buffer::new();
    let number = write_before(area, end, buffer.format(frames).as_bytes());
    write_before(area, number, b"delay ")
}

fn write_errno_before(area: &mut [u8], end: usize, errno: Errno) -> usize
    requires room { 33 ≤ end }
    requires inside { end ≤ length area.old }
    ensures start { end ≤ result + 33 }
    ensures within { result ≤ end }
    ensures written { drop result area.new ≡ errno_text errno ++ drop end area.old }
{
    let number = write_counted_before(area, end, b" ", u64::from(errno.number()));
    let name = write_before(area, number, errno_name(errno).as_bytes());
    write_before(area, name, b"err ")
}

/// Writes an answer, other than want of memory and without its bytes, before what stands from `end` on, and gives the place
/// where it starts.
#[inline(always)]
pub(crate) fn write_reply_before(area: &mut [u8], end: usize, reply: &Reply) -> usize
    requires told { reply.now ≢ Memory }
    requires room { 81 ≤ end }
    requires inside { end ≤ length area.old }
    ensures start { end ≤ result + 81 }
    ensures within { result ≤ end }
    ensures written { drop result area.new ≡ reply_text reply.now ++ drop end area.old }
{
    match reply {
        Reply::Ok => write_before(area, end, b"ok"),
        Reply::Frames(frames) => write_counted_before(area, end, b"frames ", *frames),
        Reply::Moved(frames) => write_counted_before(area, end, b"moved ", *frames),
        Reply::Delay(frames) => write_delay_before(area, end, *frames),
        Reply::Ptrs(page) => write_page_before(area, end, page),
        Reply::Poll(ready) => write_ready_before(area, end, *ready),
        Reply::Asleep => write_before(area, end, b"asleep"),
        Reply::Err(errno) => write_errno_before(area, end, *errno),
        Reply::Late(room) => write_counted_before(area, end, b"late ", *room),
        Reply::Idle => write_before(area, end, b"idle"),
        Reply::Limit(total) => write_counted_before(area, end, b"limit ", *total),
        Reply::Busy(client) => write_counted_before(area, end, b"busy c", u64::from(client.0)),
        Reply::Memory => unreachable!(),
    }
}

/// Puts the bytes that stand behind a count of frames at the end of the text, where there are some to show.
#[inline(always)]
pub(crate) fn push_bytes(
    text: &mut Vec<u8>,
    reply: &Reply,
    bytes: Option<&[u8]>,
) -> Result<(), AllocError>
    ensures ok { OnOk result (text.new.items ≡ text.old.items ++ bytes_text reply.now (option_copied bytes.entry)) }
    ensures err { OnErr result (KeepsFront text.old.items text.new.items) }
{
    match (reply, bytes) {
        (Reply::Frames(_) | Reply::Moved(_), Some(bytes)) => {
            push_text(text, b" ")?;
            push_hex(text, bytes)
        }
        _ => Ok(()),
    }
}

/// Puts an answer, other than want of memory, at the end of the text. Behind a count of frames stand the bytes, where
/// there are some to show, `-` for none. An error leaves what stood there in front. This project's own.
pub fn push_reply(text: &mut Vec<u8>, reply: &Reply, bytes: Option<&[u8]>) -> Result<(), AllocError>
    requires { reply.now ≢ Memory }
    ensures ok { OnOk result
        (text.new.items ≡ text.old.items ++ answer_text reply.now (option_copied bytes.entry)) }
    ensures err { OnErr result (KeepsFront text.old.items text.new.items) }
{
    let mut area = [0; ROOM];
    let start = write_reply_before(&mut area, ROOM, reply);
    push_text(text, &area[start..])?;
    push_bytes(text, reply, bytes)
}
