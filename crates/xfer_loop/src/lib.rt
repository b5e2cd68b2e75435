//! One turn of a transfer: the frames that can move before the ring's end move between a client's bytes and the buffer,
//! and the answer says how the loop goes on.
//!
//! It stands on `pcm_stream`. Its source is the loop of `__snd_pcm_lib_xfer` in `pcm_lib.c` of the kernel. That a turn
//! ends at the ring's end, whatever the ring's layout, is the kernel's too.
#![tactic(auto)]

ghost use Rattle.std.specs.Prelude.{◌≡◌, ◌≢◌, ◌<◌, ◌≤◌, ◌+◌, ◌&&◌, IsSome, nat_le, true, Some};
ghost use Rattle.std.specs.Option.{ForSome};
ghost use Rattle.pcm_base.specs.Shape.{AreFrames, count_of};
ghost use Rattle.pcm_base.specs.declared.config.Config.{Config as Configuration};
ghost use Rattle.pcm_base.specs.model.Stream.{Stream, avail};
ghost use Rattle.pcm_base.specs.model.Transfer.{frames_by, is_filled as is_filled_in};
ghost use Rattle.pcm_base.specs.model.Words.{is_prepared};
ghost use Rattle.pcm_laws.specs.Turns.{turn as turn_of};
ghost use Rattle.pcm_stream.specs.Kept.{KeepsSizes};
ghost use Rattle.pcm_stream.specs.StandsFor.{StandsFor, shape_in};
ghost use Rattle.xfer_loop.specs.Turn.{IsStuck, bytes_after, bytes_moved, frames_after, frames_moved, step_of, stream_after, stream_moved, stuck_step, xfer_after};

pub mod laws;
#[cfg(test)]
mod tests;

use pcm_base::{Card, Errno, Mode, Shape, State, SwParams, Xfer};
use pcm_stream::{Member, Substream};

/// How a transfer goes on after one turn.
#[derive(Clone, Copy, Debug, PartialEq, Eq)]
pub enum XferStep {
    /// So many frames were moved; none where none rested.
    Moved(u64),
    /// Frames were moved, and a playback client has now queued enough to start its group.
    WantsStart,
    /// No frame can move, and the call waits for so many to be available.
    Wait(u64),
    /// All that was captured before a drain is read: the group is to stop.
    Drained,
    /// No frame can move, and the call does not wait.
    Refuse(Errno),
}

// The frames of the next turn, of so many that rest: those that can move, up to the ring's end.
fn turn<C: Card>(stream: &Substream<C>, rest: u64) -> u64
    ensures model { (s : Stream) (config : Configuration) → StandsFor stream.now s → s.setup.config ≡ Some config → result ≡ turn_of rest s }
    ensures rest { result ≤ rest }
    ensures buffer { ForSome (shape_in stream.now) (λ shape. result ≤ shape.buffer) }
{
    let Some(shape) = stream.shape() else {
        return 0;
    };
    let page = stream.page();
    rest.min(page.avail)
        .min(shape.buffer - page.appl % shape.buffer)
}

// With so many frames free, the start threshold is queued.
fn is_filled(shape: &Shape, sw: &SwParams, free: u64) -> bool
    ensures { result ≡ nat_le (sw.now.start_threshold + free) shape.now.buffer }
{
    free <= shape.buffer && sw.start_threshold <= shape.buffer - free
}

// A client that has queued enough starts its group.
fn starts<C: Card>(stream: &Substream<C>) -> bool
    ensures { (s : Stream) (config : Configuration) → StandsFor stream.now s → s.setup.config ≡ Some config → result ≡ (is_prepared s.state && is_filled_in s 0) }
{
    match (stream.state(), stream.sw(), stream.shape()) {
        (State::Prepared, Some(sw), Some(shape)) => is_filled(shape, sw, stream.page().avail),
        _ => false,
    }
}

// What a call does that can move no frame.
fn stuck<C: Card>(stream: &Substream<C>, xfer: &Xfer) -> XferStep
    ensures step { (s : Stream) (config : Configuration) → StandsFor stream.now s → s.setup.config ≡ Some config → result ≡ stuck_step xfer.now s }
    ensures rests { IsStuck result }
{
    if !xfer.writing && stream.state() == State::Draining {
        return XferStep::Drained;
    }
    match (xfer.mode, stream.sw()) {
        (Mode::Block, Some(sw)) => XferStep::Wait(xfer.rest.min(sw.avail_min)),
        _ => XferStep::Refuse(Errno::Eagain),
    }
}

// Moves the next frames of the call between its bytes and the buffer.
fn move_frames<C: Card>(stream: &mut Substream<C>, xfer: &Xfer, io: &mut [u8], count: u64)
    requires shape { IsSome (shape_in stream.old) }
    requires whole { ForSome (shape_in stream.old) (λ shape. AreFrames shape io.old) }
    requires within { ForSome (shape_in stream.old) (λ shape. xfer.now.moved + count ≤ count_of shape io.old) }
    requires fits { ForSome (shape_in stream.old) (λ shape. count ≤ shape.buffer) }
    ensures stream { (s : Stream) → StandsFor stream.old s → count ≤ avail s → StandsFor stream.new (stream_moved xfer.now count io.old s) }
    ensures frames { (s : Stream) → StandsFor stream.old s → frames_by xfer.now.layout s io.new ≡ frames_moved xfer.now count io.old s }
    ensures bytes { (s : Stream) → StandsFor stream.old s → io.new ≡ bytes_moved xfer.now count io.old s }
    ensures written { xfer.now.writing ≡ true → io.new ≡ io.old }
    ensures keeps { KeepsSizes stream.old stream.new }
{
    if xfer.writing {
        stream.put_frames(xfer.layout, io, xfer.moved, count);
    } else {
        stream.get_frames(xfer.layout, io, xfer.moved, count);
    }
}

/// Makes one turn: as many frames move as rest, as are available, and as there are up to the ring's end, whichever are
/// fewest. `io` has the bytes of the whole call, of which `moved` frames have moved already.
pub fn transfer<C: Card>(member: &mut Member<C>, xfer: &mut Xfer, io: &mut [u8]) -> XferStep
    requires shape { IsSome (shape_in member.old.stream) }
    requires whole { ForSome (shape_in member.old.stream) (λ shape. AreFrames shape io.old) }
    requires count { ForSome (shape_in member.old.stream) (λ shape. count_of shape io.old ≡ xfer.old.moved + xfer.old.rest) }
    ensures step { (s : Stream) → StandsFor member.old.stream s → result ≡ step_of xfer.old s }
    ensures stream { (s : Stream) → StandsFor member.old.stream s → StandsFor member.new.stream (stream_after xfer.old io.old s) }
    ensures xfer { (s : Stream) → StandsFor member.old.stream s → xfer.new ≡ xfer_after xfer.old s }
    ensures frames { (s : Stream) → StandsFor member.old.stream s → frames_by xfer.old.layout s io.new ≡ frames_after xfer.old io.old s }
    ensures bytes { (s : Stream) → StandsFor member.old.stream s → io.new ≡ bytes_after xfer.old io.old s }
    ensures room { (s : Stream) → StandsFor member.old.stream s → 0 < s.setup.buffer }
    ensures start { result ≡ XferStep.WantsStart → xfer.old.writing ≡ true }
    ensures written { xfer.old.writing ≡ true → io.new ≡ io.old }
    ensures writing { xfer.new.writing ≡ xfer.old.writing }
    ensures layout { xfer.new.layout ≡ xfer.old.layout }
    ensures mode { xfer.new.mode ≡ xfer.old.mode }
    ensures sum { xfer.new.moved + xfer.new.rest ≡ xfer.old.moved + xfer.old.rest }
    ensures progress { (IsStuck result → ⊥) → xfer.old.rest ≢ 0 → xfer.new.rest < xfer.old.rest }
    ensures stuck { IsStuck result → member.new ≡ member.old }
    ensures rests { IsStuck result → xfer.new ≡ xfer.old }
    ensures untouched { IsStuck result → io.new ≡ io.old }
    ensures sub { member.new.sub ≡ member.old.sub }
    ensures sleepers { member.new.sleepers ≡ member.old.sleepers }
    ensures keeps { KeepsSizes member.old.stream member.new.stream }
{
    if xfer.rest == 0 {
        return XferStep::Moved(0);
    }
    let count = turn(&member.stream, xfer.rest);
    if count == 0 {
        return stuck(&member.stream, xfer);
    }
    move_frames(&mut member.stream, xfer, io, count);
    xfer.rest -= count;
    xfer.moved += count;
    let filled = starts(&member.stream);
    if xfer.writing && filled {
        XferStep::WantsStart
    } else {
        XferStep::Moved(count)
    }
}
