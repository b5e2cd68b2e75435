// What the events do to a substream that make no act over its group (the ioctls of `pcm_native.c`).
ghost use Rattle.std.specs.Prelude.{◌≡◌, ◌≢◌, ◌<◌, ◌^◌, ◌-ℤ◌, ◌||◌, pos, Bool, true, [], length};
ghost use Rattle.pcm_base.specs.declared.call.Call.TheVariants as call;
ghost use Rattle.pcm_base.specs.declared.ids.ClientId.{ClientId};
ghost use Rattle.pcm_base.specs.declared.reply.Reply.TheVariants.{Asleep, Memory};
ghost use Rattle.pcm_base.specs.model.Events.{event as event_of, delay as delay_in, is_busy, poll as poll_of};
ghost use Rattle.pcm_base.specs.model.Movement.{move as move_of};
ghost use Rattle.pcm_base.specs.model.Sound.{is_set_up};
ghost use Rattle.pcm_base.specs.model.Stream.{Stream};
ghost use Rattle.pcm_stream.specs.Kept.{KeepsFaults};
ghost use Rattle.pcm_stream.specs.StandsFor.{StandsFor};
ghost use Rattle.pcm_group.specs.Ended.{IsOwnEnd};

use crate::acts::answer;
use pcm_base::{Card, Config, Dir, Errno, Ready, Reply, State, SwParams};
use pcm_stream::{DmaRefusal, HwRefusal, Substream};

/// An opening of a closed substream.
pub(crate) fn open<C: Card>(stream: &mut Substream<C>) -> Reply
    ensures done { (c : ClientId) (linked : Bool) (s : Stream) → StandsFor stream.old s → IsOwnEnd s (event_of call.OpenSub c linked [] s) result 0 0 stream.new }
    ensures told { result ≢ Memory }
    ensures awake { result ≢ Asleep }
    ensures keeps { KeepsFaults stream.old stream.new }
{
    answer(stream.open_sub())
}

/// A linked, mapped or busy substream stays open.
pub(crate) fn close<C: Card>(stream: &mut Substream<C>, linked: bool, busy: bool) -> Reply
    ensures done { (c : ClientId) (s : Stream) → StandsFor stream.old s → busy ≡ is_busy s → IsOwnEnd s (event_of call.CloseSub c linked [] s) result 0 0 stream.new }
    ensures told { result ≢ Memory }
    ensures awake { result ≢ Asleep }
    ensures keeps { KeepsFaults stream.old stream.new }
{
    if linked || stream.mappings() > 0 || busy {
        return Reply::Err(Errno::Ebusy);
    }
    stream.close_sub();
    Reply::Ok
}

pub(crate) fn hw_params<C: Card>(stream: &mut Substream<C>, config: &Config, busy: bool) -> Reply
    ensures done { (c : ClientId) (linked : Bool) (s : Stream) → StandsFor stream.old s → busy ≡ is_busy s → result ≢ Memory → IsOwnEnd s (event_of (call.HwParams config.now) c linked [] s) result 0 0 stream.new }
    ensures memory { (s : Stream) → StandsFor stream.old s → result ≡ Memory → StandsFor stream.new s }
    ensures awake { result ≢ Asleep }
    ensures keeps { KeepsFaults stream.old stream.new }
{
    match stream.hw_params(config, busy) {
        Ok(()) => Reply::Ok,
        Err(HwRefusal::Errno(e)) => Reply::Err(e),
        Err(HwRefusal::Memory) => Reply::Memory,
    }
}

pub(crate) fn hw_free<C: Card>(stream: &mut Substream<C>, busy: bool) -> Reply
    ensures done { (c : ClientId) (linked : Bool) (s : Stream) → StandsFor stream.old s → busy ≡ is_busy s → IsOwnEnd s (event_of call.HwFree c linked [] s) result 0 0 stream.new }
    ensures told { result ≢ Memory }
    ensures awake { result ≢ Asleep }
    ensures keeps { KeepsFaults stream.old stream.new }
{
    answer(stream.hw_free(busy))
}

pub(crate) fn sw_params<C: Card>(stream: &mut Substream<C>, sw: &SwParams) -> Reply
    ensures done { (c : ClientId) (linked : Bool) (s : Stream) → StandsFor stream.old s → IsOwnEnd s (event_of (call.SwParams sw.now) c linked [] s) result 0 0 stream.new }
    ensures told { result ≢ Memory }
    ensures awake { result ≢ Asleep }
    ensures keeps { KeepsFaults stream.old stream.new }
{
    answer(stream.sw_params(sw))
}

pub(crate) fn fail_at<C: Card>(stream: &mut Substream<C>, k: u64) -> Reply
    ensures done { (c : ClientId) (linked : Bool) (s : Stream) → StandsFor stream.old s → IsOwnEnd s (event_of (call.FailAt k) c linked [] s) result 0 0 stream.new }
    ensures told { result ≢ Memory }
    ensures awake { result ≢ Asleep }
    ensures keeps { KeepsFaults stream.old stream.new }
{
    answer(stream.fail_at(k))
}

/// The card moves. Its frames are none of a call's.
pub(crate) fn move_by<C: Card>(stream: &mut Substream<C>, n: u64) -> Reply
    ensures done { (c : ClientId) (linked : Bool) (s : Stream) → StandsFor stream.old s → result ≢ Memory → IsOwnEnd s (event_of (call.MoveBy n) c linked [] s) result 0 (length (move_of n s).frames) stream.new }
    ensures memory { (s : Stream) → StandsFor stream.old s → result ≡ Memory → StandsFor stream.new s }
    ensures awake { result ≢ Asleep }
    ensures keeps { KeepsFaults stream.old stream.new }
{
    match stream.dma(n) {
        Ok(moved) => Reply::Moved(moved),
        Err(DmaRefusal::Idle) => Reply::Idle,
        Err(DmaRefusal::Late(room)) => Reply::Late(room),
        Err(DmaRefusal::Limit(total)) => Reply::Limit(total),
        Err(DmaRefusal::Memory) => Reply::Memory,
    }
}

// What is queued in a buffer of which so many frames are free, less than none where more are.
fn queued(buffer: u64, free: u64) -> i64
    requires buffer { buffer < 2 ^ 36 }
    requires free { free < 2 ^ 36 }
    ensures { result ≡ pos buffer -ℤ pos free }
{
    buffer as i64 - free as i64
}

/// The frames between the application and the hardware, none where there is no configuration.
pub(crate) fn delay_now<C: Card>(stream: &Substream<C>) -> Reply
    ensures delay { (s : Stream) → StandsFor stream.now s → is_set_up s.state ≡ true → result ≡ delay_in s }
    ensures told { result ≢ Memory }
    ensures awake { result ≢ Asleep }
{
    let Some(shape) = stream.shape() else {
        return Reply::Delay(0);
    };
    let avail = stream.page().avail;
    match stream.dir() {
        Dir::Playback => Reply::Delay(queued(shape.buffer, avail)),
        Dir::Capture => Reply::Delay(avail as i64),
    }
}

/// Whether a transfer could go on.
pub(crate) fn poll<C: Card>(stream: &Substream<C>) -> Reply
    ensures done { (s : Stream) → StandsFor stream.now s → result ≡ poll_of s }
    ensures told { result ≢ Memory }
    ensures awake { result ≢ Asleep }
{
    let avail = stream.page().avail;
    let wanted = match stream.sw() {
        Some(sw) => sw.avail_min,
        None => 0,
    };
    let ready = match (stream.state(), stream.dir()) {
        (State::Prepared | State::Running | State::Paused, _) if wanted <= avail => Ready::Yes,
        (State::Prepared | State::Running | State::Paused, _) => Ready::No,
        (State::Draining, Dir::Playback) => Ready::No,
        (State::Draining, Dir::Capture) if avail > 0 => Ready::Yes,
        _ => Ready::Error,
    };
    Reply::Poll(ready)
}
