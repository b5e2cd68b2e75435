// Where the card stands, and what moves between clients, the buffer and the card.
ghost use Rattle.std.specs.Prelude.{◌≡◌, ◌≤◌, ◌<◌, ◌+◌, ◌*◌, ◌/◌, ◌^◌, ◌≢◌, true, None, Some, IsSome, IsErrOf, IfOk, OnOk, take, drop};
ghost use Rattle.std.specs.Option.{ForSome};
ghost use Rattle.pcm_base.specs.declared.act.Updated.TheVariants.{DrainDone};
ghost use Rattle.pcm_base.specs.declared.state.Dir.TheVariants.{Playback, Capture};
ghost use Rattle.pcm_base.specs.model.Stream.{Stream, avail};
ghost use Rattle.pcm_base.specs.model.Update.{update as update_of, moved_up, found as found_of, found_in as what_is_found, settled};
ghost use Rattle.pcm_base.specs.model.Movement.{move};
ghost use Rattle.pcm_base.specs.model.Transfer.{frames_by, put_next};
ghost use Rattle.pcm_base.specs.Shape.{AreFrames, count_of};

use super::{DmaRefusal, Substream};
use pcm_base::{Card, Dir, Layout, State, Trigger, Updated};

/// The most bytes that a playback card holds.
pub const TAKEN_LIMIT: u64 = 67_108_864;

// What the count of frames that a client may move means in a state.
fn found_in(state: State, buffer: u64, stop_threshold: u64, avail: u64) -> Updated
    ensures { result ≡ what_is_found state buffer stop_threshold avail }
{
    match state {
        State::Draining if avail >= buffer => Updated::DrainDone,
        State::Running if avail >= stop_threshold => Updated::StopXrun,
        _ => Updated::Nothing,
    }
}

impl<C: Card> Substream<C> {
    ghost use Rattle.pcm_stream.specs.Kept.{KeepsSizes};
    ghost use Rattle.pcm_stream.specs.StandsFor.{StandsFor, shape_in, dma_reply};
    ghost use Rattle.pcm_stream.specs.Moving.{CanMove};

    /// Reports where the card stands, puts silence ahead of a playback client, and looks whether that ends a drain, which
    /// it does here, or has to stop the group, which is left to the caller (`snd_pcm_update_hw_ptr`; the kernel's looks at no
    /// state where nothing moved, and checks by time as well, which are left out).
    pub fn update(&mut self) -> Updated
        ensures found { (s : Stream) → StandsFor self.old s → result ≡ (update_of s).found }
        ensures model { (s : Stream) → StandsFor self.old s → StandsFor self.new (update_of s).stream }
        ensures keeps { KeepsSizes self.old self.new }
    {
        if !self.card.runs() {
            return Updated::Nothing;
        }
        self.report();
        let found = self.found();
        match found {
            Updated::DrainDone => self.end_drain(),
            Updated::Nothing => {}
            Updated::StopXrun => {}
        }
        found
    }

    // The hardware pointer moves to where the running card stands.
    fn report(&mut self)
        ensures model { (s : Stream) → StandsFor self.old s → s.card.runs ≡ true → StandsFor self.new (moved_up s) }
        ensures keeps { KeepsSizes self.old self.new }
    {
        let Some(runtime) = &mut self.runtime else {
            return;
        };
        runtime.report(self.card.position());
        match self.dir {
            Dir::Playback => runtime.fill(),
            Dir::Capture => {}
        }
    }

    // What the pointers mean in this state.
    fn found(&self) -> Updated
        ensures { (s : Stream) → StandsFor self.now s → result ≡ found_of s }
    {
        match &self.runtime {
            None => Updated::Nothing,
            Some(runtime) => found_in(
                self.state,
                runtime.shape.buffer,
                runtime.sw.stop_threshold,
                runtime.avail(self.dir),
            ),
        }
    }

    // All that was written is played.
    fn end_drain(&mut self)
        ensures model { (s : Stream) → StandsFor self.old s → found_of s ≡ DrainDone → StandsFor self.new (settled DrainDone s) }
        ensures keeps { KeepsSizes self.old self.new }
    {
        self.state = State::Setup;
        let _ = self.card.trigger(Trigger::Stop);
    }

    /// Puts the frames `first` to `first + count - 1` of `io` at the application position, which moves on by them. On
    /// playback; at most as many as are available and as the buffer holds. `io` holds whole frames, one after another, or
    /// the samples of channel 0, then those of channel 1 and so on (one copy in the loop of `__snd_pcm_lib_xfer`).
    pub fn put_frames(&mut self, layout: Layout, io: &[u8], first: u64, count: u64)
        requires shape { IsSome (shape_in self.old) }
        requires whole { ForSome (shape_in self.old) (λ s. AreFrames s io.now) }
        requires within { ForSome (shape_in self.old) (λ s. first + count ≤ count_of s io.now) }
        requires fits { ForSome (shape_in self.old) (λ s. count ≤ s.buffer) }
        ensures put { (s : Stream) → StandsFor self.old s → count ≤ avail s → StandsFor self.new (put_next (take count (drop first (frames_by layout s io.now))) s) }
        ensures keeps { KeepsSizes self.old self.new }
    {
        if let Some(runtime) = &mut self.runtime {
            runtime.put(layout, io, first, count);
        }
    }

    /// Moves `n` frames between the buffer and the card, and answers how many: a playback card takes those that stand from
    /// its position on, a capture card gives its next ones there, zero bytes past their end. `Idle` where the card does not
    /// run; `Late` where the movement would come to a whole buffer before it is reported; `Limit` where a playback card
    /// would hold more than 67,108,864 bytes. After a refusal, Memory too, all is as before. This project's own.
    pub fn dma(&mut self, n: u64) -> Result<u64, DmaRefusal>
        ensures reply { (s : Stream) → StandsFor self.old s → ForSome (dma_reply result) (λ reply. reply ≡ (move n s).reply) }
        ensures moved { (s : Stream) → StandsFor self.old s → result ≢ Err DmaRefusal.Memory → StandsFor self.new (move n s).stream }
        ensures memory { (s : Stream) → StandsFor self.old s → result ≡ Err DmaRefusal.Memory → StandsFor self.new s }
        ensures keeps { KeepsSizes self.old self.new }
    {
        if !self.card.runs() {
            return Err(DmaRefusal::Idle);
        }
        let Some(runtime) = &self.runtime else {
            return Err(DmaRefusal::Idle);
        };
        let room = runtime.shape.buffer - 1 - runtime.unreported(self.card.position());
        if n > room {
            return Err(DmaRefusal::Late(room));
        }
        match self.dir {
            Dir::Playback => self.play(n),
            Dir::Capture => {
                self.capture(n);
                Ok(n)
            }
        }
    }

    // The running card of a playback substream takes frames.
    fn play(&mut self, n: u64) -> Result<u64, DmaRefusal>
        requires { ForSome self.old.runtime (λ r. n < r.shape.buffer) }
        ensures reply { (s : Stream) → StandsFor self.old s → CanMove Playback n s → ForSome (dma_reply result) (λ reply. reply ≡ (move n s).reply) }
        ensures moved { (s : Stream) → StandsFor self.old s → CanMove Playback n s → result ≢ Err DmaRefusal.Memory → StandsFor self.new (move n s).stream }
        ensures memory { (s : Stream) → StandsFor self.old s → result ≡ Err DmaRefusal.Memory → StandsFor self.new s }
        ensures keeps { KeepsSizes self.old self.new }
    {
        let Some(runtime) = &mut self.runtime else {
            return Err(DmaRefusal::Idle);
        };
        let bytes = n * runtime.shape.frame_bytes;
        let total = self.card.taken().len() as u64 + bytes;
        if total > TAKEN_LIMIT {
            return Err(DmaRefusal::Limit(total));
        }
        let Ok(()) = self.card.reserve(bytes) else {
            return Err(DmaRefusal::Memory);
        };
        runtime.read(self.card.position(), n);
        self.card.take(&runtime.piece[..bytes as usize]);
        runtime.count(n);
        Ok(n)
    }

    // The running card of a capture substream gives frames.
    fn capture(&mut self, n: u64)
        requires { ForSome self.old.runtime (λ r. n < r.shape.buffer) }
        ensures moved { (s : Stream) → StandsFor self.old s → CanMove Capture n s → StandsFor self.new (move n s).stream }
        ensures keeps { KeepsSizes self.old self.new }
    {
        let Some(runtime) = &mut self.runtime else {
            return;
        };
        let position = self.card.position();
        runtime.receive(&mut self.card, n);
        runtime.write(position, n);
        runtime.count(n);
    }
}
