// The calls that move the application pointer alone.
ghost use Rattle.std.specs.Prelude.{◌≡◌, ◌≤◌, ◌<◌, min, IsSome, OnOk, IfErr};
ghost use Rattle.pcm_base.specs.model.PointerCalls.{back_by, hw_avail, on_by, sync_to};
ghost use Rattle.pcm_base.specs.model.Sound.{IsPlaced};
ghost use Rattle.pcm_base.specs.model.Stream.{Stream, avail};

use super::Substream;
use crate::runtime::Runtime;
use boundary_ptr::{add, back};
use pcm_base::{Card, Dir, Errno};

impl Runtime {
    ghost use Rattle.pcm_stream.specs.Runs.{RunsFor};

    // Takes the application pointer back, at most by the frames that may be taken back.
    fn rewind(&mut self, dir: Dir, n: u64) -> u64
        ensures shape { self.new.shape ≡ self.old.shape }
        ensures count { (s : Stream) → s.dir ≡ dir → RunsFor self.old s → IsPlaced s → result ≡ min n (hw_avail s) }
        ensures moved { (s : Stream) → s.dir ≡ dir → RunsFor self.old s → IsPlaced s → RunsFor self.new (back_by (min n (hw_avail s)) s) }
    {
        let queued = self.shape.buffer.saturating_sub(self.avail(dir));
        let count = n.min(queued);
        self.appl = back(&self.shape, self.appl, count);
        count
    }

    // Moves the application pointer on, at most by the frames that are available.
    fn forward(&mut self, dir: Dir, n: u64) -> u64
        ensures shape { self.new.shape ≡ self.old.shape }
        ensures count { (s : Stream) → s.dir ≡ dir → RunsFor self.old s → IsPlaced s → result ≡ min n (avail s) }
        ensures moved { (s : Stream) → s.dir ≡ dir → RunsFor self.old s → IsPlaced s → RunsFor self.new (on_by (min n (avail s)) s) }
    {
        let count = n.min(self.avail(dir));
        self.appl = add(&self.shape, self.appl, count);
        count
    }

    // Sets the application pointer.
    fn point_at(&mut self, p: u64)
        requires { p < self.old.shape.boundary }
        ensures shape { self.new.shape ≡ self.old.shape }
        ensures moved { (s : Stream) → RunsFor self.old s → IsPlaced s → RunsFor self.new (sync_to p s) }
    {
        self.appl = p;
    }
}

impl<C: Card> Substream<C> {
    ghost use Rattle.pcm_stream.specs.Kept.{KeepsSizes};
    ghost use Rattle.pcm_stream.specs.StandsFor.{StandsFor, shape_in};

    /// Takes the application position back by `n` frames, or by as many as are queued on playback or have been read on
    /// capture, where these are fewer; answers how many (`snd_pcm_rewind`).
    pub fn rewind(&mut self, n: u64) -> u64
        requires shape { IsSome (shape_in self.old) }
        ensures count { (s : Stream) → StandsFor self.old s → result ≡ min n (hw_avail s) }
        ensures moved { (s : Stream) → StandsFor self.old s → StandsFor self.new (back_by (min n (hw_avail s)) s) }
        ensures keeps { KeepsSizes self.old self.new }
    {
        match &mut self.runtime {
            None => 0,
            Some(runtime) => runtime.rewind(self.dir, n),
        }
    }

    /// Moves the application position on by `n` frames, or by as many as are available, where these are fewer; answers
    /// how many (`snd_pcm_forward`).
    pub fn forward(&mut self, n: u64) -> u64
        requires shape { IsSome (shape_in self.old) }
        ensures count { (s : Stream) → StandsFor self.old s → result ≡ min n (avail s) }
        ensures moved { (s : Stream) → StandsFor self.old s → StandsFor self.new (on_by (min n (avail s)) s) }
        ensures keeps { KeepsSizes self.old self.new }
    {
        match &mut self.runtime {
            None => 0,
            Some(runtime) => runtime.forward(self.dir, n),
        }
    }

    /// Moves the application position to the one that is shown as `p` and leaves fewer frames available than the
    /// boundary (`snd_pcm_sync_ptr`; the kernel's lets the very value pass that stands, above the boundary too). EINVAL where
    /// `p` is not below the boundary, with nothing changed.
    pub fn sync(&mut self, p: u64) -> Result<(), Errno>
        requires shape { IsSome (shape_in self.old) }
        ensures ok { (s : Stream) → StandsFor self.old s → OnOk result ((p < s.setup.boundary) × StandsFor self.new (sync_to p s)) }
        ensures einval { (s : Stream) → StandsFor self.old s → IfErr result (λ e. (e ≡ Errno.Einval) × (s.setup.boundary ≤ p) × StandsFor self.new s) }
        ensures keeps { KeepsSizes self.old self.new }
    {
        let Some(runtime) = &mut self.runtime else {
            return Err(Errno::Einval);
        };
        if p >= runtime.shape.boundary {
            return Err(Errno::Einval);
        }
        runtime.point_at(p);
        Ok(())
    }
}
