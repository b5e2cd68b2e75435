// The other calls that set a substream up, and take it down again.
ghost use Rattle.std.specs.Prelude.{◌≡◌, ◌≤◌, ◌↔◌, true, false, None, Some, IsOk, IsSome, OnOk, OnErr, IfErr};
ghost use Rattle.std.specs.Option.{ForSome};
ghost use Rattle.pcm_base.specs.Shape.{AreFrames};
ghost use Rattle.pcm_base.specs.model.Events.{closed, freed, plan_set, set_mappings, set_sw, unplugged};
ghost use Rattle.pcm_base.specs.model.Software.{refuses_sw};
ghost use Rattle.pcm_base.specs.model.Stream.{Stream};
ghost use Rattle.pcm_base.specs.model.Transfer.{frames_in};
ghost use Rattle.pcm_stream.specs.Buffer.{with_to_give};

use super::Substream;
use crate::runtime::Runtime;
use pcm_base::{CallKind, Card, Errno, State, SwParams};
use state_table::permit;
use std::alloc::AllocError;
use sw_params::check_sw;

impl Runtime {
    ghost use Rattle.pcm_stream.specs.Runs.{RunsFor};

    // Sets the software parameters; EINVAL where they are refused, with nothing changed.
    fn set_sw(&mut self, sw: &SwParams) -> Result<(), Errno>
        ensures shape { self.new.shape ≡ self.old.shape }
        ensures ok { (s : Stream) → RunsFor self.old s → OnOk result ((refuses_sw s.setup.buffer s.setup.boundary sw.now ≡ false) × RunsFor self.new (set_sw sw.now s)) }
        ensures refused { (s : Stream) → RunsFor self.old s → IfErr result (λ e. (e ≡ Errno.Einval) × (refuses_sw s.setup.buffer s.setup.boundary sw.now ≡ true)) }
        ensures same { OnErr result (self.new ≡ self.old) }
    {
        check_sw(&self.shape, sw)?;
        self.sw = *sw;
        Ok(())
    }

    // Sets the count of mappings.
    fn set_mappings(&mut self, n: u64)
        requires few { n ≤ 65535 }
        ensures shape { self.new.shape ≡ self.old.shape }
        ensures set { (s : Stream) → RunsFor self.old s → RunsFor self.new (set_mappings n s) }
    {
        self.mappings = n;
    }
}

impl<C: Card> Substream<C> {
    ghost use Rattle.pcm_stream.specs.SetUp.{free_refusal, sw_refusal};
    ghost use Rattle.pcm_stream.specs.Kept.{KeepsCard, KeepsFaults, KeepsSizes};
    ghost use Rattle.pcm_stream.specs.StandsFor.{StandsFor, shape_in};

    /// Sets the software parameters (`snd_pcm_sw_params`; where the substream runs, the kernel's also puts silence and looks
    /// at the state). Refused by the error table, then EINVAL where `check_sw` refuses them, with nothing changed.
    pub fn sw_params(&mut self, sw: &SwParams) -> Result<(), Errno>
        ensures ok { (s : Stream) → StandsFor self.old s → OnOk result ((sw_refusal sw.now s ≡ None) × StandsFor self.new (set_sw sw.now s)) }
        ensures refused { (s : Stream) → StandsFor self.old s → IfErr result (λ e. (sw_refusal sw.now s ≡ Some e) × StandsFor self.new s) }
        ensures keeps { KeepsSizes self.old self.new }
    {
        permit(CallKind::SwParams, self.state, self.dir)?;
        match &mut self.runtime {
            None => Err(Errno::Ebadfd),
            Some(runtime) => runtime.set_sw(sw),
        }
    }

    /// Takes down what `hw_params` set up, with the buffer (`snd_pcm_hw_free`; the kernel's is busy only while bytes are
    /// copied, and leaves the pointers). Refused by the error table, EBADFD where mapped, EBUSY where a call is in progress on
    /// it (`busy`), all with nothing changed.
    pub fn hw_free(&mut self, busy: bool) -> Result<(), Errno>
        ensures ok { (s : Stream) → StandsFor self.old s → OnOk result ((free_refusal busy s ≡ None) × StandsFor self.new (freed s)) }
        ensures refused { (s : Stream) → StandsFor self.old s → IfErr result (λ e. (free_refusal busy s ≡ Some e) × StandsFor self.new s) }
        ensures shape { OnErr result (shape_in self.new ≡ shape_in self.old) }
        ensures keeps { KeepsFaults self.old self.new }
    {
        self.change_allowed(CallKind::HwFree, busy)?;
        self.free();
        Ok(())
    }

    /// Plans the `k`-th trigger from now that consults the card's fault plan to fail; EINVAL where `k` is not 1 to 64, with
    /// nothing changed. This project's own.
    pub fn fail_at(&mut self, k: u64) -> Result<(), Errno>
        ensures ok { (s : Stream) → StandsFor self.old s → OnOk result (StandsFor self.new (plan_set k s)) }
        ensures range { IsOk result ↔ ((1 ≤ k) × (k ≤ 64)) }
        ensures einval { (s : Stream) → StandsFor self.old s → IfErr result (λ e. (e ≡ Errno.Einval) × StandsFor self.new s) }
        ensures keeps { KeepsSizes self.old self.new }
    {
        self.card.fail_at(k)
    }

    /// Replaces the frames that the card has to give, which lie one after another. An error changes nothing. This project's
    /// own.
    pub fn give(&mut self, frames: &[u8]) -> Result<(), AllocError>
        requires shape { IsSome (shape_in self.old) }
        requires whole { ForSome (shape_in self.old) (λ s. AreFrames s frames.now) }
        ensures given { (s : Stream) → StandsFor self.old s → OnOk result (StandsFor self.new (with_to_give (frames_in s frames.now) s)) }
        ensures memory { (s : Stream) → StandsFor self.old s → OnErr result (StandsFor self.new s) }
        ensures keeps { KeepsSizes self.old self.new }
    {
        self.card.give(frames)
    }

    /// Sets the count of mappings, at most 65,535.
    pub fn set_mappings(&mut self, n: u64)
        requires shape { IsSome (shape_in self.old) }
        requires few { n ≤ 65535 }
        ensures set { (s : Stream) → StandsFor self.old s → StandsFor self.new (set_mappings n s) }
        ensures keeps { KeepsSizes self.old self.new }
    {
        if let Some(runtime) = &mut self.runtime {
            runtime.set_mappings(n);
        }
    }

    /// A card that stands is gone: the substream becomes DISCONNECTED, and its configuration, buffer, positions and mappings
    /// stay (`snd_pcm_dev_disconnect`; the rules are this project's own).
    pub fn unplug(&mut self)
        ensures unplugged { (s : Stream) → StandsFor self.old s → s.card.runs ≡ false → StandsFor self.new (unplugged s) }
        ensures keeps { KeepsCard self.old self.new }
    {
        self.state = State::Disconnected;
        self.kept = None;
    }

    /// Closes the substream: the configuration goes, the card stops, and its lists and its fault plan are emptied
    /// (`snd_pcm_release`; the state CLOSED is this project's own).
    pub fn close_sub(&mut self)
        requires unmapped { (s : Stream) → StandsFor self.old s → s.mappings ≡ 0 }
        ensures closed { (s : Stream) → StandsFor self.old s → StandsFor self.new (closed s) }
        ensures keeps { KeepsFaults self.old self.new }
    {
        self.free();
        self.state = State::Closed;
        self.card.clear_plan();
    }
}
