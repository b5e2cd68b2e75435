// A substream: who it is and where it stands, and its set-up. Its other methods stand in `substream/`: software parameters, what is
// mapped, and closing in `params.rt`, the pointer calls in `pointers.rt`, what clients get and store in `buffer.rt`, updates and what
// moves in `moves.rt`, its part in acts in `acts.rt`.
ghost use Rattle.std.specs.Prelude.{◌≡◌, ◌≢◌, ◌<◌, ◌≤◌, ◌-◌, ◌%◌, ◌^◌, [], true, false, None, Some, length, min, IsSome, OnOk, MatchResult, IfErr, IfSome, IfNone};
ghost use Rattle.std.specs.Option.{ForSome, ForNone, option_copied, option_map};
ghost use Rattle.pcm_base.specs.model.Frame.{bytes_of};
ghost use Rattle.pcm_base.specs.model.Stream.{Stream, fresh, no_plan};

mod acts;
mod buffer;
mod moves;
mod params;
mod pointers;

use crate::runtime::Runtime;
use hw_params::check;
use pcm_base::{CallKind, Card, Config, Dir, Errno, Page, Shape, State, SwParams};
use state_table::permit;
use std::alloc::Global;

/// Why `hw_params` set nothing up.
#[derive(Clone, Copy, Debug, PartialEq, Eq)]
pub enum HwRefusal {
    /// The call was refused.
    Errno(Errno),
    /// There was no memory for the buffer.
    Memory,
}

/// Why no frame moved between the buffer and the card.
#[derive(Clone, Copy, Debug, PartialEq, Eq)]
pub enum DmaRefusal {
    /// The movement would come to a whole buffer before it is reported; so many frames may still move.
    Late(u64),
    /// The card does not run.
    Idle,
    /// The card would hold so many bytes, more than it may.
    Limit(u64),
    /// There was no memory for the frames taken.
    Memory,
}

/// A playback or capture stream over a card (`struct snd_pcm_substream`). It stands for a stream of the model, as
/// `specs/StandsFor.antt` says.
#[derive(Drop)]
pub struct Substream<C: Card> {
    alloc: Global,
    card: C,
    dir: Dir,
    long_max: u64,
    state: State,
    kept: Option<State>,
    runtime: Option<Runtime>,
    ghost set_up: { ForSome runtime (λ r. (C.facts card).shape ≡ Some r.shape) },
    ghost long: { long_max < 2 ^ 36 },
    ghost held: { length (C.facts card).taken ≤ 67108864 },
    ghost planned: { ForSome (C.facts card).plan (λ plan. length plan ≡ 64) },
}

impl<C: Card> Substream<C> {
    ghost use Rattle.pcm_base.specs.model.Events.{page as page_of, freed};
    ghost use Rattle.pcm_base.specs.Shape.{IsSoundShape};
    ghost use Rattle.pcm_base.specs.declared.config.Config.{Config as Configuration};
    ghost use Rattle.pcm_base.specs.declared.state.Errno.{Errno as ErrnoOf};
    ghost use Rattle.pcm_base.specs.model.Allowed.{accepts, shape_of};
    ghost use Rattle.pcm_base.specs.model.Words.{is_closed};
    ghost use Rattle.pcm_stream.specs.Kept.{KeepsCard, KeepsFaults};
    ghost use Rattle.pcm_stream.specs.Mappings.{mappings_in};
    ghost use Rattle.pcm_stream.specs.Runs.{IsNewRuntime};
    ghost use Rattle.pcm_stream.specs.SetUp.{change_refusal, hw_refusal, configured_by};
    ghost use Rattle.pcm_stream.specs.StandsFor.{StandsFor, IsShapeOf, card_of, faults_of, shape_in};

    /// A substream that no client has opened, over a card that stands, has no frames taken and none to give, and has no
    /// fault planned. `long_max` is the LONG_MAX of the session, at most 2^36 - 1. Its buffer will be taken from `alloc`.
    pub fn new(alloc: Global, card: C, dir: Dir, long_max: u64) -> Substream<C>
        requires long { long_max < 2 ^ 36 }
        requires stands { (C.facts card).runs ≡ false }
        requires taken { (C.facts card).taken ≡ [] }
        requires to_give { (C.facts card).to_give ≡ [] }
        requires plan { ForSome (C.facts card).plan (λ plan. plan ≡ no_plan) }
        ensures fresh { StandsFor result (fresh (C.facts card).model dir long_max) }
        ensures card { card_of result ≡ C.facts card }
        ensures faults { faults_of result ≡ C.faults card }
    {
        Substream {
            alloc,
            card,
            dir,
            long_max,
            state: State::Closed,
            kept: None,
            runtime: None,
        }
    }

    /// The state.
    pub fn state(&self) -> State
        ensures { (s : Stream) → StandsFor self.now s → result ≡ s.state }
    {
        self.state
    }

    /// The direction.
    pub fn dir(&self) -> Dir
        ensures { (s : Stream) → StandsFor self.now s → result ≡ s.dir }
    {
        self.dir
    }

    /// The card. What it has taken are whole frames, at most 67,108,864 bytes.
    pub fn card(&self) -> &C
        ensures card { C.facts result.now ≡ card_of self.now }
        ensures faults { C.faults result.now ≡ faults_of self.now }
        ensures taken { (s : Stream) → StandsFor self.now s → (C.facts result.now).taken ≡ bytes_of s.card.taken }
        ensures whole { (s : Stream) → StandsFor self.now s → ForSome s.setup.config (λ _. length (C.facts result.now).taken % s.setup.frame_bytes ≡ 0) }
        ensures limit { length (C.facts result.now).taken ≤ 67108864 }
    {
        &self.card
    }

    /// The state and the pointers, all zero without a configuration.
    pub fn page(&self) -> Page
        ensures page { (s : Stream) → StandsFor self.now s → result ≡ page_of s }
        ensures bound { result.avail < 2 ^ 36 }
        ensures hw { result.hw < 2 ^ 36 }
    {
        match &self.runtime {
            None => Page {
                state: self.state,
                hw: 0,
                appl: 0,
                avail: 0,
            },
            Some(runtime) => Page {
                state: self.state,
                hw: runtime.ptr.hw,
                appl: runtime.appl,
                avail: runtime.avail(self.dir),
            },
        }
    }

    /// The sizes of the configuration, where there is one.
    pub fn shape(&self) -> Option<&Shape>
        ensures value { option_copied result ≡ shape_in self.now }
        ensures exact { (s : Stream) → StandsFor self.now s → shape_in self.now ≡ option_map (λ c. shape_of c s.long_max) s.setup.config }
        ensures sound { IfSome (shape_in self.now) IsSoundShape }
        ensures model { (s : Stream) → StandsFor self.now s → IfSome (shape_in self.now) (IsShapeOf s) }
        ensures none { (s : Stream) → StandsFor self.now s → IfNone (shape_in self.now) (s.setup.config ≡ None) }
    {
        match &self.runtime {
            None => None,
            Some(runtime) => Some(&runtime.shape),
        }
    }

    /// The configuration, where there is one.
    pub fn config(&self) -> Option<&Config>
        ensures { (s : Stream) → StandsFor self.now s → option_copied result ≡ s.setup.config }
    {
        match &self.runtime {
            None => None,
            Some(runtime) => Some(&runtime.config),
        }
    }

    /// The software parameters, where there is a configuration (`snd_pcm_sw_params`).
    pub fn sw(&self) -> Option<&SwParams>
        ensures { (s : Stream) → StandsFor self.now s → option_copied result ≡ option_map (λ _. s.setup.sw) s.setup.config }
    {
        match &self.runtime {
            None => None,
            Some(runtime) => Some(&runtime.sw),
        }
    }

    /// The frames that the card has moved since the last accepted `hw_params`, 2^64 - 1 where there are more.
    pub fn moved_total(&self) -> u64
        ensures { (s : Stream) → StandsFor self.now s → result ≡ min s.moved (2 ^ 64 - 1) }
    {
        match &self.runtime {
            None => 0,
            Some(runtime) => runtime.moved,
        }
    }

    /// A client opens the substream; EBUSY exactly where one has, and nothing changes then (`snd_pcm_open_substream`; that
    /// one client at a time has it open is this project's own).
    pub fn open_sub(&mut self) -> Result<(), Errno>
        ensures ok { (s : Stream) → StandsFor self.old s → OnOk result ((is_closed s.state ≡ true) × StandsFor self.new (record s { state = State.Opened })) }
        ensures busy { (s : Stream) → StandsFor self.old s → IfErr result (λ e. (e ≡ Errno.Ebusy) × (is_closed s.state ≡ false) × StandsFor self.new s) }
        ensures keeps { KeepsCard self.old self.new }
    {
        match self.state {
            State::Closed => {
                self.state = State::Opened;
                Ok(())
            }
            _ => Err(Errno::Ebusy),
        }
    }

    /// Sets the substream up for a configuration: a buffer of zero bytes, all positions back, the software parameters of the
    /// start (`snd_pcm_hw_params`; the kernel's is busy only while bytes are copied, and leaves the pointers to a prepare).
    /// Refused by the error table, EBADFD where mapped, EBUSY where a call is in progress on it (`busy`), all with nothing
    /// changed; then EINVAL where the card's model does not allow the configuration or `long_max`
    /// is below four buffers, which frees what was set up; then Memory, with nothing changed.
    pub fn hw_params(&mut self, config: &Config, busy: bool) -> Result<(), HwRefusal>
        ensures ok { (s : Stream) → StandsFor self.old s → OnOk result ((hw_refusal busy s ≡ None) × (accepts s.model s.long_max config.now ≡ true) × StandsFor self.new (configured_by config.now s)) }
        ensures refused { (s : Stream) → StandsFor self.old s → (e : ErrnoOf) → hw_refusal busy s ≡ Some e → (result ≡ Err (HwRefusal.Errno e)) × StandsFor self.new s }
        ensures einval { (s : Stream) → StandsFor self.old s → hw_refusal busy s ≡ None → accepts s.model s.long_max config.now ≡ false
            → (result ≡ Err (HwRefusal.Errno Errno.Einval)) × StandsFor self.new (freed s) }
        ensures granted { (s : Stream) → StandsFor self.old s → hw_refusal busy s ≡ None → accepts s.model s.long_max config.now ≡ true → IfErr result (λ e. e ≡ HwRefusal.Memory) }
        ensures memory { (s : Stream) → StandsFor self.old s → result ≡ Err HwRefusal.Memory
            → (hw_refusal busy s ≡ None) × (accepts s.model s.long_max config.now ≡ true) × StandsFor self.new s }
        ensures keeps { KeepsFaults self.old self.new }
    {
        if let Err(e) = self.change_allowed(CallKind::HwParams, busy) {
            return Err(HwRefusal::Errno(e));
        }
        let shape = match check(self.card.model(), config, self.long_max) {
            Ok(shape) => shape,
            Err(e) => {
                self.free();
                return Err(HwRefusal::Errno(e));
            }
        };
        match Runtime::new(self.alloc, config, &shape) {
            Ok(runtime) => {
                self.take_up(&shape, runtime);
                Ok(())
            }
            Err(_) => Err(HwRefusal::Memory),
        }
    }

    // Whether a call of this kind may change the configuration now.
    fn change_allowed(&self, kind: CallKind, busy: bool) -> Result<(), Errno>
        ensures { (s : Stream) → StandsFor self.now s → MatchResult result (λ _. change_refusal kind busy s ≡ None) (λ e. change_refusal kind busy s ≡ Some e) }
    {
        permit(kind, self.state, self.dir)?;
        if self.mappings() > 0 {
            return Err(Errno::Ebadfd);
        }
        if busy {
            return Err(Errno::Ebusy);
        }
        Ok(())
    }

    /// The mappings; none without a configuration.
    pub fn mappings(&self) -> u64
        ensures model { (s : Stream) → StandsFor self.now s → result ≡ s.mappings }
        ensures value { result ≡ mappings_in self.now }
        ensures shape { result ≢ 0 → IsSome (shape_in self.now) }
        ensures bound { result ≤ 65535 }
    {
        match &self.runtime {
            None => 0,
            Some(runtime) => runtime.mappings,
        }
    }

    // The configuration goes, with its buffer, and the card's lists are emptied.
    fn free(&mut self)
        ensures model { (s : Stream) → StandsFor self.old s → s.mappings ≡ 0 → StandsFor self.new (freed s) }
        ensures keeps { KeepsFaults self.old self.new }
    {
        if let Some(runtime) = &self.runtime {
            self.card.set_up(&runtime.shape);
        }
        self.runtime = None;
        self.state = State::Opened;
        self.kept = None;
    }

    // What was set up for an accepted configuration takes its place.
    fn take_up(&mut self, shape: &Shape, runtime: Runtime)
        requires sound { IsSoundShape shape.now }
        requires shape { runtime.shape ≡ shape.now }
        ensures model { (s : Stream) (c : Configuration) → StandsFor self.old s → accepts s.model s.long_max c ≡ true → shape.now ≡ shape_of c s.long_max → s.mappings ≡ 0
            → IsNewRuntime c shape.now runtime → StandsFor self.new (configured_by c s) }
        ensures keeps { KeepsFaults self.old self.new }
    {
        self.card.set_up(shape);
        self.runtime = Some(runtime);
        self.state = State::Setup;
        self.kept = None;
    }
}
