// Acts on one member of a group: what it says to them, what its card is asked, and what becomes of it (the pre, do, undo
// and post functions of `struct action_ops` in `pcm_native.c`).
ghost use Rattle.std.specs.Prelude.{◌≡◌, ◌&&◌, not, true, None, Some, IsErr, IsSome, OnOk, OnErr, MatchResult, is_err, nat_le, nat_lt};
ghost use Rattle.std.specs.Option.{ForSome};
ghost use Rattle.pcm_base.specs.Causes.{HasCause};
ghost use Rattle.pcm_base.specs.declared.act.Vote.TheVariants.{Yes};
ghost use Rattle.pcm_base.specs.declared.act.Outcome.TheVariants.{Done};
ghost use Rattle.pcm_base.specs.declared.act.Act.TheVariants.{Start, Prepare, Resume, Drain, Watch};
ghost use Rattle.pcm_base.specs.declared.state.Dir.TheVariants.{Playback, Capture};
ghost use Rattle.pcm_base.specs.declared.state.Errno.TheVariants.{Enosys};
ghost use Rattle.pcm_base.specs.model.Stream.{Stream, all_at, avail};
ghost use Rattle.pcm_base.specs.model.Acts.{pre, asks, asked, done, after, trips, drained, stopped, resumed, refuses_unopened};
ghost use Rattle.pcm_base.specs.model.Permit.{permit as permit_table};
ghost use Rattle.pcm_base.specs.model.Sound.{IsPlaced, Sound, is_set_up, is_stop};
ghost use Rattle.pcm_base.specs.model.Update.{fill};
ghost use Rattle.pcm_base.specs.model.Words.{is_playback, runs_in, when, ◌then◌};
ghost use Rattle.pcm_stream.specs.Triggers.{trigger_for, only_if};

use super::Substream;
use crate::runtime::Runtime;
use hw_update::HwPtr;
use pcm_base::{Act, CallKind, Card, CardFailed, Dir, Errno, State, Trigger};
use state_table::permit;

impl Runtime {
    ghost use Rattle.pcm_stream.specs.Runs.{RunsFor};

    // Every pointer is back at the start. The bytes stay.
    fn to_start(&mut self)
        ensures shape { self.new.shape ≡ self.old.shape }
        ensures start { (s : Stream) → RunsFor self.old s → RunsFor self.new (record s { at = all_at s.setup.boundary }) }
    {
        self.ptr = HwPtr { base: 0, hw: 0 };
        self.appl = 0;
        self.filled = 0;
    }
}

// Whether the card of a stream in this state runs.
fn runs_in_state(dir: Dir, state: State) -> bool
    ensures { result ≡ runs_in dir state }
{
    match state {
        State::Running => true,
        State::Draining => matches!(dir, Dir::Playback),
        _ => false,
    }
}

// Only CLOSED, OPEN and DISCONNECTED refuse.
fn vote_unopened(state: State) -> Result<(), Errno>
    ensures { MatchResult result (λ _. refuses_unopened state ≡ None) (λ e. refuses_unopened state ≡ Some e) }
{
    match state {
        State::Closed => Err(Errno::Enxio),
        State::Opened | State::Disconnected => Err(Errno::Ebadfd),
        _ => Ok(()),
    }
}

// A card that cannot do what the call wants is the first cause, the table the second.
fn vote_able(able: bool, kind: CallKind, state: State, dir: Dir) -> Result<(), Errno>
    ensures { MatchResult result (λ _. (when (not able) Enosys then permit_table kind state dir) ≡ None) (λ e. (when (not able) Enosys then permit_table kind state dir) ≡ Some e) }
{
    if able {
        permit(kind, state, dir)
    } else {
        Err(Errno::Enosys)
    }
}

impl<C: Card> Substream<C> {
    ghost use Rattle.pcm_stream.specs.Kept.{KeepsCard, KeepsSizes};
    ghost use Rattle.pcm_stream.specs.StandsFor.{StandsFor, Shows, HasDone, card_of, faults_of, shape_in, tells_plan};

    /// What this member says to an act: its errno where it refuses, the causes in order (`snd_pcm_pre_start` and its kin;
    /// here a stop is never refused, where the kernel's is in OPEN, and a card that cannot resume is told before the state,
    /// as one that cannot pause is).
    pub fn vote(&self, act: Act) -> Result<(), Errno>
        ensures { (s : Stream) → StandsFor self.now s → MatchResult result (λ _. pre s act ≡ None) (λ e. pre s act ≡ Some e) }
    {
        match act {
            Act::Start => self.vote_start(),
            Act::Stop(_) => Ok(()),
            Act::Prepare { stop_first } => self.vote_prepare(stop_first),
            Act::Pause => vote_able(
                self.card.model().can_pause,
                CallKind::PausePush,
                self.state,
                self.dir,
            ),
            Act::Release => vote_able(
                self.card.model().can_pause,
                CallKind::PauseRelease,
                self.state,
                self.dir,
            ),
            Act::Suspend => permit(CallKind::Suspend, self.state, self.dir),
            Act::Resume => vote_able(
                self.card.model().can_resume,
                CallKind::Resume,
                self.state,
                self.dir,
            ),
            Act::Drain => permit(CallKind::Drain, self.state, self.dir),
            Act::Watch => self.vote_watch(),
        }
    }

    fn vote_start(&self) -> Result<(), Errno>
        ensures { (s : Stream) → StandsFor self.now s → MatchResult result (λ _. pre s Start ≡ None) (λ e. pre s Start ≡ Some e) }
    {
        permit(CallKind::Start, self.state, self.dir)?;
        if self.lacks_data() {
            return Err(Errno::Epipe);
        }
        Ok(())
    }

    fn vote_prepare(&self, stop_first: bool) -> Result<(), Errno>
        ensures { (s : Stream) → StandsFor self.now s → MatchResult result (λ _. pre s (Prepare stop_first) ≡ None) (λ e. pre s (Prepare stop_first) ≡ Some e) }
    {
        if stop_first {
            vote_unopened(self.state)
        } else {
            permit(CallKind::Prepare, self.state, self.dir)
        }
    }

    // A playback stream that drains is not at its end yet.
    fn vote_watch(&self) -> Result<(), Errno>
        ensures { (s : Stream) → StandsFor self.now s → MatchResult result (λ _. pre s Watch ≡ None) (λ e. pre s Watch ≡ Some e) }
    {
        match (self.dir, self.state) {
            (Dir::Playback, State::Draining) => Err(Errno::Eagain),
            _ => Ok(()),
        }
    }

    // A playback stream with nothing written, which would stop at once (`snd_pcm_playback_data`).
    fn lacks_data(&self) -> bool
        ensures { (s : Stream) → Shows self.now s → Sound s
            → result ≡ (is_playback s.dir && nat_lt s.setup.sw.stop_threshold s.setup.boundary && nat_le s.setup.buffer (avail s)) }
    {
        match (self.dir, &self.runtime) {
            (Dir::Playback, Some(runtime)) => {
                runtime.sw.stop_threshold < runtime.shape.boundary
                    && runtime.shape.buffer <= runtime.avail(Dir::Playback)
            }
            _ => false,
        }
    }

    // Whether less than the whole buffer is free: on playback, that frames are written.
    fn has_data(&self) -> bool
        ensures { (s : Stream) → Shows self.now s → Sound s → result ≡ nat_lt (avail s) s.setup.buffer }
    {
        match &self.runtime {
            None => false,
            Some(runtime) => runtime.avail(self.dir) < runtime.shape.buffer,
        }
    }

    // Whether there are frames that a client may move.
    fn has_frames(&self) -> bool
        ensures { (s : Stream) → Shows self.now s → Sound s → is_set_up s.state ≡ true → result ≡ nat_lt 0 (avail s) }
    {
        match &self.runtime {
            None => false,
            Some(runtime) => 0 < runtime.avail(self.dir),
        }
    }

    // Whether the card ran before the act: its state says so.
    fn ran(&self) -> bool
        ensures { (s : Stream) → Shows self.now s → Sound s → result ≡ s.card.runs }
    {
        runs_in_state(self.dir, self.state)
    }

    // What an act asks of the card, by the state before it.
    fn trigger_for(&self, act: Act) -> Option<Trigger>
        ensures { (s : Stream) → Shows self.now s → Sound s → result ≡ trigger_for act s }
    {
        match act {
            Act::Start => Some(Trigger::Start),
            Act::Stop(_) => self.if_ran(Trigger::Stop),
            Act::Prepare { stop_first } => {
                if stop_first {
                    self.if_ran(Trigger::Stop)
                } else {
                    None
                }
            }
            Act::Pause => Some(Trigger::PausePush),
            Act::Release => Some(Trigger::PauseRelease),
            Act::Suspend => self.if_ran(Trigger::Suspend),
            Act::Resume => self.resume_trigger(),
            Act::Drain => self.drain_trigger(),
            Act::Watch => None,
        }
    }

    // Only a card that runs is stopped.
    fn if_ran(&self, t: Trigger) -> Option<Trigger>
        ensures { (s : Stream) → Shows self.now s → Sound s → result ≡ only_if s.card.runs t }
    {
        if self.ran() { Some(t) } else { None }
    }

    fn resume_trigger(&self) -> Option<Trigger>
        ensures { (s : Stream) → Shows self.now s → result ≡ trigger_for Resume s }
    {
        match self.kept {
            Some(state) if runs_in_state(self.dir, state) => Some(Trigger::Resume),
            _ => None,
        }
    }

    fn drain_trigger(&self) -> Option<Trigger>
        ensures { (s : Stream) → Shows self.now s → Sound s → result ≡ trigger_for Drain s }
    {
        match (self.dir, self.state) {
            (Dir::Playback, State::Prepared) if self.has_data() => Some(Trigger::Start),
            (Dir::Capture, State::Running) => Some(Trigger::Stop),
            _ => None,
        }
    }

    /// Asks of the card what the act needs of it, where `vote` allows the act (`snd_pcm_do_start` and its kin; here a pause
    /// makes no update, and a drain whose start fails is refused). A card that fails leaves all but its fault plan as before.
    pub fn do_act(&mut self, act: Act) -> Result<(), CardFailed>
        requires voted { (s : Stream) → StandsFor self.old s → pre s act ≡ None }
        ensures done { (s : Stream) → StandsFor self.old s → OnOk result (HasDone act self.new s) }
        ensures failed { (s : Stream) → StandsFor self.old s → OnErr result (StandsFor self.new (asked s act)) }
        ensures trips { (s : Stream) → StandsFor self.old s → IsSome (card_of self.old).plan → is_err result ≡ trips s act }
        ensures asked { (s : Stream) → StandsFor self.old s → IsErr result → asks s act ≡ true }
        ensures cause { HasCause (faults_of self.old) (faults_of self.new) result }
        ensures shape { shape_in self.new ≡ shape_in self.old }
        ensures tells { tells_plan self.new ≡ tells_plan self.old }
    {
        match self.trigger_for(act) {
            Some(trigger) => self.card.trigger(trigger),
            None => Ok(()),
        }
    }

    /// Takes back what `do_act` asked of the card. Its fault plan has moved on (`snd_pcm_undo_start` and its kin; the
    /// kernel's asks the card by a trigger, which may fail, and this never does).
    pub fn undo_act(&mut self, act: Act)
        ensures undone { (s : Stream) → HasDone act self.old s → StandsFor self.new (asked s act) }
        ensures keeps { KeepsSizes self.old self.new }
    {
        if let Some(trigger) = self.trigger_for(act) {
            if self.card.runs() != self.ran() {
                self.card.undo(trigger);
            }
        }
    }

    /// What becomes of the member once every card has done its part (`snd_pcm_post_start` and its kin, some of which wake
    /// sleepers too; here the check at the end of a step does). A stop is to SETUP or XRUN.
    pub fn post_act(&mut self, act: Act)
        requires stop { is_stop act ≡ true }
        ensures done { (s : Stream) → HasDone act self.old s → StandsFor self.new (after act Yes Done s) }
        ensures keeps { KeepsSizes self.old self.new }
    {
        match act {
            Act::Start => {
                self.state = State::Running;
                self.put_silence();
            }
            Act::Stop(state) => self.post_stop(state),
            Act::Prepare { stop_first: _ } => self.post_prepare(),
            Act::Pause => self.state = State::Paused,
            Act::Release => self.state = State::Running,
            Act::Suspend => {
                self.kept = Some(self.state);
                self.state = State::Suspended;
            }
            Act::Resume => self.post_resume(),
            Act::Drain => self.post_drain(),
            Act::Watch => {}
        }
    }

    // A member that no client has configured, or whose card is gone, stays.
    fn post_stop(&mut self, state: State)
        ensures shows { (s : Stream) → Shows self.old s → Shows self.new (stopped state s) }
        ensures keeps { KeepsCard self.old self.new }
    {
        match self.state {
            State::Opened | State::Closed | State::Disconnected => {}
            _ => {
                self.state = state;
                self.kept = None;
            }
        }
    }

    fn post_prepare(&mut self)
        ensures shows { (s : Stream) → Shows self.old s → Shows self.new (done (Prepare true) s) }
        ensures runs { (card_of self.new).runs ≡ (card_of self.old).runs }
        ensures plan { (card_of self.new).plan ≡ (card_of self.old).plan }
        ensures keeps { KeepsSizes self.old self.new }
    {
        self.state = State::Prepared;
        self.kept = None;
        self.card.to_start();
        if let Some(runtime) = &mut self.runtime {
            runtime.to_start();
        }
    }

    fn post_resume(&mut self)
        ensures shows { (s : Stream) → Shows self.old s → Shows self.new (resumed s) }
        ensures keeps { KeepsCard self.old self.new }
    {
        if let Some(state) = self.kept {
            self.state = state;
            self.kept = None;
        }
    }

    // What was written is played; what was captured can be read.
    fn post_drain(&mut self)
        ensures shows { (s : Stream) → Shows self.old s → Sound s → Shows self.new (drained s) }
        ensures keeps { KeepsCard self.old self.new }
    {
        match self.dir {
            Dir::Playback => self.post_drain_playback(),
            Dir::Capture => self.post_drain_capture(),
        }
    }

    fn post_drain_playback(&mut self)
        ensures shows { (s : Stream) → s.dir ≡ Playback → Shows self.old s → Sound s → Shows self.new (drained s) }
        ensures keeps { KeepsCard self.old self.new }
    {
        match self.state {
            State::Prepared => {
                if self.has_data() {
                    self.state = State::Draining;
                    self.put_silence();
                } else {
                    self.state = State::Setup;
                }
            }
            State::Running => self.state = State::Draining,
            State::Xrun => self.state = State::Setup,
            _ => {}
        }
    }

    fn post_drain_capture(&mut self)
        ensures shows { (s : Stream) → s.dir ≡ Capture → Shows self.old s → Sound s → Shows self.new (drained s) }
        ensures keeps { KeepsCard self.old self.new }
    {
        if let State::Running = self.state {
            if self.has_frames() {
                self.state = State::Draining;
            } else {
                self.state = State::Setup;
            }
        }
    }

    // Silence ahead of what a playback client has written.
    fn put_silence(&mut self)
        ensures shows { (s : Stream) → Shows self.old s → ForSome s.setup.config (λ _. IsPlaced s) → Shows self.new (fill s) }
        ensures keeps { KeepsCard self.old self.new }
    {
        match self.dir {
            Dir::Playback => {
                if let Some(runtime) = &mut self.runtime {
                    runtime.fill();
                }
            }
            Dir::Capture => {}
        }
    }
}
