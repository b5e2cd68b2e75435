// The worker of a card.
ghost use Rattle.std.specs.Prelude.{◌≡◌, ◌<◌, ◌∷◌, [], true, OnOk, OnErr, length};
ghost use Rattle.pcm_base.specs.model.Words.{runs_in};
ghost use Rattle.pcm_group.specs.Turn.{is_card_event};
ghost use Rattle.room_parts.specs.declared.pass.Caller.TheVariants.{Card as CardCaller};
ghost use Rattle.live_work.specs.Beats.{HasBeaten, HasBeatenFirst, by_card};
ghost use Rattle.live_work.specs.Called.{HasCalled, IsSameCaller};

use crate::calls::Calls;
use crate::crew::{Crew, Stop};
use crossbeam_utils::Backoff;
use pcm_base::{Call, Dir, Event, State, SubId};
use room_lock::Answer;
use room_parts::{FloorName, Pass};
use std::sync::Wait;

/// The beats of a card: its substream and direction, the frames of each beat, and the count of beats.
#[derive(Clone, Copy, Debug, PartialEq, Eq)]
pub struct Beats {
    pub sub: SubId,
    pub dir: Dir,
    pub frames: u64,
    pub count: u64,
}

// Whether a substream in this state runs.
fn runs(dir: Dir, state: State) -> bool
    ensures { result ≡ runs_in dir state }
{
    match (dir, state) {
        (_, State::Running) | (Dir::Playback, State::Draining) => true,
        _ => false,
    }
}

// Looks at the page until the substream runs or all clients have ended.
#[tactic(auto, using(crate::proofs::Called::none_called))]
fn wait_to_run<N: FloorName, F: Calls<N>, R: Wait>(
    rt: &R,
    floor: &F,
    crew: &Crew,
    pass: &mut Pass<N>,
    sub: SubId,
    dir: Dir,
) -> Result<(), Stop>
    requires card { sub.0 < length N.cards }
    ensures none { HasCalled N.cards N.long_max [] pass.old pass.new }
    ensures same { IsSameCaller pass.old pass.new }
{
    let backoff = Backoff::new();
    for _ in rt.forever() {
        if let Some(why) = crew.stopped() {
            return Err(why);
        }
        let page = floor.page(pass, sub);
        if runs(dir, page.state) || crew.has_left() {
            return Ok(());
        }
        backoff.snooze();
    }
    unreachable!()
}

// An event of the card: the clients that it marks awake are woken. A card with a call in progress makes none.
#[tactic(auto, using(crate::proofs::Called::none_called))]
fn raise<N: FloorName, F: Calls<N>, R: Wait>(
    rt: &R,
    floor: &F,
    crew: &Crew,
    pass: &mut Pass<N>,
    sub: SubId,
    call: Call,
) -> Result<(), Stop>
    requires card { sub.0 < length N.cards }
    requires event { is_card_event call ≡ true }
    requires caller { pass.old.caller ≡ CardCaller sub }
    ensures made { OnOk result (HasCalled N.cards N.long_max (by_card sub call ∷ []) pass.old pass.new) }
    ensures none { OnErr result (HasCalled N.cards N.long_max [] pass.old pass.new) }
    ensures same { IsSameCaller pass.old pass.new }
{
    let event = Event {
        client: None,
        sub,
        call,
    };
    if pass.busy().is_some() {
        return Err(crew.stop(Stop::Memory));
    }
    match floor.call(rt, pass, &event, &mut []) {
        Answer::Done { woken, .. } => {
            crew.wake(woken);
            Ok(())
        }
        Answer::LogFull(..) => Err(crew.stop(Stop::LogFull)),
        Answer::Memory => Err(crew.stop(Stop::Memory)),
    }
}

/// The worker of a card, by its pass: for each of its beats it looks at the page until the substream runs or all clients of the
/// crew have ended, and then moves the frames and interrupts. The clients that these events mark awake are woken. It may wait
/// for ever. It stops where a log takes no more entries, where there is no memory, and where another worker did; all workers are
/// then to stop, and the pass has made the events of the first beats, the last of them perhaps without its interrupt.
pub fn run_card<N: FloorName, F: Calls<N>, R: Wait>(
    rt: &R,
    floor: &F,
    crew: &Crew,
    pass: &mut Pass<N>,
    beats: Beats,
) -> Result<(), Stop>
    requires card { beats.sub.0 < length N.cards }
    requires caller { pass.old.caller ≡ CardCaller beats.sub }
    ensures beaten { OnOk result (HasBeaten N.cards N.long_max beats.sub beats.frames beats.count pass.old pass.new) }
    ensures first { HasBeatenFirst N.cards N.long_max beats.sub beats.frames beats.count pass.old pass.new }
    ensures same { IsSameCaller pass.old pass.new }
{
    let Beats {
        sub,
        dir,
        frames,
        count,
    } = beats;
    for _beat in 0..count {
        wait_to_run(rt, floor, crew, pass, sub, dir)?;
        raise(rt, floor, crew, pass, sub, Call::MoveBy(frames))?;
        raise(rt, floor, crew, pass, sub, Call::Irq)?;
    }
    Ok(())
}
