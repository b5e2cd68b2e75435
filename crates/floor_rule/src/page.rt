// The page word: how many entries a log has, and the state and the shown hardware position after the last.
ghost use Rattle.std.specs.Prelude.{◌≡◌, ◌<◌, ◌^◌, ◌/◌, ◌%◌, ℕ};
ghost use Rattle.pcm_base.specs.Numbers.{state_number};
ghost use Rattle.floor_rule.specs.Pages.{IsPageWord, page_word};
ghost use Rattle.floor_rule.specs.Marks.{Shown};
ghost use Rattle.pcm_base.specs.declared.state.State.{State};

use pcm_base::State;

/// The parts of a page word: the count of entries, the state, and the shown hardware position in frames.
#[derive(Clone, Copy, Debug, PartialEq, Eq)]
pub struct Glance {
    pub count: u32,
    pub state: State,
    pub hw: u64,
}

const FOR_COUNT: u64 = 1_099_511_627_776;

const FOR_STATE: u64 = 68_719_476_736;

/// The page word of these parts.
pub fn pack(count: u32, state: State, hw: u64) -> u64
    requires count { count < 2 ^ 24 }
    requires hw { hw < 2 ^ 36 }
    ensures { result ≡ page_word count (record { state = state; hw = hw }) }
{
    u64::from(count) * FOR_COUNT + u64::from(state.number()) * FOR_STATE + hw
}

// The state of this number.
fn state_of(number: u64) -> State
    ensures { (s : State) → number ≡ state_number s → result ≡ s }
{
    match number {
        0 => State::Opened,
        1 => State::Setup,
        2 => State::Prepared,
        3 => State::Running,
        4 => State::Xrun,
        5 => State::Draining,
        6 => State::Paused,
        7 => State::Suspended,
        8 => State::Disconnected,
        _ => State::Closed,
    }
}

/// The parts of a page word.
pub fn unpack(word: u64) -> Glance
    requires { IsPageWord word }
    ensures parts { (count : ℕ) (shown : Shown) → count < 2 ^ 24 → shown.hw < 2 ^ 36 → word ≡ page_word count shown
        → (result.count ≡ count) × (result.state ≡ shown.state) × (result.hw ≡ shown.hw) }
{
    Glance {
        count: (word / FOR_COUNT) as u32,
        state: state_of(word / FOR_STATE % 16),
        hw: word % FOR_STATE,
    }
}
