// What is wrong with a line that may not stand behind those before it.
ghost use Rattle.std.specs.Prelude.{◌≡◌, ◌&&◌, None, Some, nat_lt};
ghost use Rattle.live_plan.specs.Rules.{unless, out_of_place, wrong_piece as wrong_piece_of, has_second as has_second_of, is_made_in as is_made_in_of, is_mode_of as is_mode_of_call, long_fault, card_fault, event_fault, sub_fault, beat_fault};
ghost use Rattle.live_plan.specs.Said.{has_beat as has_beat_in, is_setup, is_workers};

use crate::part::Part;
use crate::place::piece_at;
use pcm_base::{Call, Event, Mode, SubId};
use pcm_line::{Line, LineError};

// The piece of this number, the keyword being piece 0.
fn wrong_piece(bytes: &[u8], number: usize) -> Option<LineError>
    ensures { result ≡ Some (wrong_piece_of bytes.now number) }
{
    Some(LineError::Word(piece_at(bytes, number)))
}

// That of a line of one word, which has its place here or not.
fn of_word(here: bool) -> Option<LineError>
    ensures { result ≡ unless here out_of_place None }
{
    if here { None } else { Some(LineError::Word(0)) }
}

/// That of `threads`: it ends the setup, in which a card was declared.
pub fn threads(part: Part, cards: usize) -> Option<LineError>
    ensures { result ≡ unless (is_setup part && nat_lt 0 cards) out_of_place None }
{
    of_word(part.is_setup() && cards > 0)
}

/// That of `join`: it ends the workers' part.
pub fn join(part: Part) -> Option<LineError>
    ensures { result ≡ unless (is_workers part) out_of_place None }
{
    of_word(part.is_workers())
}

/// That of a line that no plan has.
pub fn unplanned() -> Option<LineError>
    ensures { result ≡ Some out_of_place }
{
    of_word(false)
}

/// That of a `long` line behind so many lines: it stands first, and its number is from 15 to 2^36 - 1.
pub fn long(count: u64, n: u64, bytes: &[u8]) -> Option<LineError>
    ensures { result ≡ long_fault count n bytes.now }
{
    if count != 0 {
        return Some(LineError::Word(0));
    }
    if n < 15 || n >= 1 << 36 {
        return Some(LineError::Number(piece_at(bytes, 1)));
    }
    None
}

/// That of a `card` line: it stands in the setup, before every call, event and feed, and declares the next substream.
pub fn card(part: Part, early: bool, cards: usize, sub: SubId, bytes: &[u8]) -> Option<LineError>
    ensures { result ≡ card_fault part early cards sub bytes.now }
{
    if !(part.is_setup() && early) {
        return Some(LineError::Word(0));
    }
    if usize::from(sub.0) == cards {
        return None;
    }
    wrong_piece(bytes, 1)
}

// No go is planned; the setup has calls of clients and events of cards, the workers' part calls of clients.
fn is_made_in(part: Part, event: &Event) -> bool
    ensures { result ≡ is_made_in_of part event.now }
{
    let no_go = !matches!(event.call, Call::Go);
    match part {
        Part::Setup => no_go,
        Part::Workers => no_go && event.client.is_some(),
        Part::End => false,
    }
}

// In the setup no call may wait.
fn is_mode_of(part: Part, call: &Call) -> bool
    ensures { result ≡ is_mode_of_call part call.now }
{
    match (part, call) {
        (Part::Setup, Call::Drain(Mode::Block)) => false,
        (Part::Setup, Call::Write(_, Mode::Block)) => false,
        (Part::Setup, Call::Read(_, Mode::Block, _)) => false,
        _ => true,
    }
}

// The second substream of a link is declared.
fn has_second(cards: usize, call: &Call) -> bool
    ensures { result ≡ has_second_of cards call.now }
{
    match call {
        Call::Link(second) => usize::from(second.0) < cards,
        _ => true,
    }
}

/// That of an event: it has its place in this part, on a declared substream; in the setup it may not wait, and the second
/// substream of a link is declared.
pub fn event(part: Part, cards: usize, event: &Event, bytes: &[u8]) -> Option<LineError>
    ensures { result ≡ event_fault part cards event.now bytes.now }
{
    if !is_made_in(part, event) {
        return Some(LineError::Word(0));
    }
    if usize::from(event.sub.0) >= cards {
        let number = if event.client.is_some() { 2 } else { 1 };
        return wrong_piece(bytes, number);
    }
    if is_mode_of(part, &event.call) && has_second(cards, &event.call) {
        return None;
    }
    wrong_piece(bytes, 3)
}

/// That of a line that names a declared substream, and has its place here or not.
pub fn on_sub(here: bool, cards: usize, sub: SubId, bytes: &[u8]) -> Option<LineError>
    ensures { result ≡ sub_fault here cards sub bytes.now }
{
    if !here {
        return Some(LineError::Word(0));
    }
    if usize::from(sub.0) < cards {
        return None;
    }
    wrong_piece(bytes, 1)
}

// One of at most sixteen `beat` lines is of the substream.
fn has_beat(beats: &[Line], sub: SubId) -> bool
    ensures { result ≡ has_beat_in sub beats.now }
{
    beats.iter().any(|line| matches!(line, Line::Beat(other, ..) if other.0 == sub.0))
}

/// That of a `beat` line: it stands in the workers' part, names a declared substream, and is the only one of it.
pub fn beat(part: Part, cards: usize, beats: &[Line], sub: SubId, bytes: &[u8]) -> Option<LineError>
    ensures { result ≡ beat_fault part cards beats.now sub bytes.now }
{
    if !part.is_workers() {
        return Some(LineError::Word(0));
    }
    if usize::from(sub.0) >= cards || has_beat(beats, sub) {
        return wrong_piece(bytes, 1);
    }
    None
}
