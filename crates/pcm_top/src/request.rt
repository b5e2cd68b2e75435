// What the words of a command line ask for.
ghost use Rattle.std.specs.Prelude.{◌≡◌, ◌∷◌, [], ℕ, IfSome, IfNone, codes, map, string_bytes};
ghost use Rattle.pcm_top.specs.declared.request.Request.{Request as RequestOf};
ghost use Rattle.pcm_top.specs.Request.{Asks, IsNumber, command_named};

use crate::command::Command;
use itoa::Buffer;
use pcm_base::Name;

/// What the words of a command line ask for: a script's command, a file to be played into another, frames of a file to be
/// recorded into another, or the run of a generated script. This project's own.
#[derive(Drop)]
pub enum Request {
    Script(Command),
    Play(Name, Name, u64, u64),
    Capture(Name, Name, u64),
    Gen(u64),
}

fn command_of(word: &str) -> Option<Command>
    ensures { result ≡ command_named word.now }
{
    match word {
        "run" => Some(Command::Run),
        "refine" => Some(Command::Refine),
        _ => None,
    }
}

// The number that a word is, in its one spelling and below 2^63.
fn number_of(word: &str) -> Option<u64>
    ensures some { IfSome result (λ n. IsNumber word.now n) }
    ensures none { IfNone result ((n : ℕ) → ¬ IsNumber word.now n) }
{
    let number = match word.parse::<u64>() {
        Ok(number) => number,
        Err(_) => return None,
    };
    let mut buffer = Buffer::new();
    if number < 1 << 63 && buffer.format(number) == word {
        Some(number)
    } else {
        None
    }
}

// `run` or `refine`
fn script_request(word: &str) -> Option<Request>
    ensures some { IfSome result (λ request. Asks (word.now ∷ []) request) }
    ensures none { IfNone result ((request : RequestOf) → ¬ Asks (word.now ∷ []) request) }
{
    Some(Request::Script(command_of(word)?))
}

// `gen N`
fn gen_request(number: &str) -> Option<Request>
    ensures some { IfSome result (λ request. Asks (codes "gen" ∷ number.now ∷ []) request) }
    ensures none { IfNone result ((request : RequestOf) → ¬ Asks (codes "gen" ∷ number.now ∷ []) request) }
{
    Some(Request::Gen(number_of(number)?))
}

// `capture IN OUT N`
fn capture_request(from: &str, to: &str, frames: &str) -> Option<Request>
    ensures some { IfSome result (λ request. Asks (codes "capture" ∷ from.now ∷ to.now ∷ frames.now ∷ []) request) }
    ensures none { IfNone result ((request : RequestOf) → ¬ Asks (codes "capture" ∷ from.now ∷ to.now ∷ frames.now ∷ []) request) }
{
    Some(Request::Capture(
        Name::of(from.as_bytes())?,
        Name::of(to.as_bytes())?,
        number_of(frames)?,
    ))
}

// `play IN OUT PERIOD PERIODS`
fn play_request(from: &str, to: &str, period: &str, periods: &str) -> Option<Request>
    ensures some { IfSome result (λ request. Asks (codes "play" ∷ from.now ∷ to.now ∷ period.now ∷ periods.now ∷ []) request) }
    ensures none { IfNone result ((request : RequestOf) → ¬ Asks (codes "play" ∷ from.now ∷ to.now ∷ period.now ∷ periods.now ∷ []) request) }
{
    Some(Request::Play(
        Name::of(from.as_bytes())?,
        Name::of(to.as_bytes())?,
        number_of(period)?,
        number_of(periods)?,
    ))
}

/// What these words ask for; None where they have none of the five forms. This project's own.
pub fn request_of(words: &[String]) -> Option<Request>
    ensures some { IfSome result (λ request. Asks (map string_bytes words.now) request) }
    ensures none { IfNone result ((request : RequestOf) → ¬ Asks (map string_bytes words.now) request) }
{
    match words {
        [word] => script_request(word),
        [word, number] => match word.as_str() {
            "gen" => gen_request(number),
            _ => None,
        },
        [word, from, to, frames] => match word.as_str() {
            "capture" => capture_request(from, to, frames),
            _ => None,
        },
        [word, from, to, period, periods] => match word.as_str() {
            "play" => play_request(from, to, period, periods),
            _ => None,
        },
        _ => None,
    }
}
