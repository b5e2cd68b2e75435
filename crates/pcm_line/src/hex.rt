// Bytes as pairs of hex digits.
ghost use Rattle.std.specs.Prelude.{◌≡◌, ◌<◌, ◌*◌, IfOk, OnOk, ◌++◌, ◌∷◌, [], length};
ghost use Rattle.std.specs.Bool.{OnTrue};
ghost use Rattle.std.specs.Option.{option_map};
ghost use Rattle.pcm_line.specs.Kinds.{OfHex, spelled, hex_digit};
ghost use Rattle.pcm_line.specs.Hex.{digit_or_sixteen, pairs_in_front, hex_in_front};

use crate::pieces::ends_piece;
use std::alloc::{AllocError, Global};

/// The value of a byte as a hex digit, 16 for one that is none. It has no branch, so that a loop over many digits becomes
/// vector code.
#[inline(always)]
fn value(b: u8) -> u8
    ensures { result ≡ digit_or_sixteen b }
{
    let decimal = b.wrapping_sub(b'0');
    let letter = b.wrapping_sub(b'a').min(6) + 10;
    if decimal < 10 { decimal } else { letter }
}

/// Puts the bytes of the pairs of digits into the area, and tells whether all are digits; else what it put means nothing.
fn decode(text: &[u8], area: &mut [u8]) -> bool
    requires { length text.now ≡ 2 * length area.old }
    ensures { OnTrue result ((area.new, []) ≡ pairs_in_front text.now) }
{
    let mut most: u8 = 0;
    'pairs: for i in 0..area.len() {
        let (high, low) = (value(text[2 * i]), value(text[2 * i + 1]));
        area[i] = high.wrapping_mul(16).wrapping_add(low);
        most = most.max(high.max(low));
    }
    most < 16
}

/// The bytes of the pairs at the front, one after another, and what follows them.
fn pairs_in_turn(alloc: Global, text: &[u8]) -> Result<(Vec<u8>, &[u8]), AllocError>
    ensures { IfOk result (λ x. (x.0.items, x.1.now) ≡ pairs_in_front text.now) }
{
    let mut bytes = Vec::with_capacity(alloc, text.len() / 2)?;
    let mut rest = text;
    'pairs: while let [a, b, after @ ..] = rest {
        let (high, low) = (value(*a), value(*b));
        if high > 15 || low > 15 {
            return Ok((bytes, rest));
        }
        bytes.push(16 * high + low)?;
        rest = after;
    }
    Ok((bytes, rest))
}

/// From so many digits on they are read all at once.
const MANY: usize = 32;

/// The bytes of the pairs at the front, and what follows them: as a rule nothing, since hex is the last piece of its form.
fn pairs(alloc: Global, text: &[u8]) -> Result<(Vec<u8>, &[u8]), AllocError>
    ensures { IfOk result (λ x. (x.0.items, x.1.now) ≡ pairs_in_front text.now) }
{
    if text.len() >= MANY && text.len() % 2 == 0 {
        let mut bytes = Vec::new(alloc);
        bytes.resize(text.len() / 2, 0)?;
        if decode(text, &mut bytes) {
            return Ok((bytes, &text[text.len()..]));
        }
    }
    pairs_in_turn(alloc, text)
}

/// The bytes of the piece at the front, where it is hex, and what follows it.
pub(crate) fn read_front(alloc: Global, text: &[u8]) -> Result<Option<(Vec<u8>, &[u8])>, AllocError>
    ensures { IfOk result (λ o. option_map (λ x. (x.0.items, x.1.now)) o ≡ hex_in_front text.now) }
{
    match text {
        [] => Ok(None),
        [b'-', rest @ ..] => {
            if ends_piece(rest) {
                Ok(Some((Vec::new(alloc), rest)))
            } else {
                Ok(None)
            }
        }
        _ => {
            let (bytes, rest) = pairs(alloc, text)?;
            if !bytes.is_empty() && ends_piece(rest) {
                Ok(Some((bytes, rest)))
            } else {
                Ok(None)
            }
        }
    }
}

static DIGITS: [u8; 16] = *b"0123456789abcdef";

fn digit(n: u8) -> u8
    requires { n < 16 }
    ensures { result ≡ hex_digit n }
{
    DIGITS[n as usize]
}

/// Appends a space and these bytes as a piece of hex.
pub(crate) fn push(out: &mut Vec<u8>, bytes: &[u8]) -> Result<(), AllocError>
    ensures { OnOk result (out.new.items ≡ out.old.items ++ 32 ∷ spelled OfHex bytes.now) }
{
    out.push(b' ')?;
    if bytes.is_empty() {
        out.push(b'-')?;
        return Ok(());
    }
    'bytes: for b in bytes {
        out.push(digit(*b / 16))?;
        out.push(digit(*b % 16))?;
    }
    Ok(())
}
