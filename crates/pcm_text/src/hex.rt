// Bytes as hex.
ghost use Rattle.std.specs.Prelude.{◌≡◌, ◌<◌, ◌≤◌, ◌+◌, ◌/◌, ◌%◌, ◌++◌, ◌∷◌, [], length, map, take, drop, OnOk, OnErr};
ghost use Rattle.pcm_text.specs.Front.{KeepsFront};
ghost use Rattle.pcm_text.specs.Hex.{hex_digit, hex_pairs, hex_text};

use crate::push_text;
use std::alloc::AllocError;
use std::simd::prelude::*;

fn digit(n: u8) -> u8
    requires { n < 16 }
    ensures { result ≡ hex_digit n }
{
    if n < 10 { n + b'0' } else { n + (b'a' - 10) }
}

static DIGITS: [u8; 16] = *b"0123456789abcdef";

#[inline(always)]
fn high_digits(bytes: u8x16) -> u8x16
    ensures { result ≡ map (λ b. hex_digit (b / 16)) bytes }
{
    u8x16::from_array(DIGITS).swizzle_dyn(bytes >> u8x16::splat(4))
}

#[inline(always)]
fn low_digits(bytes: u8x16) -> u8x16
    ensures { result ≡ map (λ b. hex_digit (b % 16)) bytes }
{
    u8x16::from_array(DIGITS).swizzle_dyn(bytes & u8x16::splat(15))
}

/// Both digits of each, the high one first.
#[inline(always)]
fn both_digits(bytes: u8x16) -> u8x32
    ensures { result ≡ hex_pairs bytes }
{
    high_digits(bytes).shuffle(
        low_digits(bytes),
        [
            0, 16, 1, 17, 2, 18, 3, 19, 4, 20, 5, 21, 6, 22, 7, 23, 8, 24, 9, 25, 10, 26, 11, 27,
            12, 28, 13, 29, 14, 30, 15, 31,
        ],
    )
}

/// Puts the pairs of the sixteen bytes from this place on at the end of the text.
#[inline(always)]
fn push_block(text: &mut Vec<u8>, bytes: &[u8], at: usize) -> Result<(), AllocError>
    requires { at + 16 ≤ length bytes.now }
    ensures ok { OnOk result (text.new.items ≡ text.old.items ++ hex_pairs (take 16 (drop at bytes.now))) }
    ensures err { OnErr result (text.new.items ≡ text.old.items) }
{
    let digits = both_digits(u8x16::from_slice(&bytes[at..]));
    text.extend_from_slice(&digits.to_array())
}

/// Puts the two digits of a byte at the end of the text.
#[inline(always)]
fn push_pair(text: &mut Vec<u8>, byte: u8) -> Result<(), AllocError>
    ensures ok { OnOk result (text.new.items ≡ text.old.items ++ hex_pairs (byte ∷ [])) }
    ensures err { OnErr result (text.new.items ≡ text.old.items) }
{
    text.extend_from_slice(&[digit(byte / 16), digit(byte % 16)])
}

fn push_pairs(text: &mut Vec<u8>, bytes: &[u8]) -> Result<(), AllocError>
    ensures ok { OnOk result (text.new.items ≡ text.old.items ++ hex_pairs bytes.now) }
    ensures err { OnErr result (KeepsFront text.old.items text.new.items) }
{
    let blocks = bytes.len() / 16;
    'parts: for i in 0..blocks {
        push_block(text, bytes, 16 * i)?;
    }
    'bytes: for i in 16 * blocks..bytes.len() {
        push_pair(text, bytes[i])?;
    }
    Ok(())
}

/// Puts the bytes at the end of the text, each as two lower-case hex digits, the high one first, and `-` for no bytes.
/// An error leaves the text as it was.
pub fn push_hex(text: &mut Vec<u8>, bytes: &[u8]) -> Result<(), AllocError>
    ensures ok { OnOk result (text.new.items ≡ text.old.items ++ hex_text bytes.now) }
    ensures err { OnErr result (text.new.items ≡ text.old.items) }
{
    if bytes.is_empty() {
        return push_text(text, b"-");
    }
    let start = text.len();
    text.reserve(bytes.len().saturating_mul(2))?;
    let pushed = push_pairs(text, bytes);
    if pushed.is_err() {
        text.truncate(start);
    }
    pushed
}
