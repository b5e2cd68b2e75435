// The lines of the script.
ghost use Rattle.std.specs.Prelude.{◌≡◌, ◌≤◌, ◌<◌, ◌^◌, ◌*◌, ◌+◌, ◌%◌, ◌++◌, IfOk, OnOk};
ghost use Rattle.pcm_gen.specs.Script.{last_line, moves, next_number, round, script, seven_bytes, write_line};

use pcm_text::{push_hex, push_number, push_text};
use std::alloc::{AllocError, Global};

/// Two cards, opened, configured alike, linked and prepared. Their boundary is 512.
const BEGINNING: &[u8] = b"long 1023
card s0 duplex p
card s1 duplex p
open c0 s0
open c1 s1
hw c0 s0 RW_INTERLEAVED U8 1 8000 4 4
hw c1 s1 RW_INTERLEAVED U8 1 8000 4 4
link c0 s0 s1
prepare c0 s0
";

// The number after this one.
fn next(x: u64) -> u64
    requires { x < 2 ^ 31 }
    ensures next { result ≡ next_number x }
    ensures below { result < 2 ^ 31 }
{
    (x * 1_103_515_245 + 12_345) % 2_147_483_648
}

// A byte that a round writes: each round goes on seven further.
fn byte(round: u64, at: u64) -> u8
    requires round { round < 2 ^ 32 }
    requires at { at < 7 }
    ensures { result ≡ (7 * round + at) % 256 }
{
    ((7 * round + at) % 256) as u8
}

// A line that writes the bytes.
fn push_write(text: &mut Vec<u8>, words: &[u8], bytes: &[u8]) -> Result<(), AllocError>
    ensures { OnOk result (text.new.items ≡ text.old.items ++ write_line words.now bytes.now) }
{
    push_text(text, words)?;
    push_hex(text, bytes)?;
    push_text(text, b"\n")
}

// The movements of both cards, each with its interrupt.
fn push_moves(text: &mut Vec<u8>, frames: u64) -> Result<(), AllocError>
    ensures { OnOk result (text.new.items ≡ text.old.items ++ moves frames) }
{
    push_text(text, b"move s0 ")?;
    push_number(text, frames)?;
    push_text(text, b"\nirq s0\nmove s1 ")?;
    push_number(text, frames)?;
    push_text(text, b"\nirq s1\n")
}

// The bytes that a round may write.
fn bytes_of(round: u64) -> [u8; 7]
    requires { round < 2 ^ 32 }
    ensures { result ≡ seven_bytes round }
{
    [
        byte(round, 0),
        byte(round, 1),
        byte(round, 2),
        byte(round, 3),
        byte(round, 4),
        byte(round, 5),
        byte(round, 6),
    ]
}

// The last line of a round.
fn push_last(text: &mut Vec<u8>, round: u64) -> Result<(), AllocError>
    ensures { OnOk result (text.new.items ≡ text.old.items ++ last_line round) }
{
    if round % 8 == 7 {
        push_text(text, b"prepare c0 s0\n")
    } else {
        push_text(text, b"status c1 s1\n")
    }
}

// The seven lines of a round.
fn push_round(text: &mut Vec<u8>, number: u64, x: u64) -> Result<(), AllocError>
    requires { number < 2 ^ 32 }
    ensures { OnOk result (text.new.items ≡ text.old.items ++ round number x) }
{
    let all = bytes_of(number);
    let count = 1 + x / 65_536 % 7;
    let bytes = &all[..count as usize];
    push_write(text, b"writei c0 s0 n ", bytes)?;
    push_write(text, b"writei c1 s1 n ", bytes)?;
    push_moves(text, 1 + x / 1_024 % 6)?;
    push_last(text, number)
}

/// Script number `n`, of 9 + 700 * n lines.
pub fn gen_script(alloc: Global, n: u64) -> Result<Vec<u8>, AllocError>
    requires { n ≤ 1000 }
    ensures { IfOk result (λ text. text.items ≡ script n) }
{
    let mut text = Vec::with_capacity(alloc, 256 + 10_800 * n as usize)?;
    push_text(&mut text, BEGINNING)?;
    let mut x = n;
    'rounds: for number in 0..100 * n {
        x = next(x);
        push_round(&mut text, number, x)?;
    }
    Ok(text)
}
