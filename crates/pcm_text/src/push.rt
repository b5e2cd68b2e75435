// Parts that are put at the end of a text.
ghost use Rattle.std.specs.Prelude.{◌≡◌, ◌++◌, OnOk, OnErr, decimal};
ghost use Rattle.pcm_text.specs.Front.{KeepsFront};

use itoa::Buffer;
use std::alloc::AllocError;

/// Puts the part at the end of the text. An error leaves the text as it was.
#[inline(always)]
pub fn push_text(text: &mut Vec<u8>, part: &[u8]) -> Result<(), AllocError>
    ensures ok { OnOk result (text.new.items ≡ text.old.items ++ part.now) }
    ensures err { OnErr result (text.new.items ≡ text.old.items) }
{
    text.extend_from_slice(part)
}

/// Puts the number in decimal at the end of the text. An error leaves the text as it was.
#[tactic(auto, using(std::proofs::lemmas::Fmt::decimal_digit))]
pub fn push_number(text: &mut Vec<u8>, number: u64) -> Result<(), AllocError>
    ensures ok { OnOk result (text.new.items ≡ text.old.items ++ decimal number) }
    ensures err { OnErr result (text.new.items ≡ text.old.items) }
{
    if number < 10 {
        return Ok(text.push(b'0' + number as u8)?);
    }
    push_text(text, Buffer::new().format(number).as_bytes())
}

#[inline(always)]
pub(crate) fn push_counted(text: &mut Vec<u8>, word: &[u8], number: u64) -> Result<(), AllocError>
    ensures ok { OnOk result (text.new.items ≡ text.old.items ++ (word.now ++ decimal number)) }
    ensures err { OnErr result (KeepsFront text.old.items text.new.items) }
{
    push_text(text, word)?;
    push_number(text, number)
}
