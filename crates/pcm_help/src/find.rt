// The first place of a byte.
ghost use Rattle.std.specs.Prelude.{◌≡◌, MatchOption};
ghost use Rattle.pcm_help.specs.Lines.{IsFirstAt, count_of};

use memchr::memchr;

/// Where the byte stands first among these.
pub(crate) fn first_of(byte: u8, bytes: &[u8]) -> Option<usize>
    ensures { MatchOption result (count_of byte bytes.now ≡ 0) (λ at. IsFirstAt byte bytes.now at) }
{
    memchr(byte, bytes)
}
