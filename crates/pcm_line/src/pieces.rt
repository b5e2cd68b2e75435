// A cursor over the pieces of a line.
ghost use Rattle.std.specs.Prelude.{◌≡◌, ◌≤◌, ◌+◌, ◌^◌, ◌∷◌, length, take, drop};
ghost use Rattle.pcm_line.specs.Pieces.{pieces_of, pieces_left};
ghost use Rattle.pcm_line.specs.Hex.{is_piece_end};

/// How many bytes stand before the first space, or all.
pub(crate) fn piece_len(bytes: &[u8]) -> usize
    ensures within { result ≤ length bytes.now }
    ensures first { pieces_of bytes.now ≡ take result bytes.now ∷ pieces_left (drop result bytes.now) }
{
    let mut i = 0;
    'bytes: while i < bytes.len() {
        if bytes[i] == b' ' {
            return i;
        }
        i += 1;
    }
    i
}

/// Whether a piece ends before these bytes.
#[inline(always)]
pub(crate) fn ends_piece(rest: &[u8]) -> bool
    ensures { result ≡ is_piece_end rest.now }
{
    match rest {
        [] => true,
        [b, ..] => *b == b' ',
    }
}

/// What is left of a line: nothing, or a space and the pieces behind it.
#[derive(Drop)]
pub(crate) struct Pieces<'a> {
    /// The offset of the next piece in the line.
    pub at: usize,
    pub rest: &'a [u8],
    ghost bounded: { at + length rest.now ≤ 2 ^ 63 },
}
