// Where the pieces of a line begin.
ghost use Rattle.std.specs.Prelude.{◌≡◌};
ghost use Rattle.live_plan.specs.Lines.{piece_at as piece_at_of};

/// The offset of a piece of a line, before which there are so many: it begins behind that many spaces. Behind a
/// line that has fewer, its end. It is asked for in a line at fault alone.
pub(crate) fn piece_at(bytes: &[u8], before: usize) -> usize
    ensures { result ≡ piece_at_of bytes.now before }
{
    let mut left = before;
    for (at, byte) in bytes.iter().enumerate() {
        if left == 0 {
            return at;
        }
        if *byte == b' ' {
            left -= 1;
        }
    }
    bytes.len()
}
