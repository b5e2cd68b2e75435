// Text that is written from its end to its front, in an area of bytes: the digits of a number come that way too.
ghost use Rattle.std.specs.Prelude.{◌≡◌, ◌≤◌, ◌+◌, ◌++◌, drop, length};

/// Writes the part before what stands from `end` on, and gives the place where it starts. This project's own.
#[inline(always)]
pub fn write_before(area: &mut [u8], end: usize, part: &[u8]) -> usize
    requires room { length part.now ≤ end }
    requires inside { end ≤ length area.old }
    ensures start { result + length part.now ≡ end }
    ensures written { drop result area.new ≡ part.now ++ drop end area.old }
{
    let start = end - part.len();
    area[start..end].copy_from_slice(part);
    start
}
