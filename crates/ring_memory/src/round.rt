// Bytes that are written and read in a round: at most two contiguous copies each.
ghost use Rattle.std.specs.Prelude.{◌≡◌, ◌+◌, ◌-◌, ◌≤◌, length, replicate};
ghost use Rattle.ring_memory.specs.Round.{written_round, read_round};

// Writes these bytes over the ring from `start` on.
pub(crate) fn write_round(ring: &mut [u8], start: usize, bytes: &[u8])
    requires start { start ≤ length ring.old }
    requires fits { length bytes.now ≤ length ring.old }
    ensures { ring.new ≡ written_round start bytes.now ring.old }
{
    let near = bytes.len().min(ring.len() - start);
    ring[start..start + near].copy_from_slice(&bytes[..near]);
    if near < bytes.len() {
        ring[..bytes.len() - near].copy_from_slice(&bytes[near..]);
    }
}

// Writes so many bytes of one value over the ring from `start` on.
pub(crate) fn fill_round(ring: &mut [u8], start: usize, count: usize, value: u8)
    requires start { start ≤ length ring.old }
    requires fits { count ≤ length ring.old }
    ensures { ring.new ≡ written_round start (replicate count value) ring.old }
{
    let near = count.min(ring.len() - start);
    ring[start..start + near].fill(value);
    ring[..count - near].fill(value);
}

// Reads the bytes of the ring from `start` on.
pub(crate) fn copy_round(ring: &[u8], start: usize, out: &mut [u8])
    requires start { start ≤ length ring.now }
    requires fits { length out.old ≤ length ring.now }
    ensures { out.new ≡ read_round start (length out.old) ring.now }
{
    let near = out.len().min(ring.len() - start);
    out[..near].copy_from_slice(&ring[start..start + near]);
    let rest = out.len() - near;
    if rest > 0 {
        out[near..].copy_from_slice(&ring[..rest]);
    }
}
