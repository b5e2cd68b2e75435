// The chunks of a file.
ghost use Rattle.std.specs.Prelude.{◌≡◌, ◌+◌, ◌^◌, ◌<◌, ◌≤◌, List, length, codes, IfSome};
ghost use Rattle.wav_file.specs.Chunks.{Place, AreChunks, Finds, from_first, has_id, past_chunk, place_of, size_at, stops};

use byteorder::{ByteOrder, LittleEndian};

/// Where a chunk stands: its offset in the file, and all bytes from there on.
#[derive(Clone, Copy)]
pub(crate) struct Chunk<'a> {
    pub(crate) at: usize,
    pub(crate) bytes: &'a [u8],
}

/// Which chunks a search stops at.
#[derive(Clone, Copy)]
pub(crate) enum Stop {
    FormatOrData,
    Data,
}

/// Whether the chunk at the front is a "data" chunk.
pub(crate) fn is_data(bytes: &[u8]) -> bool
    ensures { result ≡ has_id (codes "data") bytes.now }
{
    bytes.starts_with(b"data")
}

/// The bytes of the body of the chunk at the front, as its head says.
pub(crate) fn body_size(bytes: &[u8]) -> usize
    requires { 8 ≤ length bytes.now }
    ensures size { result ≡ size_at bytes.now }
    ensures four_bytes { result < 2 ^ 32 }
{
    LittleEndian::read_u32(&bytes[4..]) as usize
}

impl Stop {
    fn at(self, bytes: &[u8]) -> bool
        ensures { result ≡ stops self bytes.now }
    {
        match self {
            Stop::FormatOrData => bytes.starts_with(b"fmt ") || is_data(bytes),
            Stop::Data => is_data(bytes),
        }
    }
}

/// The first chunk from here on that the search stops at. Only the heads are looked at.
pub(crate) fn find_chunk(from: Chunk, stop: Stop) -> Option<Chunk>
    requires { from.at + length from.bytes.now < 2 ^ 64 }
    ensures found { (chunks : List Place) → AreChunks (place_of from.entry) chunks → Finds result (from_first (stops stop) chunks) }
    ensures end { IfSome result (λ chunk. chunk.at + length chunk.bytes.now ≡ from.entry.at + length from.entry.bytes.now) }
    ensures head { IfSome result (λ chunk. 8 ≤ length chunk.bytes.now) }
{
    let mut at = from.at;
    let mut bytes = from.bytes;
    'chunks: while bytes.len() >= 8 {
        if stop.at(bytes) {
            return Some(Chunk { at, bytes });
        }
        let size = body_size(bytes);
        let past = 8 + size + size % 2;
        if past > bytes.len() {
            return None;
        }
        at += past;
        bytes = &bytes[past..];
    }
    None
}
