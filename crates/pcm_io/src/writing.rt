// Writes bytes, all of them or in whole pieces.
ghost use Rattle.std.specs.Prelude.{◌≡◌, ◌≤◌, ℕ, length, take, drop, OnOk, OnErr};
ghost use Rattle.std.specs.Io.KnownBytes.{Appends};
ghost use Rattle.pcm_base.specs.Causes.{HasCause};
ghost use Rattle.pcm_io.specs.Pieces.{in_pieces};

use crate::Sink;
use crate::reading::PIECE;
use pcm_base::Failed;

/// Writes all of `bytes`, in as many calls as the sink wants. After a call that failed, a front of `bytes` is written.
/// This project's own.
pub fn write_all<K: Sink>(sink: &mut K, bytes: &[u8]) -> Result<(), Failed>
    ensures all { OnOk result (Appends (K.written sink.old) (K.written sink.new) bytes.now) }
    ensures front { (n : ℕ) × (n ≤ length bytes.now) × Appends (K.written sink.old) (K.written sink.new) (take n bytes.now) }
    ensures cause { HasCause (K.faults sink.old) (K.faults sink.new) result }
{
    let mut done = 0;
    'parts: while done < bytes.len() {
        done += sink.write_some(&bytes[done..])?;
    }
    Ok(())
}

fn write_whole<K: Sink>(sink: &mut K, text: &[u8]) -> Result<(), Failed>
    ensures all { OnOk result (Appends (K.written sink.old) (K.written sink.new) (take (in_pieces (length text.now)) text.now)) }
    ensures front { (n : ℕ) × (n ≤ length text.now) × Appends (K.written sink.old) (K.written sink.new) (take n text.now) }
    ensures cause { HasCause (K.faults sink.old) (K.faults sink.new) result }
{
    'pieces: for i in 0..text.len() / PIECE {
        write_all(sink, &text[i * PIECE..i * PIECE + PIECE])?;
    }
    Ok(())
}

fn drop_front(text: &mut Vec<u8>, count: usize)
    requires { count ≤ length text.old.items }
    ensures { text.new.items ≡ drop count text.old.items }
{
    let rest = text.len() - count;
    text.copy_within(count.., 0);
    text.truncate(rest);
}

/// Writes the text as far as it fills pieces of 4,096 bytes, piece by piece, and keeps the rest. After a call that failed
/// the text is as before, and a front of it is written. This project's own.
pub fn write_pieces<K: Sink>(sink: &mut K, text: &mut Vec<u8>) -> Result<(), Failed>
    ensures pieces { OnOk result (Appends (K.written sink.old) (K.written sink.new) (take (in_pieces (length text.old.items)) text.old.items)) }
    ensures rest { OnOk result (text.new.items ≡ drop (in_pieces (length text.old.items)) text.old.items) }
    ensures front { OnErr result ((n : ℕ) × (n ≤ length text.old.items) × Appends (K.written sink.old) (K.written sink.new) (take n text.old.items)) }
    ensures same { OnErr result (text.new.items ≡ text.old.items) }
    ensures cause { HasCause (K.faults sink.old) (K.faults sink.new) result }
{
    let whole = text.len() / PIECE * PIECE;
    if whole > 0 {
        write_whole(sink, text)?;
        drop_front(text, whole);
    }
    Ok(())
}

/// Writes all of the text, piece by piece of 4,096 bytes, and last the rest. After a call that failed a front of the text is
/// written. This project's own.
pub fn write_rest<K: Sink>(sink: &mut K, text: &mut Vec<u8>) -> Result<(), Failed>
    ensures all { OnOk result (Appends (K.written sink.old) (K.written sink.new) text.old.items) }
    ensures front { (n : ℕ) × (n ≤ length text.old.items) × Appends (K.written sink.old) (K.written sink.new) (take n text.old.items) }
    ensures cause { HasCause (K.faults sink.old) (K.faults sink.new) result }
{
    write_pieces(sink, text)?;
    write_all(sink, text)
}
