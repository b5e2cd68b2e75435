// How bytes are shown.
ghost use Rattle.std.specs.Prelude.{◌≡◌, ◌≤◌, ◌*◌, ◌++◌, OnOk, length};
ghost use Rattle.pcm_help.specs.Shown.{width as width_of, columns as columns_of, escaped, is_plain, shown_byte, shown};

use pcm_text::{push_hex, push_text};
use std::alloc::AllocError;

// Whether the byte is shown as it stands.
fn is_plain(byte: u8) -> bool
    ensures { result ≡ is_plain byte }
{
    (b' '..=b'~').contains(&byte) && byte != b'\\'
}

/// How many columns a byte takes.
pub(crate) fn width(byte: u8) -> usize
    ensures value { result ≡ width_of byte }
    ensures few { result ≤ 4 }
{
    if is_plain(byte) {
        1
    } else if matches!(byte, b'\t' | b'\r' | b'\\') {
        2
    } else {
        4
    }
}

/// How many columns the bytes take.
pub(crate) fn columns(bytes: &[u8]) -> usize
    requires { length bytes.now ≤ 1_048_576 }
    ensures value { result ≡ columns_of bytes.now }
    ensures few { result ≤ 4 * length bytes.now }
{
    let mut columns = 0;
    'bytes: for byte in bytes {
        columns += width(*byte);
    }
    columns
}

fn push_escaped(text: &mut Vec<u8>, byte: u8) -> Result<(), AllocError>
    ensures { OnOk result (text.new.items ≡ text.old.items ++ escaped byte) }
{
    match byte {
        b'\t' => push_text(text, b"\\t"),
        b'\r' => push_text(text, b"\\r"),
        b'\\' => push_text(text, b"\\\\"),
        _ => {
            push_text(text, b"\\x")?;
            push_hex(text, &[byte])
        }
    }
}

fn push_byte(text: &mut Vec<u8>, byte: u8) -> Result<(), AllocError>
    ensures { OnOk result (text.new.items ≡ text.old.items ++ shown_byte byte) }
{
    if is_plain(byte) {
        return push_text(text, &[byte]);
    }
    push_escaped(text, byte)
}

/// Puts the bytes behind the text, so that each can be seen: a tab, a carriage return and a backslash as `\t`, `\r` and
/// `\\`, any other byte that is not printable as `\x` and two digits.
pub(crate) fn push_shown(text: &mut Vec<u8>, bytes: &[u8]) -> Result<(), AllocError>
    ensures { OnOk result (text.new.items ≡ text.old.items ++ shown bytes.now) }
{
    'bytes: for byte in bytes {
        push_byte(text, *byte)?;
    }
    Ok(())
}
