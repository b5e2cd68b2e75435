// The values of single pieces.
ghost use Rattle.std.specs.Prelude.{◌≡◌, ◌≤◌, length};
ghost use Rattle.std.specs.Str.{all_ascii_digits};
ghost use Rattle.pcm_base.specs.Name.{option_if};
ghost use Rattle.pcm_line.specs.Reading.{number_of, digits_value_on, numbered};
ghost use Rattle.pcm_line.specs.Tables.{entry_for, modes, dirs, models, accesses, formats};

use pcm_base::{Access, Dir, Format, Mode, Model};

/// Every number of a line is below 2^63.
const NUMBER_END: u64 = 9223372036854775808;

/// The value of digits, at most 19 of them.
fn digits(piece: &[u8]) -> Option<u64>
    requires { length piece.now ≤ 19 }
    ensures { result ≡ option_if (all_ascii_digits piece.now) (digits_value_on 0 piece.now) }
{
    let mut n: u64 = 0;
    for b in piece {
        if !b.is_ascii_digit() {
            return None;
        }
        n = 10 * n + u64::from(*b - b'0');
    }
    Some(n)
}

/// A number in its one spelling, below 2^63.
pub(crate) fn number(piece: &[u8]) -> Option<u64>
    ensures { result ≡ number_of piece.now }
{
    if piece.is_empty() || piece.len() > 19 || piece[0] == b'0' && piece.len() > 1 {
        return None;
    }
    match digits(piece) {
        Some(n) if n < NUMBER_END => Some(n),
        _ => None,
    }
}

/// The number below 16 after this letter.
pub(crate) fn after_letter(letter: u8, piece: &[u8]) -> Option<u8>
    ensures { result ≡ numbered letter piece.now }
{
    match piece {
        [first, digit] if *first == letter && digit.is_ascii_digit() => Some(*digit - b'0'),
        [first, rest @ ..] if *first == letter => match number(rest) {
            Some(n) if n < 16 => Some(n as u8),
            _ => None,
        },
        _ => None,
    }
}

pub(crate) fn mode(piece: &[u8]) -> Option<Mode>
    ensures { result ≡ entry_for piece.now modes }
{
    match piece {
        b"b" => Some(Mode::Block),
        b"n" => Some(Mode::NonBlock),
        _ => None,
    }
}

pub(crate) fn dir(piece: &[u8]) -> Option<Dir>
    ensures { result ≡ entry_for piece.now dirs }
{
    if piece == b"p".as_slice() {
        Some(Dir::Playback)
    } else if piece == b"c".as_slice() {
        Some(Dir::Capture)
    } else {
        None
    }
}

pub(crate) fn model(piece: &[u8]) -> Option<Model>
    ensures { result ≡ entry_for piece.now models }
{
    if piece == b"basic".as_slice() {
        Some(Model::Basic)
    } else if piece == b"duplex".as_slice() {
        Some(Model::Duplex)
    } else if piece == b"studio".as_slice() {
        Some(Model::Studio)
    } else if piece == b"nopause".as_slice() {
        Some(Model::NoPause)
    } else if piece == b"noresume".as_slice() {
        Some(Model::NoResume)
    } else if piece == b"indirect".as_slice() {
        Some(Model::Indirect)
    } else {
        None
    }
}

pub(crate) fn access(piece: &[u8]) -> Option<Access>
    ensures { result ≡ entry_for piece.now accesses }
{
    if piece == b"MMAP_INTERLEAVED".as_slice() {
        Some(Access::MmapInterleaved)
    } else if piece == b"MMAP_NONINTERLEAVED".as_slice() {
        Some(Access::MmapNoninterleaved)
    } else if piece == b"RW_INTERLEAVED".as_slice() {
        Some(Access::RwInterleaved)
    } else if piece == b"RW_NONINTERLEAVED".as_slice() {
        Some(Access::RwNoninterleaved)
    } else {
        None
    }
}

pub(crate) fn format(piece: &[u8]) -> Option<Format>
    ensures { result ≡ entry_for piece.now formats }
{
    if piece == b"S8".as_slice() {
        Some(Format::S8)
    } else if piece == b"U8".as_slice() {
        Some(Format::U8)
    } else if piece == b"S16_LE".as_slice() {
        Some(Format::S16Le)
    } else if piece == b"S16_BE".as_slice() {
        Some(Format::S16Be)
    } else if piece == b"S24_LE".as_slice() {
        Some(Format::S24Le)
    } else if piece == b"S32_LE".as_slice() {
        Some(Format::S32Le)
    } else if piece == b"S32_BE".as_slice() {
        Some(Format::S32Be)
    } else if piece == b"S24_3LE".as_slice() {
        Some(Format::S24Le3)
    } else {
        None
    }
}
