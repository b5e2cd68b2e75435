// The pieces behind a keyword: what each is called, and what it is.
use crate::sentence::{NAME_FORM, NUMBER_FORM, push_choice};
use pcm_line::{Keyword, PieceKind};
use pcm_text::push_text;
use std::alloc::AllocError;

// What bytes in hex are.
const HEX_FORM: &str = "two digits of 0-9 and a-f for each byte, or - for no bytes";

// What the numbers of a form are called, in order.
fn number_names(keyword: Keyword) -> &'static [&'static str] {
    static VERSION: [&str; 1] = ["VERSION"];
    static LONG: [&str; 1] = ["LONG_MAX"];
    static CONFIG: [&str; 4] = ["CHANNELS", "RATE", "PERIOD", "PERIODS"];
    static SOFTWARE: [&str; 5] = [
        "AVAIL_MIN",
        "START",
        "STOP",
        "SILENCE_THRESHOLD",
        "SILENCE_SIZE",
    ];
    static OFFSET: [&str; 2] = ["OFFSET", "FRAMES"];
    static FRAMES: [&str; 1] = ["FRAMES"];
    static POINTER: [&str; 1] = ["APPL_PTR"];
    static TRIGGER: [&str; 1] = ["TRIGGER"];
    static BEAT: [&str; 2] = ["FRAMES", "BEATS"];
    static SPACE: [&str; 12] = [
        "ACCESSES",
        "FORMATS",
        "CHANNELS_MIN",
        "CHANNELS_MAX",
        "RATE_MIN",
        "RATE_MAX",
        "PERIOD_MIN",
        "PERIOD_MAX",
        "PERIODS_MIN",
        "PERIODS_MAX",
        "BUFFER_MIN",
        "BUFFER_MAX",
    ];
    match keyword {
        Keyword::Version => &VERSION,
        Keyword::Long => &LONG,
        Keyword::Hw => &CONFIG,
        Keyword::Sw => &SOFTWARE,
        Keyword::Load | Keyword::Store => &OFFSET,
        Keyword::Sync => &POINTER,
        Keyword::Fail => &TRIGGER,
        Keyword::Beat => &BEAT,
        Keyword::Space => &SPACE,
        _ => &FRAMES,
    }
}

fn number_name(keyword: Keyword, place: usize) -> &'static str {
    let before = keyword.kinds().iter().take(place);
    let numbers = before.filter(|kind| **kind == PieceKind::Number).count();
    match number_names(keyword).get(numbers) {
        Some(name) => name,
        None => "NUMBER",
    }
}

/// What the piece at this place behind the keyword is called, counted from 0.
pub(crate) fn operand_name(keyword: Keyword, place: usize, kind: PieceKind) -> &'static str {
    match kind {
        PieceKind::Number => number_name(keyword, place),
        PieceKind::Client => "CLIENT",
        PieceKind::Sub => "SUB",
        PieceKind::Mode => "MODE",
        PieceKind::Dir => "DIRECTION",
        PieceKind::Model => "MODEL",
        PieceKind::Access => "ACCESS",
        PieceKind::Format => "FORMAT",
        PieceKind::Hex => "HEX",
        PieceKind::Name => "NAME",
    }
}

/// Puts behind the text what such a piece is.
pub(crate) fn push_kind(
    text: &mut Vec<u8>,
    keyword: Keyword,
    kind: PieceKind,
) -> Result<(), AllocError> {
    match (keyword, kind) {
        (Keyword::Version, PieceKind::Number) => push_text(text, b"1 or 2"),
        (_, PieceKind::Number) => push_text(text, NUMBER_FORM.as_bytes()),
        (_, PieceKind::Client) => push_text(text, b"c and a number below 16, as c0"),
        (_, PieceKind::Sub) => push_text(text, b"s and a number below 16, as s0"),
        (_, PieceKind::Hex) => push_text(text, HEX_FORM.as_bytes()),
        (_, PieceKind::Name) => push_text(text, NAME_FORM.as_bytes()),
        _ => push_choice(text, kind.words()),
    }
}
