// The kinds of pieces, for those who tell what a line may be.
ghost use Rattle.std.specs.Prelude.{◌≡◌, map};
ghost use Rattle.pcm_line.specs.PieceKinds.{kind_of, words_of};

/// What a piece behind the keyword is. This project's own.
#[derive(Clone, Copy, Debug, PartialEq, Eq)]
pub enum PieceKind {
    /// A number, below 2^63.
    Number,
    /// A client.
    Client,
    /// A substream.
    Sub,
    /// Whether a call may wait.
    Mode,
    /// A direction.
    Dir,
    /// The model of a card.
    Model,
    /// An access.
    Access,
    /// A sample format.
    Format,
    /// Bytes in hex.
    Hex,
    /// The name of a file.
    Name,
}

static MODES: [&str; 2] = ["b", "n"];

static DIRS: [&str; 2] = ["p", "c"];

static MODELS: [&str; 6] = [
    "basic", "duplex", "studio", "nopause", "noresume", "indirect",
];

static ACCESSES: [&str; 4] = [
    "MMAP_INTERLEAVED",
    "MMAP_NONINTERLEAVED",
    "RW_INTERLEAVED",
    "RW_NONINTERLEAVED",
];

static FORMATS: [&str; 8] = [
    "S8", "U8", "S16_LE", "S16_BE", "S24_LE", "S32_LE", "S32_BE", "S24_3LE",
];

impl PieceKind {
    /// The words of a kind that has few: exactly the spellings of its values, one of each. A kind of numbers, bytes or names
    /// has none.
    pub fn words(self) -> &'static [&'static str]
        ensures { map (λ word. word.now) result.now ≡ words_of (kind_of self) }
    {
        match self {
            PieceKind::Mode => &MODES,
            PieceKind::Dir => &DIRS,
            PieceKind::Model => &MODELS,
            PieceKind::Access => &ACCESSES,
            PieceKind::Format => &FORMATS,
            _ => &[],
        }
    }
}
