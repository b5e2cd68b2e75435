// The keywords one by one, and the pieces behind each.
ghost use Rattle.std.specs.Prelude.{◌≡◌, Contains, IfNone, IfSome, length, map};
ghost use Rattle.pcm_line.specs.Forms.{form_of};
ghost use Rattle.pcm_line.specs.Grammar.{IsNoKeyword};
ghost use Rattle.pcm_line.specs.Keywords.{text_of};
ghost use Rattle.pcm_line.specs.PieceKinds.{kind_of};
ghost use Rattle.pcm_line.specs.declared.keyword.Keyword.{Keyword as KeywordOf};

use crate::keyword::{Keyword, keyword_of};
use crate::piece_kind::PieceKind;

static ALL: [Keyword; 49] = [
    Keyword::Version,
    Keyword::Long,
    Keyword::Card,
    Keyword::Open,
    Keyword::Close,
    Keyword::Hw,
    Keyword::Hwfree,
    Keyword::Sw,
    Keyword::Prepare,
    Keyword::Start,
    Keyword::Drop,
    Keyword::Xrun,
    Keyword::Pause,
    Keyword::Release,
    Keyword::Suspend,
    Keyword::Resume,
    Keyword::Drain,
    Keyword::Writei,
    Keyword::Writen,
    Keyword::Readi,
    Keyword::Readn,
    Keyword::Rewind,
    Keyword::Forward,
    Keyword::Hwsync,
    Keyword::Delay,
    Keyword::Status,
    Keyword::Page,
    Keyword::Sync,
    Keyword::Poll,
    Keyword::Mmap,
    Keyword::Munmap,
    Keyword::Store,
    Keyword::Load,
    Keyword::Link,
    Keyword::Unlink,
    Keyword::Go,
    Keyword::Move,
    Keyword::Irq,
    Keyword::Fail,
    Keyword::Unplug,
    Keyword::Give,
    Keyword::Feed,
    Keyword::Save,
    Keyword::Carry,
    Keyword::Space,
    Keyword::Beat,
    Keyword::Wire,
    Keyword::Threads,
    Keyword::Join,
];

impl Keyword {
    /// The keyword that these bytes are, if they are one.
    pub fn of(piece: &[u8]) -> Option<Keyword>
        ensures some { IfSome result (λ keyword. piece.now ≡ text_of keyword) }
        ensures none { IfNone result (IsNoKeyword piece.now) }
    {
        keyword_of(piece)
    }

    /// Every keyword, each once, those of one use side by side.
    pub fn all() -> &'static [Keyword]
        ensures every { (keyword : KeywordOf) → Contains result.now keyword }
        ensures once { length result.now ≡ 49 }
    {
        &ALL
    }

    /// The keyword as it is written.
    pub fn text(self) -> &'static str
        ensures { result.now ≡ text_of self }
    {
        match self {
            Keyword::Writei => "writei",
            Keyword::Move => "move",
            Keyword::Irq => "irq",
            Keyword::Status => "status",
            Keyword::Readi => "readi",
            Keyword::Writen => "writen",
            Keyword::Readn => "readn",
            Keyword::Store => "store",
            Keyword::Load => "load",
            Keyword::Rewind => "rewind",
            Keyword::Forward => "forward",
            Keyword::Sync => "sync",
            Keyword::Hwsync => "hwsync",
            Keyword::Delay => "delay",
            Keyword::Page => "page",
            Keyword::Poll => "poll",
            Keyword::Prepare => "prepare",
            Keyword::Start => "start",
            Keyword::Drop => "drop",
            Keyword::Drain => "drain",
            Keyword::Xrun => "xrun",
            Keyword::Pause => "pause",
            Keyword::Release => "release",
            Keyword::Suspend => "suspend",
            Keyword::Resume => "resume",
            Keyword::Go => "go",
            Keyword::Link => "link",
            Keyword::Unlink => "unlink",
            Keyword::Mmap => "mmap",
            Keyword::Munmap => "munmap",
            Keyword::Open => "open",
            Keyword::Close => "close",
            Keyword::Hw => "hw",
            Keyword::Hwfree => "hwfree",
            Keyword::Sw => "sw",
            Keyword::Long => "long",
            Keyword::Card => "card",
            Keyword::Fail => "fail",
            Keyword::Unplug => "unplug",
            Keyword::Give => "give",
            Keyword::Feed => "feed",
            Keyword::Save => "save",
            Keyword::Space => "space",
            Keyword::Beat => "beat",
            Keyword::Threads => "threads",
            Keyword::Join => "join",
            Keyword::Version => "version",
            Keyword::Carry => "carry",
            Keyword::Wire => "wire",
        }
    }

    /// What the pieces behind the keyword are, in order.
    pub fn kinds(self) -> &'static [PieceKind]
        ensures { map kind_of result.now ≡ (form_of self).kinds }
    {
        match self {
            Keyword::Writei | Keyword::Writen => &[
                PieceKind::Client,
                PieceKind::Sub,
                PieceKind::Mode,
                PieceKind::Hex,
            ],
            Keyword::Move | Keyword::Fail => &[PieceKind::Sub, PieceKind::Number],
            Keyword::Irq | Keyword::Unplug => &[PieceKind::Sub],
            Keyword::Status
            | Keyword::Hwsync
            | Keyword::Delay
            | Keyword::Page
            | Keyword::Poll
            | Keyword::Prepare
            | Keyword::Start
            | Keyword::Drop
            | Keyword::Xrun
            | Keyword::Pause
            | Keyword::Release
            | Keyword::Suspend
            | Keyword::Resume
            | Keyword::Unlink
            | Keyword::Mmap
            | Keyword::Munmap
            | Keyword::Open
            | Keyword::Close
            | Keyword::Hwfree => &[PieceKind::Client, PieceKind::Sub],
            Keyword::Readi | Keyword::Readn => &[
                PieceKind::Client,
                PieceKind::Sub,
                PieceKind::Mode,
                PieceKind::Number,
            ],
            Keyword::Store => &[
                PieceKind::Client,
                PieceKind::Sub,
                PieceKind::Number,
                PieceKind::Hex,
            ],
            Keyword::Load => &[
                PieceKind::Client,
                PieceKind::Sub,
                PieceKind::Number,
                PieceKind::Number,
            ],
            Keyword::Rewind | Keyword::Forward | Keyword::Sync => &[
                PieceKind::Client,
                PieceKind::Sub,
                PieceKind::Number,
            ],
            Keyword::Drain => &[PieceKind::Client, PieceKind::Sub, PieceKind::Mode],
            Keyword::Go => &[PieceKind::Client],
            Keyword::Link => &[PieceKind::Client, PieceKind::Sub, PieceKind::Sub],
            Keyword::Hw => &[
                PieceKind::Client,
                PieceKind::Sub,
                PieceKind::Access,
                PieceKind::Format,
                PieceKind::Number,
                PieceKind::Number,
                PieceKind::Number,
                PieceKind::Number,
            ],
            Keyword::Sw => &[
                PieceKind::Client,
                PieceKind::Sub,
                PieceKind::Number,
                PieceKind::Number,
                PieceKind::Number,
                PieceKind::Number,
                PieceKind::Number,
            ],
            Keyword::Long | Keyword::Version => &[PieceKind::Number],
            Keyword::Card => &[PieceKind::Sub, PieceKind::Model, PieceKind::Dir],
            Keyword::Give => &[PieceKind::Sub, PieceKind::Hex],
            Keyword::Feed | Keyword::Save => &[PieceKind::Sub, PieceKind::Name],
            Keyword::Space => &[
                PieceKind::Model,
                PieceKind::Number,
                PieceKind::Number,
                PieceKind::Number,
                PieceKind::Number,
                PieceKind::Number,
                PieceKind::Number,
                PieceKind::Number,
                PieceKind::Number,
                PieceKind::Number,
                PieceKind::Number,
                PieceKind::Number,
                PieceKind::Number,
            ],
            Keyword::Beat => &[PieceKind::Sub, PieceKind::Number, PieceKind::Number],
            Keyword::Threads | Keyword::Join => &[],
            Keyword::Carry | Keyword::Wire => &[PieceKind::Sub, PieceKind::Sub],
        }
    }
}
