// The number of the last whole line of a transcript.
ghost use Rattle.std.specs.Prelude.{◌≡◌, ◌++◌, ℕ, List};
ghost use Rattle.pcm_help.specs.Answered.{Tells, after};

/// The number that the last whole line of a text begins with, as the lines of a transcript do; 0 before the first. This
/// project's own.
#[derive(Clone, Copy, Debug, PartialEq, Eq)]
pub struct Answered {
    /// The number of the last whole line.
    pub last: u64,
    /// What the digits come to with which the line behind it begins.
    pub begun: u64,
    /// Whether that line has digits alone.
    pub counting: bool,
}

impl Answered {
    /// Before the first byte.
    pub const NONE: Answered = Answered {
        last: 0,
        begun: 0,
        counting: true,
    };

    fn after(self, byte: u8) -> Answered
        ensures { result ≡ after self byte }
    {
        if byte == b'\n' {
            return Answered {
                last: self.begun,
                ..Answered::NONE
            };
        }
        if self.counting && byte.is_ascii_digit() {
            let tens = self.begun.saturating_mul(10);
            return Answered {
                begun: tens.saturating_add(u64::from(byte - b'0')),
                ..self
            };
        }
        Answered {
            counting: false,
            ..self
        }
    }

    /// These bytes are written, behind all before.
    pub fn push(&mut self, bytes: &[u8])
        ensures { (all : List ℕ) → Tells self.old all → Tells self.new (all ++ bytes.now) }
    {
        'bytes: for byte in bytes {
            *self = self.after(*byte);
        }
    }
}
