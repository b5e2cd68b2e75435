// The commands of the program.
ghost use Rattle.std.specs.Prelude.{◌≡◌, ◌≢◌, IfNone, IfSome};
ghost use Rattle.pcm_help.specs.Commands.{name_of};
ghost use Rattle.pcm_help.specs.declared.command.Command.{Command as CommandOf};

use pcm_line::Keyword;

/// A command of the program. This project's own.
#[derive(Clone, Copy, Debug, PartialEq, Eq)]
pub enum Command {
    /// Executes a script.
    Run,
    /// Answers space lines.
    Refine,
    /// Plays a file.
    Play,
    /// Records a file.
    Capture,
    /// Runs a generated script.
    Gen,
}

static ALL: [Command; 5] = [
    Command::Run,
    Command::Refine,
    Command::Play,
    Command::Capture,
    Command::Gen,
];

impl Command {
    /// The command of this name.
    pub fn of(word: &str) -> Option<Command>
        ensures some { IfSome result (λ command. word.now ≡ name_of command) }
        ensures none { IfNone result ((command : CommandOf) → word.now ≢ name_of command) }
    {
        match word {
            "run" => Some(Command::Run),
            "refine" => Some(Command::Refine),
            "play" => Some(Command::Play),
            "capture" => Some(Command::Capture),
            "gen" => Some(Command::Gen),
            _ => None,
        }
    }

    pub(crate) fn all() -> &'static [Command] {
        &ALL
    }

    /// The words of the command line.
    pub(crate) fn words(self) -> &'static str {
        match self {
            Command::Run => "run",
            Command::Refine => "refine",
            Command::Play => "play IN OUT PERIOD PERIODS",
            Command::Capture => "capture IN OUT N",
            Command::Gen => "gen N",
        }
    }

    /// What the command does, in a few words.
    pub(crate) fn does(self) -> &'static str {
        match self {
            Command::Run => "executes the script on standard input",
            Command::Refine => "answers the space lines on standard input",
            Command::Play => "plays the WAV file IN into OUT",
            Command::Capture => "records N frames of the WAV file IN into OUT",
            Command::Gen => "runs the generated script N, 0 to 1000",
        }
    }

    /// Whether the command has lines that begin with this keyword.
    pub(crate) fn has(self, keyword: Keyword) -> bool {
        match (self, keyword) {
            (Command::Run, Keyword::Space) => false,
            (Command::Run, Keyword::Beat | Keyword::Wire) => false,
            (Command::Run, Keyword::Threads | Keyword::Join) => false,
            (Command::Run, _) => true,
            (Command::Refine, keyword) => keyword == Keyword::Space,
            _ => false,
        }
    }
}
