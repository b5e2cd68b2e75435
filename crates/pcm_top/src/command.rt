// The commands over a script.
ghost use Rattle.std.specs.Prelude.{◌≡◌};

/// A command over the lines of a script. This project's own.
#[derive(Clone, Copy, Debug, PartialEq, Eq)]
pub enum Command {
    /// Executes a script, and writes its transcript.
    Run,
    /// Answers space lines with what the card models leave of them.
    Refine,
}
