// Lines of the language that are not the command's.
use crate::command::Command;
use pcm_line::Keyword;

/// Where lines with this keyword stand, where it is not in the command, or not everywhere in it.
pub(crate) fn place_of(command: Command, keyword: Keyword) -> Option<&'static [u8]> {
    match (command, keyword) {
        (Command::Run, Keyword::Version) => Some(b"version stands on line 1 alone"),
        (Command::Run, Keyword::Space) => Some(
            b"space is a line of the command refine, not of run",
        ),
        (Command::Run, Keyword::Beat | Keyword::Wire | Keyword::Threads | Keyword::Join) => {
            Some(b"beat, wire, threads and join are lines of live plans, not of run")
        }
        (Command::Refine, Keyword::Space) => None,
        (Command::Refine, _) => Some(b"refine has space lines alone"),
        _ => None,
    }
}
