// Lines that a script passes over.
ghost use Rattle.std.specs.Prelude.{◌↔◌, IsTrue};
ghost use Rattle.pcm_line.specs.Skipped.{IsSkipped};

/// Whether a script of this version passes over a line of these bytes, without their line feed: in version 2 alone, where
/// there are none or they begin with `#`. This project's own.
pub fn is_skipped(version: u64, bytes: &[u8]) -> bool
    ensures { IsTrue result ↔ IsSkipped version bytes.now }
{
    match bytes {
        [] => version == 2,
        [first, ..] => *first == b'#' && version == 2,
    }
}
