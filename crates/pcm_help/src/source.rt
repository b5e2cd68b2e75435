// A source that remembers what was read of it.
ghost use Rattle.std.specs.Prelude.{◌≡◌, ◌<◌, ◌+◌, ◌^◌, ◌++◌, ℕ, List, IfOk, OnErr, length, take};
ghost use Rattle.std.specs.Io.{ReadsAtMost};
ghost use Rattle.std.specs.Io.KnownBytes.{ReadConsumes};
ghost use Rattle.pcm_base.specs.Causes.{HasCause};
ghost use Rattle.pcm_help.specs.Remembered.{Remembers, GoesOn};

use crate::recent::Recent;
use pcm_base::Failed;
use pcm_io::Source;

/// A source that passes on each read, and remembers the last bytes that were read where it has a place for them. This
/// project's own.
#[derive(Drop)]
pub struct RememberingSource<S> {
    /// The source that is read.
    pub source: S,
    /// What was read of it; None where nothing is remembered.
    pub recent: Option<Recent>,
}

fn remember(recent: &mut Option<Recent>, bytes: &[u8])
    ensures holds { (all : List ℕ) → length all + length bytes.now < 2 ^ 64 → Remembers recent.old all → Remembers recent.new (all ++ bytes.now) }
    ensures goes_on { GoesOn recent.old recent.new (length bytes.now) }
{
    if let Some(recent) = recent {
        recent.push(bytes);
    }
}

impl<S: Source> Source for RememberingSource<S> {
    ghost left = { λ s. S.left s.source };

    ghost faults = { λ s. S.faults s.source };

    fn read(&mut self, into: &mut [u8]) -> Result<usize, Failed>
        ensures bound { ReadsAtMost result into.new }
        ensures bytes { ReadConsumes (S.left self.old.source) (S.left self.new.source) result into.new }
        ensures cause { HasCause (S.faults self.old.source) (S.faults self.new.source) result }

        // What was read is remembered, and a read that failed changes nothing of it.
        ensures holds { (all : List ℕ) → Remembers self.old.recent all
            → IfOk result (λ n. length all + n < 2 ^ 64 → Remembers self.new.recent (all ++ take n into.new)) }
        ensures goes_on { IfOk result (λ n. GoesOn self.old.recent self.new.recent n) }
        ensures same { OnErr result (self.new.recent ≡ self.old.recent) }
    {
        let count = self.source.read(into)?;
        remember(&mut self.recent, &into[..count]);
        Ok(count)
    }
}
