// A sink that remembers the number of the last line that was written.
ghost use Rattle.std.specs.Prelude.{◌≡◌, ◌<◌, ◌++◌, ℕ, List, IfOk, OnErr, length, take, true};
ghost use Rattle.std.specs.Io.{WritesAtMost};
ghost use Rattle.std.specs.Io.KnownBytes.{WriteAppends};
ghost use Rattle.pcm_base.specs.Causes.{HasCause};
ghost use Rattle.pcm_help.specs.Answered.{Tells};

use crate::answered::Answered;
use pcm_base::Failed;
use pcm_io::Sink;

/// A sink that passes on each write, and remembers the number of the last whole line that was written where that is wanted.
/// This project's own.
#[derive(Drop)]
pub struct RememberingSink<K> {
    /// The sink that is written to.
    pub sink: K,
    /// Whether lines are remembered.
    pub wanted: bool,
    /// The number of the last whole line.
    pub answered: Answered,
}

// The number of the last whole line after these bytes, where it is wanted.
fn remember(wanted: bool, answered: Answered, bytes: &[u8]) -> Answered
    ensures { wanted ≡ true → (all : List ℕ) → Tells answered all → Tells result (all ++ bytes.now) }
{
    let mut answered = answered;
    if wanted {
        answered.push(bytes);
    }
    answered
}

impl<K: Sink> Sink for RememberingSink<K> {
    ghost written = { λ s. K.written s.sink };

    ghost faults = { λ s. K.faults s.sink };

    fn write_some(&mut self, from: &[u8]) -> Result<usize, Failed>
        ensures bound { WritesAtMost result from.now }
        ensures progress { IfOk result (λ n. 0 < length from.now → 0 < n) }
        ensures bytes { WriteAppends (K.written self.old.sink) (K.written self.new.sink) result from.now }
        ensures cause { HasCause (K.faults self.old.sink) (K.faults self.new.sink) result }

        // What was written is remembered, and a write that failed changes nothing of it.
        ensures tells { self.old.wanted ≡ true → (all : List ℕ) → Tells self.old.answered all → IfOk result (λ n. Tells self.new.answered (all ++ take n from.now)) }
        ensures wanted { self.new.wanted ≡ self.old.wanted }
        ensures same { OnErr result (self.new.answered ≡ self.old.answered) }
    {
        let count = self.sink.write_some(from)?;
        self.answered = remember(self.wanted, self.answered, &from[..count]);
        Ok(count)
    }
}
