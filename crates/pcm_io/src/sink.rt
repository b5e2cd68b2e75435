// Where bytes go.
ghost use Rattle.std.specs.Prelude.{◌<◌, List, ℕ, length, IfOk};
ghost use Rattle.std.specs.declared.option.Option.{Option};
ghost use Rattle.std.specs.Io.{WritesAtMost};
ghost use Rattle.std.specs.Io.KnownBytes.{WriteAppends};
ghost use Rattle.pcm_base.specs.Causes.{HasCause};

use pcm_base::Failed;

/// Where bytes go. It has a count of the writes that failed, which never falls. This project's own.
pub trait Sink {
    /// The bytes that were written, where the sink tells them.
    ghost written: { Self → Option (List ℕ) };

    /// How often a write has failed.
    ghost faults: { Self → ℕ };

    /// Appends bytes from the front of `from`, at least one where `from` is not empty, and gives their count. `Failed`
    /// where it took nothing, which is counted; nothing was then appended.
    fn write_some(&mut self, from: &[u8]) -> Result<usize, Failed>
        ensures bound { WritesAtMost result from.now }
        ensures progress { IfOk result (λ n. 0 < length from.now → 0 < n) }
        ensures bytes { WriteAppends (written self.old) (written self.new) result from.now }
        ensures cause { HasCause (faults self.old) (faults self.new) result };
}
