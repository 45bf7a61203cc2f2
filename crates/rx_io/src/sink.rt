// Where bytes go.
ghost use Rattle.std.specs.Prelude.{ℕ, ◌<◌, List, length, IfOk};
ghost use Rattle.std.specs.declared.option.Option.{Option};
ghost use Rattle.std.specs.Io.{WritesAtMost};
ghost use Rattle.std.specs.Io.KnownBytes.{WriteAppends};
ghost use Rattle.rx_io.specs.Causes.{HasCause};

use crate::source::Failed;

/// Where bytes go, a piece at a time.
pub trait Sink {
    /// The bytes written, if the sink tells them.
    ghost written: { Self → Option (List ℕ) };

    /// How often the sink has failed.
    ghost faults: { Self → ℕ };

    /// Takes bytes from the front of the piece, and says how many: at least one of a piece that isn't empty.
    ///
    /// # Errors
    ///
    /// `Failed`: the count of faults rises then, and stays if the call succeeds. Nothing was written, and the next call
    /// may succeed. A writer that takes nothing of a piece that isn't empty has failed.
    fn write(&mut self, from: &[u8]) -> Result<usize, Failed>
        ensures bound { WritesAtMost result from.now }
        ensures some { 0 < length from.now → IfOk result (λ n. 0 < n) }
        ensures bytes { WriteAppends (written self.old) (written self.new) result from.now }
        ensures cause { HasCause (faults self.old) (faults self.new) result };
}
