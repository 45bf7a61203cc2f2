// What operations make of a state.
ghost use Rattle.std.specs.Prelude.{◌≡◌};
ghost use Rattle.rx_queue.specs.History.{applied};

use crate::update::Op;
use rx_base::Int;

/// What a program's functions make of a state.
pub trait Fold {
    ghost use Rattle.std.specs.Prelude.{ℕ, ℤ};

    /// What each function answers, of its number, a state and an argument.
    ghost answers: { Self → ℕ → ℤ → ℤ → ℤ };

    /// The state after an operation.
    fn apply(&self, op: &Op, state: Int) -> Int
        ensures { result ≡ applied (answers self.now) state op.now };
}
