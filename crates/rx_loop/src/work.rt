// Work that is done in units.
ghost use Rattle.std.specs.Prelude.{◌≡◌, ◌+◌, ◌<◌, ◌≤◌, IfOk, OnOk, OnErr};
ghost use Rattle.rx_loop.specs.Ends.{MatchUnit};

use rx_base::Steps;
use std::alloc::AllocError;
use std::sync::ledger::Ledger;

/// Whether more units follow one.
#[derive(Clone, Copy, Debug, PartialEq, Eq)]
pub enum Unit {
    More,
    Last,
}

/// Work that is done in units, as a render that yields between two of them (react.dev, useTransition: a render of a
/// transition can be interrupted).
pub trait Units {
    ghost use Rattle.std.specs.Prelude.{ℕ};

    /// How many units are left, at most.
    ghost left: { Self → ℕ };

    /// How many were done so far.
    ghost done: { Self → ℕ };

    /// How many bodies were evaluated so far.
    ghost bodies: { Self → ℕ };

    /// What holds between two moments of one piece of work.
    ghost goes_on: { Self → Self → Type 0 };

    /// What holds between a moment of the work and the moment after memory ran out.
    ghost gives_up: { Self → Self → Type 0 };

    /// Does one unit, and counts the body that it evaluates, if it evaluates one: however it ends, it counts no second one.
    ///
    /// # Errors
    ///
    /// Only if out of memory.
    fn unit<L: Ledger>(&mut self, steps: &mut Steps<L>) -> Result<Unit, AllocError>
        requires { 0 < left self.old }
        ensures falls { OnOk result (left self.new < left self.old) }
        ensures last { IfOk result (λ u. MatchUnit u (left self.new ≡ 0) (0 < left self.new)) }
        ensures counts { OnOk result (done self.new ≡ done self.old + 1) }
        ensures ticks { OnOk result (steps.new + bodies self.old ≡ steps.old + bodies self.new) }
        ensures each { OnOk result (bodies self.new ≤ bodies self.old + 1) }
        ensures onward { OnOk result (goes_on self.old self.new) }
        ensures given_up { OnErr result (gives_up self.old self.new) }
        ensures rises { steps.old ≤ steps.new }
        ensures at_most_one { steps.new ≤ steps.old + 1 };

    ghost starts: { (x : Self) → goes_on x x };

    ghost joins: { (x y z : Self) → goes_on x y → goes_on y z → goes_on x z };

    ghost breaks_off: { (x y z : Self) → goes_on x y → gives_up y z → gives_up x z };
}
