// Turns of work.
ghost use Rattle.std.specs.Prelude.{◌≡◌, true, ◌+◌, ◌<◌, ◌≤◌, ◌^◌, IfOk, OnOk, OnErr};
ghost use Rattle.rx_loop.specs.Ends.{MatchDriven};

use crate::work::{Unit, Units};
use rx_base::Steps;
use std::alloc::AllocError;
use std::sync::ledger::Ledger;

/// How a turn ended, and how many units it used.
#[derive(Clone, Copy, Debug, PartialEq, Eq)]
pub enum Driven {
    Finished { used: u64 },
    Yielded { used: u64 },
}

/// Does units until one is the last or, if the turn is sliced, until the budget is used: it yields exactly if it is
/// sliced, the budget is used, and units are left.
///
/// # Errors
///
/// Only if out of memory; what the units before did stays.
pub fn drive<U: Units, L: Ledger>(
    units: &mut U,
    budget: u64,
    sliced: bool,
    steps: &mut Steps<L>,
) -> Result<Driven, AllocError>
    requires some { 0 < U.left units.old }
    requires few { U.left units.old < 2 ^ 64 }
    requires positive { 0 < budget }

    ensures ends { IfOk result (λ d. MatchDriven d
        (λ used. (U.left units.new ≡ 0) × (used ≤ U.left units.old) × (sliced ≡ true → used ≤ budget))
        (λ used. (0 < U.left units.new) × (used + U.left units.new ≤ U.left units.old) × (sliced ≡ true) × (used ≡ budget))) }
    ensures counts { IfOk result (λ d. MatchDriven d
        (λ used. U.done units.new ≡ U.done units.old + used)
        (λ used. U.done units.new ≡ U.done units.old + used)) }
    ensures used { IfOk result (λ d. MatchDriven d (λ used. 0 < used) (λ used. 0 < used)) }
    ensures each { IfOk result (λ d. MatchDriven d
        (λ used. U.bodies units.new ≤ U.bodies units.old + used)
        (λ used. U.bodies units.new ≤ U.bodies units.old + used)) }
    ensures ticks { OnOk result (steps.new + U.bodies units.old ≡ steps.old + U.bodies units.new) }
    ensures onward { OnOk result (U.goes_on units.old units.new) }

    ensures given_up { OnErr result (U.gives_up units.old units.new) }
    ensures rises { steps.old ≤ steps.new }

    // However it ends, it counts at most one body for each unit that was left, and for each of its slice.
    ensures within { steps.new ≤ steps.old + U.left units.old }
    ensures in_slice { sliced ≡ true → steps.new ≤ steps.old + budget }
{
    let mut used: u64 = 0;
    'driving: loop {
        let unit = units.unit(steps)?;
        used += 1;
        match unit {
            Unit::Last => return Ok(Driven::Finished { used }),
            Unit::More => {
                if sliced && used == budget {
                    return Ok(Driven::Yielded { used });
                }
            }
        }
    }
}
