// Turns of rendering, by what the report tells of them.
ghost use Rattle.std.specs.Prelude.{◌≡◌, ℕ, ◌+◌, ◌<◌, ◌≤◌, ◌^◌, true, false, List, Option, Some, IfOk, IfSome, OnOk, drop, length};
ghost use Rattle.rx_step.specs.declared.step.Step.{Step};
ghost use Rattle.rx_ast.specs.Syntax.{Program};
ghost use Rattle.rx_model.specs.Laws.{IsReached};
ghost use Rattle.rx_model.specs.State.{Progress, State};
ghost use Rattle.rx_model.specs.Turns.{gone_on, slice_of, unit_bound};
ghost use Rattle.choice_laws.specs.Choosing.{Fit};
ghost use Rattle.rx_plain.specs.Stands.{HasRoomForTurns, LeavesRoom, StandsFor, StandsWith};
ghost use Rattle.rx_verify.specs.Ends.{TellsEnd};
ghost use Rattle.rx_verify.specs.Following.{IsPlace, Left, flushes, turns};
ghost use Rattle.rx_verify.specs.Turning.{CanFollow, FollowsBetween, FollowsRender, Judges, StandsBetween, StandsInTurn};

use crate::ends::end_told;
use crate::knowing::known;
use rx_base::Steps;
use rx_check::Checked;
use rx_given::{Counts, Place, pass};
use rx_lane::Lanes;
use rx_plain::Plain;
use rx_report::Report;
use rx_sched::Choice;
use std::alloc::{AllocError, Global};
use std::sync::ledger::Ledger;

// No flush finishes more renders.
const FLUSH_LIMIT: u64 = 24;

// A render takes at most so many units.
fn most_units(checked: &Checked) -> u64
    ensures { result ≡ unit_bound checked.now }
{
    checked.program();
    4 * checked.bound() + 4
}

// The render in progress ends with these counts, which the report tells next.
fn finish<L: Ledger>(
    alloc: Global,
    plain: &mut Plain,
    checked: &Checked,
    report: &[u8],
    place: &mut Place,
    counts: Counts,
    steps: &mut Steps<L>,
) -> Result<bool, AllocError>
    requires in_turn { (budget : Option ℕ) × (t : StandsInTurn checked.now budget plain.old) × Fit checked.now t.progress (slice_of t.state t.progress budget) (record { units = counts.units; bodies = counts.bodies }) }
    requires room { HasRoomForTurns 1 plain.old }
    requires place { IsPlace report.now place.old }
    requires short { length report.now < 2 ^ 32 }
    ensures judged { IfOk result (λ agrees. (script : List Step) (budget : Option ℕ) (left : Left) → CanFollow budget left
        → (f : FollowsRender checked.now script report.now place.old budget left plain.old)
        → Fit checked.now f.render.progress (slice_of f.render.state f.render.progress budget) (record { units = counts.units; bodies = counts.bodies })
        → TellsEnd f.render.progress.lanes (record { units = counts.units; bodies = counts.bodies }) (drop place.old.bytes report.now)
        → Judges checked.now script report.now place.new (FollowsBetween checked.now script report.now place.new left plain.new) agrees) }
    ensures stands { OnOk result (StandsBetween checked.now plain.new) }
    ensures place { IfOk result (λ agrees. agrees ≡ true → IsPlace report.now place.new) }
    ensures room { OnOk result (LeavesRoom 1 plain.old plain.new) }
{
    known(checked);
    let tree = plain.render(checked, steps)?;
    let mut log = Report::new(alloc, true, false);
    plain.finish(checked, &tree, counts.units, counts.bodies, &mut log)?;
    Ok(pass(report, place, log.bytes()))
}

// The render in progress, which has used so many units and has a bound, uses up its slice. True if it may, and stay unfinished.
fn yields(plain: &mut Plain, used: u64, slice: Option<u64>, bound: u64) -> bool
    requires used { IfSome plain.old.going (λ g. g.units ≡ used) }
    ensures yes { result ≡ true → (n : ℕ) × (slice ≡ Some n) × (used + n < bound)
        × ((p : Program) (s : State) (g : Progress) → StandsWith p s (Some g) plain.old → IsReached p (record s { progress = Some (gone_on g n 0) })
        → StandsFor p (record s { progress = Some (gone_on g n 0) }) plain.new) }
    ensures not { result ≡ false → IfSome slice (λ n. bound ≤ used + n) }
    ensures rest { plain.new ≡ record plain.old { going = plain.new.going } }
{
    match slice {
        Some(units) if used.saturating_add(units) < bound => {
            plain.go_on(units);
            true
        }
        _ => false,
    }
}

// The render in progress goes on in its turn: it ends, if the report tells its end next, with counts that it may have. Else it
// yields, if it may.
fn go_on<L: Ledger>(
    alloc: Global,
    plain: &mut Plain,
    checked: &Checked,
    report: &[u8],
    place: &mut Place,
    budget: Option<u64>,
    steps: &mut Steps<L>,
) -> Result<bool, AllocError>
    requires in_turn { StandsInTurn checked.now budget plain.old }
    requires room { HasRoomForTurns 1 plain.old }
    requires place { IsPlace report.now place.old }
    requires short { length report.now < 2 ^ 32 }
    ensures judged { IfOk result (λ agrees. (script : List Step) (left : Left) → CanFollow budget left
        → FollowsRender checked.now script report.now place.old budget left plain.old
        → Judges checked.now script report.now place.new (FollowsBetween checked.now script report.now place.new left plain.new) agrees) }
    ensures stands { IfOk result (λ agrees. agrees ≡ true → StandsBetween checked.now plain.new) }
    ensures place { IfOk result (λ agrees. agrees ≡ true → IsPlace report.now place.new) }
    ensures room { OnOk result (LeavesRoom 1 plain.old plain.new) }
{
    known(checked);
    let lanes = plain.lanes().unwrap_or(Lanes::none());
    let used = plain.units().unwrap_or(0);
    let slice = plain.slice(budget);
    let bound = most_units(checked);
    match end_told(
        alloc,
        report,
        *place,
        plain.commits() + 1,
        lanes,
        used,
        slice,
        bound,
    )? {
        Some(counts) => finish(alloc, plain, checked, report, place, counts, steps),
        None => Ok(yields(plain, used, slice, bound)),
    }
}

// One turn. True if the report agrees with what it writes.
pub(crate) fn turn<L: Ledger>(
    alloc: Global,
    plain: &mut Plain,
    checked: &Checked,
    report: &[u8],
    place: &mut Place,
    budget: Option<u64>,
    steps: &mut Steps<L>,
) -> Result<bool, AllocError>
    requires stands { StandsBetween checked.now plain.old }
    requires room { HasRoomForTurns 1 plain.old }
    requires place { IsPlace report.now place.old }
    requires short { length report.now < 2 ^ 32 }
    ensures judged { IfOk result (λ agrees. (script : List Step) (left : Left) → CanFollow budget left
        → FollowsBetween checked.now script report.now place.old (turns budget left) plain.old
        → Judges checked.now script report.now place.new (FollowsBetween checked.now script report.now place.new left plain.new) agrees) }
    ensures stands { IfOk result (λ agrees. agrees ≡ true → StandsBetween checked.now plain.new) }
    ensures place { IfOk result (λ agrees. agrees ≡ true → IsPlace report.now place.new) }
    ensures room { OnOk result (LeavesRoom 1 plain.old plain.new) }
{
    known(checked);
    match plain.next_turn() {
        Choice::None => Ok(true),
        Choice::Keep => go_on(alloc, plain, checked, report, place, budget, steps),
        Choice::Start(lanes) => {
            let mut log = Report::new(alloc, true, false);
            plain.start(lanes, &mut log)?;
            if !pass(report, place, log.bytes()) {
                return Ok(false);
            }
            go_on(alloc, plain, checked, report, place, budget, steps)
        }
    }
}

// Turns that aren't sliced, until nothing is left to render. True if the report agrees with what they write.
pub(crate) fn flush<L: Ledger>(
    alloc: Global,
    plain: &mut Plain,
    checked: &Checked,
    report: &[u8],
    place: &mut Place,
    steps: &mut Steps<L>,
) -> Result<bool, AllocError>
    requires stands { StandsBetween checked.now plain.old }
    requires room { HasRoomForTurns 24 plain.old }
    requires place { IsPlace report.now place.old }
    requires short { length report.now < 2 ^ 32 }
    ensures judged { IfOk result (λ agrees. (script : List Step) (left : Left)
        → FollowsBetween checked.now script report.now place.old (flushes 24 left) plain.old
        → Judges checked.now script report.now place.new (FollowsBetween checked.now script report.now place.new left plain.new) agrees) }
    ensures stands { IfOk result (λ agrees. agrees ≡ true → StandsBetween checked.now plain.new) }
    ensures place { IfOk result (λ agrees. agrees ≡ true → IsPlace report.now place.new) }
    ensures room { OnOk result (LeavesRoom 24 plain.old plain.new) }
{
    known(checked);
    'turns: for taken in 0..FLUSH_LIMIT {
        if let Choice::None = plain.next_turn() {
            return Ok(true);
        }
        if !turn(alloc, plain, checked, report, place, None, steps)? {
            return Ok(false);
        }
    }
    Ok(true)
}
