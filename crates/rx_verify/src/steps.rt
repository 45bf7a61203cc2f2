// The steps of a script, while a report is followed.
ghost use Rattle.std.specs.Prelude.{◌≡◌, ℕ, ◌+◌, ◌∷◌, ◌<◌, ◌^◌, true, List, IfOk, OnOk, length};
ghost use Rattle.rx_step.specs.declared.step.Step.{Step};
ghost use Rattle.rx_model.specs.State.{State};
ghost use Rattle.rx_plain.specs.Doing.{HasDone};
ghost use Rattle.rx_plain.specs.Stands.{HasRoomFor, StandsFor, StandsForSome};
ghost use Rattle.rx_kept.specs.Taking.{CanTake};
ghost use Rattle.rx_verify.specs.Following.{IsPlace, Left, all_of, takes};
ghost use Rattle.rx_verify.specs.Steps.{IsSilent, step_as};
ghost use Rattle.rx_verify.specs.Turning.{Follows, Judges};

use crate::knowing::known;
use crate::turns::{flush, turn};
use rx_base::Steps;
use rx_check::Checked;
use rx_given::{Place, pass};
use rx_lane::Lane;
use rx_plain::Plain;
use rx_report::Report;
use rx_step::Step;
use std::alloc::{AllocError, Global};
use std::sync::ledger::Ledger;

// Takes a step that renders nothing: the log gets its lines.
fn take(
    plain: &mut Plain,
    checked: &Checked,
    step: &Step,
    log: &mut Report,
) -> Result<(), AllocError>
    requires stands { StandsForSome checked.now plain.old }
    requires fits { CanTake checked.now step.now }
    requires room { HasRoomFor 1 plain.old }
    requires quiet { IsSilent step.now }
    ensures done { OnOk result ((s : State) → StandsFor checked.now s plain.old → IsSilent step.now → HasDone checked.now (step_as checked.now s step.now) plain.new log.old log.new) }
    ensures left { OnOk result ((k : ℕ) → HasRoomFor (k + 1) plain.old → HasRoomFor k plain.new) }
{
    match step {
        Step::Dispatch(dispatch) => plain.dispatch(checked, dispatch, log),
        Step::Resolve(name, value) => plain.resolve(checked, name, *value, log),
        Step::Tick(time) => {
            plain.tick(*time);
            Ok(())
        }
        Step::Passive => plain.passive(log),
        Step::Event => {
            plain.end_event();
            Ok(())
        }
        Step::State => {
            plain.states(checked, log)?;
            plain.end_event();
            Ok(())
        }
        Step::Tree => {
            plain.tree(checked, log)?;
            plain.end_event();
            Ok(())
        }
        Step::Work(_) | Step::Flush | Step::FlushSync => Ok(()),
    }
}

// Takes a step that renders nothing. True if the report agrees with what it writes.
fn take_and_pass(
    alloc: Global,
    plain: &mut Plain,
    checked: &Checked,
    report: &[u8],
    place: &mut Place,
    step: &Step,
) -> Result<bool, AllocError>
    requires stands { StandsForSome checked.now plain.old }
    requires fits { CanTake checked.now step.now }
    requires room { HasRoomFor 1 plain.old }
    requires place { IsPlace report.now place.old }
    requires short { length report.now < 2 ^ 32 }
    requires quiet { IsSilent step.now }
    ensures judged { IfOk result (λ agrees. (script : List Step) (left : Left)
        → Follows checked.now script report.now place.old (takes step.now left) plain.old
        → Judges checked.now script report.now place.new (Follows checked.now script report.now place.new left plain.new) agrees) }
    ensures stands { OnOk result (StandsForSome checked.now plain.new) }
    ensures place { IfOk result (λ agrees. agrees ≡ true → IsPlace report.now place.new) }
    ensures left { OnOk result ((k : ℕ) → HasRoomFor (k + 1) plain.old → HasRoomFor k plain.new) }
{
    known(checked);
    let mut log = Report::new(alloc, true, false);
    take(plain, checked, step, &mut log)?;
    Ok(pass(report, place, log.bytes()))
}

// Takes one turn that isn't sliced, if Sync is pending. True if the report agrees with what it writes.
fn flush_sync<L: Ledger>(
    alloc: Global,
    plain: &mut Plain,
    checked: &Checked,
    report: &[u8],
    place: &mut Place,
    steps: &mut Steps<L>,
) -> Result<bool, AllocError>
    requires stands { StandsForSome checked.now plain.old }
    requires room { HasRoomFor 1 plain.old }
    requires place { IsPlace report.now place.old }
    requires short { length report.now < 2 ^ 32 }
    ensures judged { IfOk result (λ agrees. (script : List Step) (left : Left)
        → Follows checked.now script report.now place.old (takes Step.FlushSync left) plain.old
        → Judges checked.now script report.now place.new (Follows checked.now script report.now place.new left plain.new) agrees) }
    ensures stands { IfOk result (λ agrees. agrees ≡ true → StandsForSome checked.now plain.new) }
    ensures place { IfOk result (λ agrees. agrees ≡ true → IsPlace report.now place.new) }
    ensures left { OnOk result ((k : ℕ) → HasRoomFor (k + 1) plain.old → HasRoomFor k plain.new) }
{
    let is_due = plain.pending().has(Lane::Sync);
    plain.end_event();
    if is_due {
        turn(alloc, plain, checked, report, place, None, steps)
    } else {
        Ok(true)
    }
}

/// Takes a step of a script. True if the report agrees with what it writes.
///
/// # Errors
///
/// Only if out of memory; the machine is then of no use.
pub(crate) fn take_step<L: Ledger>(
    alloc: Global,
    plain: &mut Plain,
    checked: &Checked,
    report: &[u8],
    place: &mut Place,
    step: &Step,
    steps: &mut Steps<L>,
) -> Result<bool, AllocError>
    requires stands { StandsForSome checked.now plain.old }
    requires fits { CanTake checked.now step.now }
    requires room { HasRoomFor 1 plain.old }
    requires place { IsPlace report.now place.old }
    requires short { length report.now < 2 ^ 32 }
    ensures judged { IfOk result (λ agrees. (script : List Step) (xs : List Step)
        → Follows checked.now script report.now place.old (all_of (step.now ∷ xs)) plain.old
        → Judges checked.now script report.now place.new (Follows checked.now script report.now place.new (all_of xs) plain.new) agrees) }
    ensures stands { IfOk result (λ agrees. agrees ≡ true → StandsForSome checked.now plain.new) }
    ensures place { IfOk result (λ agrees. agrees ≡ true → IsPlace report.now place.new) }
    ensures left { OnOk result ((k : ℕ) → HasRoomFor (k + 1) plain.old → HasRoomFor k plain.new) }
{
    match step {
        Step::Work(budget) => {
            plain.end_event();
            turn(alloc, plain, checked, report, place, Some(*budget), steps)
        }
        Step::Flush => {
            plain.end_event();
            flush(alloc, plain, checked, report, place, steps)
        }
        Step::FlushSync => flush_sync(alloc, plain, checked, report, place, steps),
        _ => take_and_pass(alloc, plain, checked, report, place, step),
    }
}
