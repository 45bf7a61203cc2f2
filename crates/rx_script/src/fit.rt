// Whether a step that no line was read for fits a program.
ghost use Rattle.std.specs.Prelude.{◌≡◌, ◌&&◌};
ghost use Rattle.rx_step.specs.declared.step.Step.TheVariants as step;
ghost use Rattle.rx_script.specs.Lines.{has_targets as are_targets_there, in_bounds};

use crate::form::{GREATEST_COUNT, is_integer};
use crate::path::is_path_in_bounds;
use crate::targets::{has_dispatch_targets, has_targets};
use rx_check::Checked;
use rx_step::{Dispatch, Step};

// Whether the numbers of a dispatch are in their bounds.
fn is_dispatch_in_bounds(checked: &Checked, dispatch: &Dispatch) -> bool
    ensures { result ≡ in_bounds checked.now (step.Dispatch dispatch.now) }
{
    match dispatch {
        Dispatch::Set(_, path, _, value)
        | Dispatch::Call(_, path, _, _, value)
        | Dispatch::Send(_, path, _, value) => {
            is_integer(checked, i128::from(value.value())) && is_path_in_bounds(checked, path)
        }
        Dispatch::Start(_, path, _) => is_integer(checked, 0) && is_path_in_bounds(checked, path),
        Dispatch::Refresh(_, _) => true,
    }
}

// Whether the numbers of a step are in their bounds.
fn is_step_in_bounds(checked: &Checked, step: &Step) -> bool
    ensures { result ≡ in_bounds checked.now step.now }
{
    match step {
        Step::Dispatch(dispatch) => is_dispatch_in_bounds(checked, dispatch),
        Step::Resolve(_, value) => is_integer(checked, i128::from(value.value())),
        Step::Tick(time) => *time <= GREATEST_COUNT,
        Step::Work(budget) => 1 <= *budget && *budget <= GREATEST_COUNT,
        Step::Flush | Step::FlushSync | Step::Passive | Step::Event | Step::State | Step::Tree =>
            true,
    }
}

/// Whether a dispatch is one that a line of a script may be: all that it names is in the program, and its numbers are in
/// their bounds.
pub fn dispatch_fits(checked: &Checked, dispatch: &Dispatch) -> bool
    ensures { result ≡ (are_targets_there checked.now (step.Dispatch dispatch.now) && in_bounds checked.now (step.Dispatch dispatch.now)) }
{
    has_dispatch_targets(checked, dispatch) && is_dispatch_in_bounds(checked, dispatch)
}

/// Whether a step is one that a line of a script may be: all that it names is in the program, and its numbers are in their
/// bounds.
pub fn step_fits(checked: &Checked, step: &Step) -> bool
    ensures { result ≡ (are_targets_there checked.now step.now && in_bounds checked.now step.now) }
{
    has_targets(checked, step) && is_step_in_bounds(checked, step)
}
