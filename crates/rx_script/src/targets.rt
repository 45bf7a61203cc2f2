// What the steps of a script name.
ghost use Rattle.std.specs.Prelude.{◌≡◌, option_and_then};
ghost use Rattle.rx_step.specs.declared.step.Step.TheVariants as step;
ghost use Rattle.rx_check.specs.Tables.{hook_named};
ghost use Rattle.rx_script.specs.Lines.{has_targets as are_targets_there, is_flag as is_one_of_transition, is_reducer as is_one_of_reducer, is_resource as is_one_of_resources, is_state as is_one_of_state, is_updater as is_one_of_two, target_from, target_of};
ghost use Rattle.rx_script.specs.Readings.{target_in};

use rx_base::Name;
use rx_check::{Checked, HookKind};
use rx_step::{Dispatch, Path, Step};

/// The component that the rest of a path ends at, if each of its names is one of a component.
fn target_behind(checked: &Checked, root: u32, parts: &[(Name, u64)]) -> Option<u32>
    ensures { result ≡ target_from checked.now root parts.now }
{
    let mut component = root;
    'parts: for part in parts {
        component = checked.component(part.0.text())?;
    }
    Some(component)
}

/// The component that a path ends at, if it begins with the root's name, and each of its names is one of a component.
pub(crate) fn target(checked: &Checked, path: &Path) -> Option<u32>
    ensures { result ≡ target_of checked.now path.now }
{
    match path.parts() {
        [] => None,
        [first, rest @ ..] => {
            if first.0.text() != "App" {
                return None;
            }
            let root = checked.component(first.0.text())?;
            target_behind(checked, root, rest)
        }
    }
}

/// The component that the path of a dispatch ends at, if it has a path.
fn dispatch_target(checked: &Checked, dispatch: &Dispatch) -> Option<u32>
    ensures { result ≡ target_in checked.now (step.Dispatch dispatch.now) }
{
    match dispatch {
        Dispatch::Set(_, path, _, _)
        | Dispatch::Call(_, path, _, _, _)
        | Dispatch::Send(_, path, _, _)
        | Dispatch::Start(_, path, _) => target(checked, path),
        Dispatch::Refresh(_, _) => None,
    }
}

/// The hook of this name in a component, if there is one.
fn hook(checked: &Checked, component: Option<u32>, name: &Name) -> Option<HookKind>
    ensures { result ≡ option_and_then (λ c. hook_named checked.now c name.now) component }
{
    checked.hook(component?, name.text())
}

/// Whether there is a hook, one of `useState`.
fn is_state(hook: Option<HookKind>) -> bool
    ensures { result ≡ is_one_of_state hook }
{
    match hook {
        Some(HookKind::State { .. }) => true,
        Some(HookKind::Reducer { .. }) => false,
        Some(HookKind::Transition { .. }) => false,
        None => false,
    }
}

/// Whether there is a hook, one of `useReducer`.
fn is_reducer(hook: Option<HookKind>) -> bool
    ensures { result ≡ is_one_of_reducer hook }
{
    match hook {
        Some(HookKind::State { .. }) => false,
        Some(HookKind::Reducer { .. }) => true,
        Some(HookKind::Transition { .. }) => false,
        None => false,
    }
}

/// Whether there is a hook, one of `useTransition`.
fn is_flag(hook: Option<HookKind>) -> bool
    ensures { result ≡ is_one_of_transition hook }
{
    match hook {
        Some(HookKind::State { .. }) => false,
        Some(HookKind::Reducer { .. }) => false,
        Some(HookKind::Transition { .. }) => true,
        None => false,
    }
}

/// Whether this is the name of a function of a state and an argument.
fn is_updater(checked: &Checked, name: &Name) -> bool
    ensures { result ≡ is_one_of_two checked.now name.now }
{
    match checked.function(name.text()) {
        Some(function) => checked.parameters_of(function) == 2,
        None => false,
    }
}

/// Whether this is the name of a resource.
fn is_resource(checked: &Checked, name: &Name) -> bool
    ensures { result ≡ is_one_of_resources checked.now name.now }
{
    checked.resource(name.text()).is_some()
}

/// Whether all that a dispatch names is there, if its path ends at this component.
fn has_targets_in(checked: &Checked, dispatch: &Dispatch, component: Option<u32>) -> bool
    requires { component ≡ target_in checked.now (step.Dispatch dispatch.now) }
    ensures { result ≡ are_targets_there checked.now (step.Dispatch dispatch.now) }
{
    match dispatch {
        Dispatch::Set(_, _, name, _) => is_state(hook(checked, component, name)),
        Dispatch::Call(_, _, name, function, _) => {
            is_state(hook(checked, component, name)) && is_updater(checked, function)
        }
        Dispatch::Send(_, _, name, _) => is_reducer(hook(checked, component, name)),
        Dispatch::Start(_, _, name) => is_flag(hook(checked, component, name)),
        Dispatch::Refresh(_, name) => is_resource(checked, name),
    }
}

/// Whether all that a dispatch names is there.
pub(crate) fn has_dispatch_targets(checked: &Checked, dispatch: &Dispatch) -> bool
    ensures { result ≡ are_targets_there checked.now (step.Dispatch dispatch.now) }
{
    has_targets_in(checked, dispatch, dispatch_target(checked, dispatch))
}

/// Whether all that a step names is there, if its path ends at this component.
pub(crate) fn has_targets_at(checked: &Checked, step: &Step, component: Option<u32>) -> bool
    requires { component ≡ target_in checked.now step.now }
    ensures { result ≡ are_targets_there checked.now step.now }
{
    match step {
        Step::Dispatch(dispatch) => has_targets_in(checked, dispatch, component),
        Step::Resolve(name, _) => is_resource(checked, name),
        Step::Tick(_)
        | Step::Work(_)
        | Step::Flush
        | Step::FlushSync
        | Step::Passive
        | Step::Event
        | Step::State
        | Step::Tree => true,
    }
}

/// Whether all that a step names is there.
pub(crate) fn has_targets(checked: &Checked, step: &Step) -> bool
    ensures { result ≡ are_targets_there checked.now step.now }
{
    let component = match step {
        Step::Dispatch(dispatch) => dispatch_target(checked, dispatch),
        _ => None,
    };
    has_targets_at(checked, step, component)
}
