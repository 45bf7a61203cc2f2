// What a dispatch says.
ghost use Rattle.std.specs.Prelude.{◌≡◌, true, false};
ghost use Rattle.rx_model.specs.Accepting.{event_of, goes_on, op_of};
ghost use Rattle.rx_model.specs.State.{reducer_named};
ghost use Rattle.rx_names.specs.Listed.{function_names};
ghost use Rattle.rx_rules.specs.Names.{function_number};
ghost use Rattle.rx_step.specs.Steps.{hook_name, path_of, word_of};
ghost use Rattle.rx_dispatch.specs.Kinds.{function_in, is_refresh, is_start};

use rx_base::{Int, Name};
use rx_check::{Checked, HookKind};
use rx_queue::Op;
use rx_sched::Event;
use rx_step::{Dispatch, LaneWord};

/// The lane that a dispatch asks for.
pub fn dispatch_word(dispatch: &Dispatch) -> LaneWord
    ensures { result ≡ word_of dispatch.now }
{
    match dispatch {
        Dispatch::Set(word, ..)
        | Dispatch::Call(word, ..)
        | Dispatch::Send(word, ..)
        | Dispatch::Refresh(word, _) => *word,
        Dispatch::Start(word, ..) => word.lane(),
    }
}

/// The path to the instance that a dispatch is for, part by part; empty if it is for a resource.
pub fn dispatch_path(dispatch: &Dispatch) -> &[(Name, u64)]
    ensures { result.now ≡ path_of dispatch.now }
{
    match dispatch {
        Dispatch::Set(_, path, ..)
        | Dispatch::Call(_, path, ..)
        | Dispatch::Send(_, path, ..)
        | Dispatch::Start(_, path, _) => path.parts(),
        Dispatch::Refresh(..) => &[],
    }
}

// The event of a dispatch with this lane: it goes on with the one before it; if a start began that, only a transition does.
fn goes_on(word: LaneWord, event: Event) -> Event
    ensures { result ≡ goes_on word event }
{
    match word {
        LaneWord::Transition => event,
        LaneWord::Sync | LaneWord::Input | LaneWord::Default => {
            if event.started {
                Event::new(false)
            } else {
                event
            }
        }
    }
}

/// The event that a dispatch is part of, by the one before it: a start begins one of its own (react.dev, startTransition).
pub fn dispatch_event(dispatch: &Dispatch, event: Event) -> Event
    ensures { result ≡ event_of dispatch.now event }
{
    match dispatch {
        Dispatch::Set(word, ..)
        | Dispatch::Call(word, ..)
        | Dispatch::Send(word, ..)
        | Dispatch::Refresh(word, _) => goes_on(*word, event),
        Dispatch::Start(..) => Event::new(true),
    }
}

/// Whether a dispatch starts a transition.
pub fn is_start(dispatch: &Dispatch) -> bool
    ensures { result ≡ is_start dispatch.now }
{
    match dispatch {
        Dispatch::Start(..) => true,
        Dispatch::Set(..) | Dispatch::Call(..) | Dispatch::Send(..) | Dispatch::Refresh(..) => {
            false
        }
    }
}

/// Whether a dispatch asks for another version of a resource.
pub fn is_refresh(dispatch: &Dispatch) -> bool
    ensures { result ≡ is_refresh dispatch.now }
{
    match dispatch {
        Dispatch::Refresh(..) => true,
        Dispatch::Set(..) | Dispatch::Call(..) | Dispatch::Send(..) | Dispatch::Start(..) => false,
    }
}

/// The name of the hook or the resource that a dispatch is for.
pub fn dispatch_hook(dispatch: &Dispatch) -> &Name
    ensures { result.now ≡ hook_name dispatch.now }
{
    match dispatch {
        Dispatch::Set(_, _, name, _)
        | Dispatch::Call(_, _, name, _, _)
        | Dispatch::Send(_, _, name, _)
        | Dispatch::Start(_, _, name)
        | Dispatch::Refresh(_, name) => name,
    }
}

// The number of a function, by its name; 0 if there is none.
fn function_number(checked: &Checked, name: &str) -> u32
    ensures { result ≡ function_number checked.now name.now }
{
    checked.function(name).unwrap_or(0)
}

// The number of the function of a hook that was found; if it has none, that of no name.
fn function_in(checked: &Checked, found: Option<HookKind>) -> u32
    ensures { result ≡ function_in (function_names checked.now) found }
{
    match found {
        Some(HookKind::Reducer { function, .. }) => function,
        Some(HookKind::State { .. } | HookKind::Transition { .. }) | None => {
            function_number(checked, "")
        }
    }
}

// The number of the function of a component's reducer, by the name of its hook.
fn reducer_number(checked: &Checked, component: u32, name: &Name) -> u32
    ensures { result ≡ function_number checked.now (reducer_named checked.now component name.now) }
{
    function_in(checked, checked.hook(component, name.text()))
}

/// What a dispatch does to the state of its hook, in an instance of this component (react.dev, useState and useReducer), or to its
/// resource.
pub fn dispatch_op(checked: &Checked, component: u32, dispatch: &Dispatch) -> Op
    ensures { result ≡ op_of checked.now component dispatch.now }
{
    match dispatch {
        Dispatch::Set(_, _, _, value) => Op::Set(*value),
        Dispatch::Call(_, _, _, function, value) => {
            Op::Call(function_number(checked, function.text()), *value)
        }
        Dispatch::Send(_, _, name, action) => {
            Op::Call(reducer_number(checked, component, name), *action)
        }
        Dispatch::Start(..) => Op::Set(Int::of(1)),
        Dispatch::Refresh(..) => Op::Refresh,
    }
}
