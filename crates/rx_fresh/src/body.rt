// The body of a component's place, evaluated.
ghost use Rattle.std.specs.Prelude.{◌≡◌, [], Option, Some, length, IfOk, IfSome, IsSome, option_map, option_and_then};
ghost use Rattle.std.specs.Option.{option_copied};
ghost use Rattle.rx_rules.specs.Names.{component_at, prop_names};
ghost use Rattle.rx_elem.specs.Trees as trees;
ghost use Rattle.rx_meaning.specs.Fresh.{Sight, values_of};
ghost use Rattle.rx_hook_store.specs.Store.{kept_hooks};
ghost use Rattle.rx_fresh.specs.Giving.{given_seen};
ghost use Rattle.rx_fresh.specs.Evaluated.{AreEvaluated, Gives, childless};
ghost use Rattle.rx_fresh.specs.Seeing.{IsBodyAt, IsBodyOf, IsSnapshotOf, GivesHooks, GoesOn, number_in};

use crate::evaluations::Evaluations;
use crate::given::{Given, shared};
use crate::snapshot::Snapshot;
use rx_base::{Int, Ints, Steps};
use rx_elem::Element;
use rx_eval::{Evaluator, Inputs, eval_body};
use rx_hook_store::HookStore;
use std::alloc::{AllocError, Global};
use std::sync::ledger::Ledger;

// The values of the hooks of an instance that has a number.
fn numbered_values(
    alloc: Global,
    shot: &Snapshot,
    number: u64,
    hooks: &mut HookStore,
) -> Result<Ints, AllocError>
    requires { IsSome (kept_hooks hooks.old number) }
    ensures values { IfOk result (λ v. (s : Sight) (old : Option trees.Instance) → IsSnapshotOf shot.now s → number_in old ≡ Some number → GivesHooks s (kept_hooks hooks.old) old → Some v ≡ option_and_then (values_of s) old) }
    ensures goes { GoesOn shot.now.checked.now shot.now.lanes shot.now.cut (kept_hooks hooks.old) (kept_hooks hooks.new) }
{
    let fold = Evaluator::new(shot.checked);
    let values = hooks.render_values(alloc, number, &fold, shot.lanes, shot.cut)?;
    Ok(values)
}

// The values of the hooks of an instance, if it has a number.
fn values_of(
    alloc: Global,
    shot: &Snapshot,
    number: Option<u64>,
    hooks: &mut HookStore,
) -> Result<Option<Ints>, AllocError>
    requires { IfSome number (λ n. IsSome (kept_hooks hooks.old n)) }
    ensures values { IfOk result (λ v. (s : Sight) (old : Option trees.Instance) → IsSnapshotOf shot.now s → number_in old ≡ number → GivesHooks s (kept_hooks hooks.old) old → v ≡ option_and_then (values_of s) old) }
    ensures goes { GoesOn shot.now.checked.now shot.now.lanes shot.now.cut (kept_hooks hooks.old) (kept_hooks hooks.new) }
{
    match number {
        None => Ok(None),
        Some(number) => {
            let values = numbered_values(alloc, shot, number, hooks)?;
            Ok(Some(values))
        }
    }
}

fn slice_of(values: &Option<Ints>) -> Option<&[Int]>
    ensures { option_copied result ≡ values.now }
{
    match values {
        Some(values) => Some(values.as_slice()),
        None => None,
    }
}

// A component's body, if its hooks have these states.
fn evaluate<'x, L: Ledger>(
    alloc: Global,
    shot: &'x Snapshot<'x>,
    component: u32,
    props: &'x Ints,
    children: &'x [Element],
    states: Option<&'x [Int]>,
    contexts: &'x [Int],
    steps: &mut Steps<L>,
) -> Result<Given, AllocError>
    requires { option_map (λ d. length (prop_names d)) (component_at shot.now.checked.now component) ≡ Some (length props.now) }
    ensures { IfOk result (λ g. Gives shot.now.checked.now component (record { props = props.now; children = children.now; hooks = option_copied states.entry; contexts = contexts.now; versions = shot.now.versions.now; resources = shot.now.resources.now }) (given_seen g)) }
{
    let versions = shot.versions;
    let resources = shot.resources;
    let inputs = Inputs {
        props: props.as_slice(),
        children,
        hooks: states,
        contexts,
        versions,
        resources,
    };
    let body = eval_body(alloc, shot.checked, component, &inputs, steps)?;
    shared(alloc, body)
}

// The body of an instance that is given no children, by the values of its hooks. Where its last evaluation was made from the same,
// what that gave is handed on (react.dev, memo).
fn body_again<L: Ledger>(
    alloc: Global,
    shot: &Snapshot,
    component: u32,
    props: &Ints,
    number: u64,
    values: Ints,
    contexts: &[Int],
    last: &mut Evaluations,
    steps: &mut Steps<L>,
) -> Result<Given, AllocError>
    requires given { option_map (λ d. length (prop_names d)) (component_at shot.now.checked.now component) ≡ Some (length props.now) }
    requires evaluated { AreEvaluated shot.now.checked.now last.old }
    ensures gives { IfOk result (λ g. Gives shot.now.checked.now component (childless props.now values contexts.now shot.now.versions.now shot.now.resources.now) (given_seen g)) }
    ensures evaluated { AreEvaluated shot.now.checked.now last.new }
{
    if let Some(ready) = last.again(number, component, props, &values, contexts)? {
        return Ok(Given::Ready(ready));
    }
    let states = Some(values.as_slice());
    let given = evaluate(alloc, shot, component, props, &[], states, contexts, steps)?;
    if let Given::Ready(ready) = &given {
        last.keep(alloc, number, component, props, values, ready)?;
    }
    Ok(given)
}

// A component's body, evaluated anew from the hooks of its old instance.
fn body_anew<L: Ledger>(
    alloc: Global,
    shot: &Snapshot,
    component: u32,
    props: &Ints,
    children: &[Element],
    number: Option<u64>,
    contexts: &[Int],
    hooks: &mut HookStore,
    steps: &mut Steps<L>,
) -> Result<Given, AllocError>
    requires given { option_map (λ d. length (prop_names d)) (component_at shot.now.checked.now component) ≡ Some (length props.now) }
    requires kept { IfSome number (λ n. IsSome (kept_hooks hooks.old n)) }
    ensures body { IfOk result (λ g. IsBodyAt shot.now component props.now children.now number contexts.now (kept_hooks hooks.old) (given_seen g)) }
    ensures given { IfOk result (λ g. IsBodyOf shot.now.checked.now component children.now (given_seen g)) }
    ensures goes { GoesOn shot.now.checked.now shot.now.lanes shot.now.cut (kept_hooks hooks.old) (kept_hooks hooks.new) }
{
    let values = values_of(alloc, shot, number, hooks)?;
    let states = slice_of(&values);
    evaluate(
        alloc, shot, component, props, children, states, contexts, steps,
    )
}

// The body of an instance that is given no children, evaluated anew or handed on.
fn body_of_instance<L: Ledger>(
    alloc: Global,
    shot: &Snapshot,
    component: u32,
    props: &Ints,
    number: u64,
    contexts: &[Int],
    hooks: &mut HookStore,
    last: &mut Evaluations,
    steps: &mut Steps<L>,
) -> Result<Given, AllocError>
    requires given { option_map (λ d. length (prop_names d)) (component_at shot.now.checked.now component) ≡ Some (length props.now) }
    requires kept { IsSome (kept_hooks hooks.old number) }
    requires evaluated { AreEvaluated shot.now.checked.now last.old }
    ensures body { IfOk result (λ g. IsBodyAt shot.now component props.now [] (Some number) contexts.now (kept_hooks hooks.old) (given_seen g)) }
    ensures given { IfOk result (λ g. IsBodyOf shot.now.checked.now component [] (given_seen g)) }
    ensures goes { GoesOn shot.now.checked.now shot.now.lanes shot.now.cut (kept_hooks hooks.old) (kept_hooks hooks.new) }
    ensures evaluated { AreEvaluated shot.now.checked.now last.new }
{
    let values = numbered_values(alloc, shot, number, hooks)?;
    body_again(
        alloc, shot, component, props, number, values, contexts, last, steps,
    )
}

// A component's body, from the hooks of its old instance.
pub(crate) fn body_at<L: Ledger>(
    alloc: Global,
    shot: &Snapshot,
    component: u32,
    props: &Ints,
    children: &[Element],
    number: Option<u64>,
    contexts: &[Int],
    hooks: &mut HookStore,
    last: &mut Evaluations,
    steps: &mut Steps<L>,
) -> Result<Given, AllocError>
    requires given { option_map (λ d. length (prop_names d)) (component_at shot.now.checked.now component) ≡ Some (length props.now) }
    requires kept { IfSome number (λ n. IsSome (kept_hooks hooks.old n)) }
    requires evaluated { AreEvaluated shot.now.checked.now last.old }
    ensures body { IfOk result (λ g. IsBodyAt shot.now component props.now children.now number contexts.now (kept_hooks hooks.old) (given_seen g)) }
    ensures given { IfOk result (λ g. IsBodyOf shot.now.checked.now component children.now (given_seen g)) }
    ensures goes { GoesOn shot.now.checked.now shot.now.lanes shot.now.cut (kept_hooks hooks.old) (kept_hooks hooks.new) }
    ensures evaluated { AreEvaluated shot.now.checked.now last.new }
{
    match number {
        Some(number) if children.is_empty() => body_of_instance(
            alloc, shot, component, props, number, contexts, hooks, last, steps,
        ),
        _ => body_anew(
            alloc, shot, component, props, children, number, contexts, hooks, steps,
        ),
    }
}
