// What a component's body gives.
ghost use Rattle.std.specs.Prelude.{◌≡◌, ◌+◌, ◌<◌, ◌^◌, ◌++◌, true, IfOk, Some, length, filter_map, option_map, is_some};
ghost use Rattle.std.specs.List.{zip};
ghost use Rattle.std.specs.Option.{option_and_then};
ghost use Rattle.rx_ast.specs.Syntax.{no_slots};
ghost use Rattle.rx_rules.specs.Names.{component_at, integer_in, prop_names};
ghost use Rattle.rx_meaning.specs.Body.{body_of, elements_of, finished, taken, take_all, opening_frame};
ghost use Rattle.rx_eval.specs.Seen.{inputs_of};
ghost use Rattle.rx_eval.specs.Steps.{frame_of, opened};
ghost use Rattle.rx_eval.specs.Loops.{HaveShortLoops};
ghost use Rattle.rx_eval.specs.Given.{body_seen, returned_slots, initials_of};

use crate::elements::{element, elements};
use crate::env::Env;
use crate::evaluator::Evaluator;
use crate::inputs::Inputs;
use crate::statements::{Gathered, Step, name_of, take};
use rx_ast::{Body as Returned, BodyKind, Component, Parameter, ParameterKind, Statement};
use rx_base::{Int, Ints, Steps};
use rx_check::Checked;
use rx_elem::{ContextRead, EffectRecord, Element, VersionRead};
use std::alloc::{AllocError, Global};
use std::sync::ledger::Ledger;

/// What a body gives.
#[derive(Drop)]
pub enum Body {
    /// It waits for a version of a resource, both by their numbers (react.dev, use).
    Wait(u32, u64),
    /// It throws this value.
    Throw(Int),
    /// It is ready.
    Ready {
        elements: Vec<Element>,
        effects: Vec<EffectRecord>,
        /// At mount the initial values of its hooks, later none.
        initials: Ints,
        /// The contexts that it read, in the order of its statements, with the values that it found.
        reads: Vec<ContextRead>,
        /// The resources that it read, in the order of its statements, with the versions that it found.
        versions: Vec<VersionRead>,
    },
}

/// What a body is evaluated with.
#[derive(Drop)]
struct Scene<'a> {
    alloc: Global,
    evaluator: &'a Evaluator<'a>,
    inputs: &'a Inputs<'a>,
}

#[tactic(auto, using(crate::proofs::Places::slots_of_slots))]
/// The elements of what a body returns; none if only its statements are wanted.
fn elements_returned(
    scene: &Scene,
    env: &Env,
    returned: Option<&Returned>,
) -> Result<Vec<Element>, AllocError>
    requires { HaveShortLoops (returned_slots returned) }
    ensures { IfOk result (λ v. v.items ≡ elements_of scene.now.evaluator.now scene.now.inputs.now.children.now env.now (returned_slots returned.entry)) }
{
    let alloc = scene.alloc;
    let children = scene.inputs.children;
    match returned {
        None => Ok(Vec::new(alloc)),
        Some(body) => match &body.kind {
            BodyKind::Slot(slot) => {
                let mut single = Vec::new(alloc);
                single.push(element(alloc, scene.evaluator, children, env, slot)?)?;
                Ok(single)
            }
            BodyKind::Fragment(fragment) | BodyKind::Enclosed(fragment) => elements(
                alloc,
                scene.evaluator,
                children,
                env,
                fragment.children(),
            ),
        },
    }
}

/// A body with the elements of what it returns, behind all its statements.
fn ready(
    scene: &Scene,
    env: &Env,
    returned: Option<&Returned>,
    gathered: Gathered,
) -> Result<Body, AllocError>
    requires { HaveShortLoops (returned_slots returned) }
    ensures { IfOk result (λ b. body_seen b ≡ finished scene.now.evaluator.now (inputs_of scene.now.inputs.now) (returned_slots returned.entry) (taken (frame_of env.now gathered))) }
{
    let elements = elements_returned(scene, env, returned)?;
    let Gathered {
        hooks: _,
        initials,
        effects,
        reads,
        versions,
    } = gathered;
    Ok(Body::Ready {
        elements,
        effects,
        initials: Ints::new(initials),
        reads,
        versions,
    })
}

/// A body, from what its first statements gave and the statements that are left.
fn follow(
    scene: &Scene,
    env: &Env,
    statements: &[Statement],
    returned: Option<&Returned>,
    gathered: Gathered,
) -> Result<Body, AllocError>
    requires short { HaveShortLoops (returned_slots returned) }
    requires few { gathered.hooks + length statements.now < 2 ^ 64 }
    ensures { IfOk result (λ b. body_seen b ≡ finished scene.now.evaluator.now (inputs_of scene.now.inputs.now) (returned_slots returned.entry) (take_all scene.now.evaluator.now (inputs_of scene.now.inputs.now) statements.now (frame_of env.now gathered))) }
{
    let mut gathered = gathered;
    match statements.split_first() {
        None => ready(scene, env, returned, gathered),
        Some((statement, rest)) => {
            let step = take(
                scene.alloc,
                scene.evaluator,
                scene.inputs,
                env,
                statement,
                &mut gathered,
            )?;
            match step {
                Step::Wait(resource, version) => Ok(Body::Wait(resource, version)),
                Step::Throw(value) => Ok(Body::Throw(value)),
                Step::Value(value) => match name_of(statement) {
                    None => follow(scene, env, rest, returned, gathered),
                    Some(name) => {
                        let env = (&*env).with(name, value);
                        follow(scene, &env, rest, returned, gathered)
                    }
                },
            }
        }
    }
}

/// A body, if these parameters have these props and those behind them are bound.
fn with_props(
    scene: &Scene,
    component: &Component,
    returned: Option<&Returned>,
    parameters: &[Parameter],
    props: &[Int],
    bound: &Env,
) -> Result<Body, AllocError>
    requires short { HaveShortLoops (returned_slots returned) }
    requires given { length props.now ≡ length (filter_map integer_in parameters.now) }
    ensures { IfOk result (λ b. body_seen b ≡ finished scene.now.evaluator.now (inputs_of scene.now.inputs.now) (returned_slots returned.entry) (take_all scene.now.evaluator.now (inputs_of scene.now.inputs.now) component.now.statements (opened (zip (filter_map integer_in parameters.now) props.now ++ bound.now)))) }
{
    match parameters.split_last() {
        None => {
            let statements = component.statements();
            let _few = statements.len();
            follow(
                scene,
                bound,
                statements,
                returned,
                Gathered::new(scene.alloc),
            )
        }
        Some((parameter, before)) => match &parameter.kind {
            ParameterKind::Children => with_props(scene, component, returned, before, props, bound),
            ParameterKind::Integer(name) => match props.split_last() {
                None => unreachable!(),
                Some((value, others)) => {
                    let bound = (&*bound).with(name, *value);
                    with_props(scene, component, returned, before, others, &bound)
                }
            },
        },
    }
}

/// A component's body, or what its statements give alone.
fn body_at(
    alloc: Global,
    evaluator: &Evaluator,
    component: &Component,
    returned: Option<&Returned>,
    inputs: &Inputs,
) -> Result<Body, AllocError>
    requires short { HaveShortLoops (returned_slots returned) }
    requires given { length inputs.now.props.now ≡ length (prop_names component.now) }
    ensures { IfOk result (λ b. body_seen b ≡ finished evaluator.now (inputs_of inputs.now) (returned_slots returned.entry) (take_all evaluator.now (inputs_of inputs.now) component.now.statements (opening_frame component.now inputs.now.props.now))) }
{
    let scene = Scene {
        alloc,
        evaluator,
        inputs,
    };
    let nothing = Env::new();
    with_props(
        &scene,
        component,
        returned,
        component.parameters(),
        inputs.props,
        &nothing,
    )
}

/// The initial values of a component's hooks, if its statements neither wait nor throw.
fn initial_values(
    alloc: Global,
    evaluator: &Evaluator,
    component: &Component,
    inputs: &Inputs,
) -> Result<Ints, AllocError>
    requires given { length inputs.now.props.now ≡ length (prop_names component.now) }
    requires ready { is_some (initials_of (finished evaluator.now (inputs_of inputs.now) no_slots (take_all evaluator.now (inputs_of inputs.now) component.now.statements (opening_frame component.now inputs.now.props.now)))) ≡ true }
    ensures { IfOk result (λ xs. initials_of (finished evaluator.now (inputs_of inputs.now) no_slots (take_all evaluator.now (inputs_of inputs.now) component.now.statements (opening_frame component.now inputs.now.props.now))) ≡ Some xs) }
{
    match body_at(alloc, evaluator, component, None, inputs)? {
        Body::Wait(_, _) | Body::Throw(_) => unreachable!(),
        Body::Ready { initials, .. } => Ok(initials),
    }
}

/// Evaluates a component's body once (react.dev, Render and Commit): by the first of its statements that does either, it
/// waits for a resource that has no value in its version, or throws a value; else it is ready. The component is given by its
/// number in the order of the text.
///
/// # Errors
///
/// Only if out of memory.
pub fn eval_body<L: Ledger>(
    alloc: Global,
    checked: &Checked,
    component: u32,
    inputs: &Inputs,
    steps: &mut Steps<L>,
) -> Result<Body, AllocError>
    requires { option_map (λ c. length (prop_names c)) (component_at checked.now component) ≡ Some (length inputs.now.props.now) }
    ensures gives { IfOk result (λ b. option_map (λ c. body_of checked.now c (inputs_of inputs.now)) (component_at checked.now component) ≡ Some (body_seen b)) }
    ensures once { steps.new ≡ steps.old + 1 }
{
    steps.tick();
    let evaluator = Evaluator::new(checked);
    match checked.component_at(component) {
        None => unreachable!(),
        Some(component) => body_at(alloc, &evaluator, component, Some(component.body()), inputs),
    }
}

/// The initial values of a component's hooks at mount (react.dev, useState), if its body is ready then.
///
/// # Errors
///
/// Only if out of memory.
pub fn init_hooks(
    alloc: Global,
    checked: &Checked,
    component: u32,
    inputs: &Inputs,
) -> Result<Ints, AllocError>
    requires given { option_map (λ c. length (prop_names c)) (component_at checked.now component) ≡ Some (length inputs.now.props.now) }
    requires ready { is_some (option_and_then (λ c. initials_of (body_of checked.now c (inputs_of inputs.now))) (component_at checked.now component)) ≡ true }
    ensures { IfOk result (λ xs. option_and_then (λ c. initials_of (body_of checked.now c (inputs_of inputs.now))) (component_at checked.now component) ≡ Some xs) }
{
    let evaluator = Evaluator::new(checked);
    match checked.component_at(component) {
        None => unreachable!(),
        Some(component) => initial_values(alloc, &evaluator, component, inputs),
    }
}
