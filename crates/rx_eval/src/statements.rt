// What statements give, one at a time.
ghost use Rattle.std.specs.Prelude.{◌≡◌, ◌+◌, ◌<◌, ◌^◌, [], ◌∷◌, Some, None, IfOk, MatchOption, map, option_copied, slice_index_or, pos};
ghost use Rattle.rx_base.specs.Values.{Name as Bytes};
ghost use Rattle.rx_meaning.specs.Expressions.{Env as Values, value_in};
ghost use Rattle.rx_meaning.specs.Body.{take_one, with_hook, with_read, with_resource, with_throw, with_effect};
ghost use Rattle.rx_eval.specs.declared.statements.Gathered.{Gathered as Parts};
ghost use Rattle.rx_eval.specs.Seen.{inputs_of};
ghost use Rattle.rx_eval.specs.Steps.{frame_of, name_in, step_taken};

use crate::arithmetic::is_zero;
use crate::env::Env;
use crate::evaluator::Evaluator;
use crate::inputs::Inputs;
use rx_ast::{Expr, Statement, StatementKind};
use rx_base::{Int, Ints, Name, Str};
use rx_elem::{ContextRead, EffectRecord, VersionRead};
use std::alloc::{AllocError, Global};

/// What the statements so far have given, beside the values of names.
#[derive(Drop)]
pub(crate) struct Gathered {
    /// How many hooks they took that keep a state.
    pub(crate) hooks: usize,
    /// The initial values of these hooks, at mount.
    pub(crate) initials: Vec<Int>,
    pub(crate) effects: Vec<EffectRecord>,
    pub(crate) reads: Vec<ContextRead>,
    pub(crate) versions: Vec<VersionRead>,
}

/// What a statement does, beside what it gathers.
#[derive(Clone, Copy, Debug, PartialEq, Eq)]
pub(crate) enum Step {
    /// The next statement is taken: the value of the name that this one binds, 0 if it binds none.
    Value(Int),
    /// The body waits for a version of a resource.
    Wait(u32, u64),
    /// The body throws this value.
    Throw(Int),
}

impl Gathered {
    /// Before the first statement.
    pub(crate) fn new(alloc: Global) -> Gathered
        ensures hooks { result.hooks ≡ 0 }
        ensures initials { result.initials.items ≡ [] }
        ensures effects { result.effects.items ≡ [] }
        ensures reads { result.reads.items ≡ [] }
        ensures versions { result.versions.items ≡ [] }
    {
        Gathered {
            hooks: 0,
            initials: Vec::new(alloc),
            effects: Vec::new(alloc),
            reads: Vec::new(alloc),
            versions: Vec::new(alloc),
        }
    }

    /// The value of one more hook that keeps a state (react.dev, useState): at mount its initial value, later its state.
    fn hook(&mut self, states: Option<&[Int]>, initial: Int) -> Result<Int, AllocError>
        requires { self.old.hooks + 1 < 2 ^ 64 }
        ensures { (env : Values) (name : Bytes) → IfOk result (λ x. frame_of ((name, x) ∷ env) self.new ≡ with_hook (option_copied states.entry) name initial (frame_of env self.old)) }
    {
        let number = self.hooks;
        self.hooks = number + 1;
        match states {
            None => {
                self.initials.push(initial)?;
                Ok(initial)
            }
            Some(states) => Ok(number_at(states, number)),
        }
    }

    /// The value of a context that is read (react.dev, useContext).
    fn read(&mut self, contexts: &[Int], context: u32) -> Result<Int, AllocError>
        ensures { (env : Values) (name : Bytes) → IfOk result (λ x. frame_of ((name, x) ∷ env) self.new ≡ with_read name context (slice_index_or contexts.now context (pos 0)) (frame_of env self.old)) }
    {
        let value = number_at(contexts, context as usize);
        self.reads.push(ContextRead { context, value })?;
        Ok(value)
    }

    /// What reading a resource does (react.dev, use): the body waits unless the resource has a value in its version.
    fn read_resource(
        &mut self,
        versions: &[u64],
        resources: &[Option<Int>],
        resource: u32,
    ) -> Result<Step, AllocError>
        ensures { (env : Values) (name : Bytes) → IfOk result (λ s. step_taken (Some name) env self.new s ≡ with_resource name resource (slice_index_or versions.now resource 0) (slice_index_or resources.now resource None) (frame_of env self.old)) }
    {
        let version = version_at(versions, resource as usize);
        match resources.get(resource as usize) {
            Some(Some(value)) => {
                self.versions.push(VersionRead { resource, version })?;
                Ok(Step::Value(*value))
            }
            _ => Ok(Step::Wait(resource, version)),
        }
    }

    /// An effect with the values of its dependencies (react.dev, useEffect).
    fn effect(
        &mut self,
        alloc: Global,
        layout: bool,
        label: &Name,
        values: Ints,
    ) -> Result<(), AllocError>
        ensures { (env : Values) → IfOk result (λ _. frame_of env self.new ≡ with_effect (record { layout = layout; label = label.now; values = values }) (frame_of env self.old)) }
    {
        let label = Str::new(alloc, label.text())?;
        self.effects.push(EffectRecord {
            layout,
            label,
            values,
        })?;
        Ok(())
    }
}

/// The integer at a place, 0 behind the end.
fn number_at(values: &[Int], place: usize) -> Int
    ensures { result ≡ slice_index_or values.now place (pos 0) }
{
    match values.get(place) {
        None => Int::of(0),
        Some(value) => *value,
    }
}

/// The version at a place, 0 behind the end.
fn version_at(versions: &[u64], place: usize) -> u64
    ensures { result ≡ slice_index_or versions.now place 0 }
{
    versions.get(place).copied().unwrap_or(0)
}

/// What `throwIf` does with a value: 0 is not thrown.
fn thrown(value: Int) -> Step
    ensures { (env : Values) → (g : Parts) → step_taken None env g result ≡ with_throw value (frame_of env g) }
{
    if is_zero(value) {
        Step::Value(Int::of(0))
    } else {
        Step::Throw(value)
    }
}

/// The name that a statement binds, if it binds one.
pub(crate) fn name_of(statement: &Statement) -> Option<&Name>
    ensures { MatchOption result (name_in statement.now ≡ None) (λ x. name_in statement.now ≡ Some x.now) }
{
    match &statement.kind {
        StatementKind::State { name, .. } => Some(name),
        StatementKind::Reducer { name, .. } => Some(name),
        StatementKind::Transition { name, .. } => Some(name),
        StatementKind::Context { name, .. } => Some(name),
        StatementKind::Resource { name, .. } => Some(name),
        StatementKind::Constant { name, .. } => Some(name),
        StatementKind::Effect { .. } | StatementKind::Throw { .. } => None,
    }
}

/// The values of expressions in order.
fn values_of(
    alloc: Global,
    evaluator: &Evaluator,
    env: &Env,
    exprs: &[Expr],
) -> Result<Ints, AllocError>
    ensures { IfOk result (λ xs. xs ≡ map (value_in evaluator.now env.now) exprs.now) }
{
    let mut values = Vec::new(alloc);
    for expr in exprs {
        values.push(evaluator.value(env, expr))?;
    }
    Ok(Ints::new(values))
}

/// Takes one statement.
pub(crate) fn take(
    alloc: Global,
    evaluator: &Evaluator,
    inputs: &Inputs,
    env: &Env,
    statement: &Statement,
    gathered: &mut Gathered,
) -> Result<Step, AllocError>
    requires { gathered.old.hooks + 1 < 2 ^ 64 }
    ensures { IfOk result (λ s. step_taken (name_in statement.now) env.now gathered.new s ≡ take_one evaluator.now (inputs_of inputs.now) statement.now (frame_of env.now gathered.old)) }
{
    match &statement.kind {
        StatementKind::State { initial, .. } => {
            let initial = evaluator.value(env, initial);
            Ok(Step::Value(gathered.hook(inputs.hooks, initial)?))
        }
        StatementKind::Reducer { initial, .. } => {
            let initial = evaluator.value(env, initial);
            Ok(Step::Value(gathered.hook(inputs.hooks, initial)?))
        }
        StatementKind::Transition { .. } => {
            Ok(Step::Value(gathered.hook(inputs.hooks, Int::of(0))?))
        }
        StatementKind::Context { source, .. } => {
            let context = evaluator.context(source);
            Ok(Step::Value(gathered.read(inputs.contexts, context)?))
        }
        StatementKind::Resource { resource, .. } => {
            let resource = evaluator.resource(resource);
            gathered.read_resource(inputs.versions, inputs.resources, resource)
        }
        StatementKind::Constant { value, .. } => Ok(Step::Value(evaluator.value(env, value))),
        StatementKind::Effect {
            layout,
            label,
            dependencies,
        } => {
            let values = values_of(alloc, evaluator, env, dependencies)?;
            gathered.effect(alloc, *layout, label, values)?;
            Ok(Step::Value(Int::of(0)))
        }
        StatementKind::Throw { value } => Ok(thrown(evaluator.value(env, value))),
    }
}
