// What the last evaluations of bodies were made from, and what they gave.
ghost use Rattle.std.specs.Prelude.{◌≡◌, ℕ, ℤ, List, Option, true, [], IfOk, IfSome};
ghost use Rattle.rx_ast.specs.Syntax.{Program};
ghost use Rattle.rx_meaning.specs.Fresh.{Contexts};
ghost use Rattle.rx_meaning.specs.Settled.{read_anew};
ghost use Rattle.rx_meaning.specs.Touched.{is_read_anew};
ghost use Rattle.rx_fresh.specs.Giving.{ready_seen};
ghost use Rattle.rx_fresh.specs.Evaluated.{AreEvaluated, Gives, IsEvaluated, IsMadeFrom, childless};

use crate::given::Ready;
use rx_base::{Int, Ints};
use rx_elem::{ContextRead, VersionRead};
use std::alloc::{AllocError, Global};
use std::collections::HashMap;
use std::marker::Model;

// The evaluation of a body that was given no children: its component, its props, the values of its hooks, and what it gave.
#[derive(Drop)]
pub(crate) struct Evaluation {
    component: u32,
    props: Ints,
    hooks: Ints,
    ready: Ready,
}

impl Model for Evaluation {
    ghost use Rattle.std.specs.Coded.{codes};
    ghost use Rattle.rx_elem.specs.ElementCode.{element_code};
    ghost use Rattle.rx_fresh.specs.Evaluated as evaluated;

    ghost Value = { evaluated.Evaluation };

    ghost coded = { Prim.hlevel (codes, element_code) };

    ghost view = { λ e. record { component = e.component; props = e.props; hooks = e.hooks; elements = e.ready.elements.value.items; effects = e.ready.effects.value.items; initials = e.ready.initials.value; reads = e.ready.reads.value.items; versions = e.ready.versions.value.items } };
}

/// What the last evaluations of bodies gave, by the numbers of their instances (react.dev, memo). Contracts see what they were made
/// from, and what they gave.
pub struct Evaluations {
    entries: HashMap<u64, Evaluation>,
    // How many of them the last render made or handed on.
    used: usize,
}

impl Model for Evaluations {
    ghost use Rattle.std.specs.Prelude.{ℕ, List};
    ghost use Rattle.std.specs.Coded.{codes};
    ghost use Rattle.rx_elem.specs.ElementCode.{element_code};
    ghost use Rattle.rx_fresh.specs.Evaluated as evaluated;

    ghost Value = { List (ℕ × evaluated.Evaluation) };

    ghost coded = { Prim.hlevel (codes, element_code) };

    ghost view = { λ e. e.entries.entries };
}

// It is taken apart here alone, once for all crates.
impl Drop for Evaluations {
    fn drop(self) {
        let Evaluations {
            entries: _entries,
            used: _used,
        } = self;
    }
}

// Whether a context has another value than the one that was read.
fn is_read_anew(read: &ContextRead, contexts: &[Int]) -> bool
    ensures { result ≡ is_read_anew contexts.now read.now }
{
    match contexts.get(read.context as usize) {
        Some(value) => !value.same(read.value),
        None => true,
    }
}

fn read_anew(reads: &[ContextRead], contexts: &[Int]) -> bool
    ensures { result ≡ read_anew contexts.now reads.now }
{
    reads.iter().any(|read| is_read_anew(read, contexts))
}

// Whether a body read no resource.
fn is_free(versions: &[VersionRead]) -> bool
    ensures { result ≡ true → versions.now ≡ [] }
{
    versions.is_empty()
}

fn are_same(ours: &Ints, theirs: &Ints) -> bool
    ensures { result ≡ true → ours.now ≡ theirs.now }
{
    ours.as_slice() == theirs.as_slice()
}

impl Evaluation {
    // Whether it was made from these, and each context has the value that it read.
    fn is_made_from(&self, component: u32, props: &Ints, hooks: &Ints, contexts: &[Int]) -> bool
        ensures { result ≡ true → IsMadeFrom self.now component props.now hooks.now contexts.now }
    {
        self.component == component
            && are_same(&self.props, props)
            && are_same(&self.hooks, hooks)
            && !read_anew(&self.ready.reads, contexts)
    }
}

impl Evaluations {
    /// None yet.
    pub fn new(alloc: Global) -> Evaluations
        ensures { (p : Program) → AreEvaluated p result }
    {
        Evaluations {
            entries: HashMap::new(alloc),
            used: 0,
        }
    }

    // A render begins. Those of instances that are gone must not pile up: once the last render used less than half, all are dropped.
    pub(crate) fn begin(&mut self)
        ensures { (p : Program) → AreEvaluated p self.old → AreEvaluated p self.new }
    {
        if self.entries.len() / 2 > self.used {
            self.entries.clear();
        }
        self.used = 0;
    }

    // What the body of an instance gives that is given no children, if its last evaluation was made from the same.
    pub(crate) fn again(
        &mut self,
        number: u64,
        component: u32,
        props: &Ints,
        hooks: &Ints,
        contexts: &[Int],
    ) -> Result<Option<Ready>, AllocError>
        ensures gives { IfOk result (λ found. IfSome found (λ r. (p : Program) (versions : List ℕ) (resources : List (Option ℤ)) → AreEvaluated p self.old
            → Gives p component (childless props.now hooks.now contexts.now versions resources) (ready_seen r))) }
        ensures rest { self.new ≡ self.old }
    {
        match self.entries.get(&number) {
            Some(last) if last.is_made_from(component, props, hooks, contexts) => {
                self.used = self.used.saturating_add(1);
                Ok(Some(last.ready.copy()?))
            }
            _ => Ok(None),
        }
    }

    // Keeps an evaluation as the last one of an instance.
    fn put(&mut self, number: u64, evaluation: Evaluation) -> Result<(), AllocError>
        ensures { (p : Program) → AreEvaluated p self.old → IsEvaluated p evaluation → AreEvaluated p self.new }
    {
        self.used = self.used.saturating_add(1);
        self.entries.insert(number, evaluation)?;
        Ok(())
    }

    // Keeps what the body of an instance gave that was given no children, if it read no resource.
    pub(crate) fn keep(
        &mut self,
        alloc: Global,
        number: u64,
        component: u32,
        props: &Ints,
        hooks: Ints,
        ready: &Ready,
    ) -> Result<(), AllocError>
        ensures { (p : Program) (cs : Contexts) (versions : List ℕ) (resources : List (Option ℤ)) → AreEvaluated p self.old
            → Gives p component (childless props.now hooks cs versions resources) (ready_seen ready.now) → AreEvaluated p self.new }
    {
        if !is_free(&ready.versions) {
            return Ok(());
        }
        let evaluation = Evaluation {
            component,
            props: Ints::new(Vec::from_slice(alloc, props.as_slice())?),
            hooks,
            ready: ready.copy()?,
        };
        self.put(number, evaluation)
    }
}
