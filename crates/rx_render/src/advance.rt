// One unit of a render, over its parts.
ghost use Rattle.std.specs.Prelude.{◌≡◌, ◌+◌, ◌≤◌, ℕ, ℤ, List, Option, Some, IfOk, OnErr, if◌then◌else◌};
ghost use Rattle.rx_base.specs.Awaits.{one};
ghost use Rattle.rx_elem.specs.Trees.{Node};
ghost use Rattle.rx_meaning.specs.Fresh.{Sight};
ghost use Rattle.rx_meaning.specs.Cursor.{Open, Frame, at_end, unit, unwind, unwind_throw};
ghost use Rattle.rx_meaning.specs.Settled.{DoneBefore};
ghost use Rattle.rx_model.specs.State.{State};
ghost use Rattle.rx_model.specs.HooksOf.{KeepsAllHooks};
ghost use Rattle.rx_fiber.specs.Standing.{StandsAt};
ghost use Rattle.rx_fiber.specs.Unwound.{IsWithin};
ghost use Rattle.rx_complete.specs.Ends.{IsAtEnd, IsGuardedAt, IsOpenBelow};
ghost use Rattle.rx_hook_store.specs.Store.{kept_hooks};
ghost use Rattle.rx_hook_store.specs.Gives.{GivesValues};
ghost use Rattle.rx_causes.specs.Scenes.{IsSceneOf};
ghost use Rattle.rx_lists.specs.Shapes.{none};
ghost use Rattle.rx_links.specs.Drafts.{taken};
ghost use Rattle.cost_laws.specs.Left.{Flags, outer, thrown_past, unwound};
ghost use Rattle.begin_laws.specs.Flagged.{FlagsAtEnd, FlagsHere};
ghost use Rattle.rx_ways.specs.Ways.{is_way};
ghost use Rattle.rx_render.specs.Rendering.{ComesTo};
ghost use Rattle.rx_render.specs.Costing.{HasFlags};
ghost use Rattle.rx_render.specs.Advancing.{at_after, at_opened, CanBegin, IsReadyAt, Advances};
ghost use Rattle.rx_fiber.specs.Subtrees.{IsGathered};
ghost use Rattle.rx_render.specs.Gathers.{IsGathering};

use crate::at::At;
use rx_base::{Awaits, Int, Steps};
use rx_begin::begin;
use rx_causes::Scene;
use rx_children::Begun;
use rx_complete::{Next, complete, pass, unwind_to_boundary, unwind_to_catch};
use rx_ctx::ContextStack;
use rx_fallback::{Opened, open_caught, open_fallback, open_old_fallback};
use rx_fiber::Fiber;
use rx_hook_store::HookStore;
use rx_links::{FiberId, FiberTree};
use std::alloc::{AllocError, Global};
use std::sync::ledger::Ledger;

// The least number that is no resource's.
const RESOURCE_LIMIT: u32 = 64;

// A wait for one resource: no program that is accepted names another.
fn awaits_for(resource: u32) -> Awaits
    ensures { result ≡ one resource }
{
    if resource < RESOURCE_LIMIT {
        Awaits::one(resource)
    } else {
        Awaits::none()
    }
}

fn at_after(next: Next) -> At
    ensures { result ≡ at_after next }
{
    match next {
        Next::Sibling(id) => At::Begins(id),
        Next::Parent(id) => At::Completes(id),
        Next::Done => At::Over,
    }
}

fn at_opened(opened: Opened) -> At
    ensures { result ≡ at_opened opened }
{
    match opened {
        Opened::First(id) => At::Begins(id),
        Opened::Empty(id) => At::Completes(id),
    }
}

// Completes the node of a fiber.
fn complete_node(tree: &mut FiberTree<Fiber>, id: FiberId, contexts: &mut ContextStack) -> At
    requires { IsAtEnd tree.old contexts.old id }
    ensures comes { (s : Sight) (levels : ℕ) (fs : List Frame) (o : Open) (done : List (Option Node)) → StandsAt tree.old contexts.old (Some id) (at_end levels fs o done) → ComesTo tree.new contexts.new result (unit s (at_end levels fs o done)) }
    ensures flags { (us : Flags) → FlagsAtEnd tree.old id us → HasFlags tree.new result (outer us) }
    ensures gathered { IsGathering tree.old (At.Completes id) → IsGathering tree.new result }
    ensures current { tree.new.current ≡ tree.old.current }
{
    tree.facts();
    at_after(complete(tree, id, contexts))
}

// A place waits: what is tried around it is given up, and the fallback of the nearest boundary opens. If none stands above,
// nothing is left in progress.
fn suspend(
    alloc: Global,
    tree: &mut FiberTree<Fiber>,
    id: FiberId,
    contexts: &mut ContextStack,
    resource: u32,
) -> Result<At, AllocError>
    requires { IsOpenBelow tree.old contexts.old id }
    ensures comes { IfOk result (λ a. (levels : ℕ) (fs : List Frame) → IsWithin tree.old contexts.old id fs → ComesTo tree.new contexts.new a (unwind levels fs (one resource))) }
    ensures flags { IfOk result (λ a. (fs : List Frame) (us : Flags) → FlagsHere tree.old id (taken none) us → IsWithin tree.old contexts.old id fs → HasFlags tree.new a (unwound fs us)) }
    ensures gathered { IfOk result (λ a. IsGathered tree.old.current → IsGathering tree.old (At.Begins id) → IsGathering tree.new a) }
    ensures current { tree.new.current ≡ tree.old.current }
{
    tree.facts();
    let mut awaits = awaits_for(resource);
    match unwind_to_boundary(tree, id, contexts, &mut awaits) {
        None => {
            tree.discard();
            Ok(At::Over)
        }
        Some(boundary) => {
            tree.facts();
            let opened = open_fallback(alloc, tree, boundary, awaits)?;
            Ok(at_opened(opened))
        }
    }
}

// A body throws: what is tried around it is given up, and the fallback of the nearest error boundary opens.
fn throw_out(
    alloc: Global,
    tree: &mut FiberTree<Fiber>,
    id: FiberId,
    contexts: &mut ContextStack,
    value: Int,
) -> Result<At, AllocError>
    requires below { IsOpenBelow tree.old contexts.old id }
    requires guarded { IsGuardedAt tree.old id }
    ensures comes { IfOk result (λ a. (levels : ℕ) (fs : List Frame) → IsWithin tree.old contexts.old id fs → ComesTo tree.new contexts.new a (unwind_throw levels fs value)) }
    ensures flags { IfOk result (λ a. (fs : List Frame) (us : Flags) → FlagsHere tree.old id (taken none) us → IsWithin tree.old contexts.old id fs → HasFlags tree.new a (thrown_past fs us)) }
    ensures gathered { IfOk result (λ a. IsGathered tree.old.current → IsGathering tree.old (At.Begins id) → IsGathering tree.new a) }
    ensures current { tree.new.current ≡ tree.old.current }
{
    tree.facts();
    let boundary = unwind_to_catch(tree, id, contexts);
    tree.facts();
    let opened = open_caught(alloc, tree, boundary, value)?;
    Ok(at_opened(opened))
}

// Begins the place of a fiber.
fn begin_place<L: Ledger>(
    alloc: Global,
    tree: &mut FiberTree<Fiber>,
    id: FiberId,
    scene: &Scene,
    hooks: &mut HookStore,
    contexts: &mut ContextStack,
    steps: &mut Steps<L>,
) -> Result<(At, bool), AllocError>
    requires { CanBegin scene.now (kept_hooks hooks.old) tree.old contexts.old id }
    ensures comes { IfOk result (λ a. (s : Sight) → IsSceneOf scene.now s → Advances s (is_way scene.now.ways.now) (kept_hooks hooks.old) tree.old contexts.old (At.Begins id) (if a.1 then 1 else 0) tree.new contexts.new a.0) }
    ensures gathered { IfOk result (λ a. IsGathered tree.old.current → IsGathering tree.old (At.Begins id) → IsGathering tree.new a.0) }
    ensures ticks { IfOk result (λ a. steps.new ≡ steps.old + (if a.1 then 1 else 0)) }
    ensures current { tree.new.current ≡ tree.old.current }
    ensures still { (s : Sight) (k : ℕ) (initials : List ℤ) → IsSceneOf scene.now s → GivesValues s (kept_hooks hooks.old) k initials → GivesValues s (kept_hooks hooks.new) k initials }
    ensures states { (st : State) → DoneBefore scene.now.cut st.journal.updates → KeepsAllHooks scene.now.checked.now st (kept_hooks hooks.old) → KeepsAllHooks scene.now.checked.now st (kept_hooks hooks.new) }
    ensures rises { steps.old ≤ steps.new }
    ensures at_most_one { steps.new ≤ steps.old + 1 }
{
    tree.facts();
    let (begun, evaluated) = begin(alloc, tree, id, scene, hooks, contexts, steps)?;
    match begun {
        Begun::Child(child) => Ok((At::Begins(child), evaluated)),
        Begun::Leaf => Ok((At::Completes(id), evaluated)),
        Begun::Suspended(resource) => {
            let at = suspend(alloc, tree, id, contexts, resource)?;
            Ok((at, evaluated))
        }
        Begun::Thrown(value) => {
            let at = throw_out(alloc, tree, id, contexts, value)?;
            Ok((at, evaluated))
        }
        Begun::Hidden(awaits) => {
            tree.facts();
            let opened = open_old_fallback(alloc, tree, id, awaits)?;
            Ok((at_opened(opened), evaluated))
        }
        Begun::Taken => {
            tree.place_facts();
            tree.facts();
            Ok((at_after(pass(tree, id)), evaluated))
        }
    }
}

// Begins the place of a fiber, or completes its node.
fn try_advance<L: Ledger>(
    alloc: Global,
    tree: &mut FiberTree<Fiber>,
    at: At,
    scene: &Scene,
    hooks: &mut HookStore,
    contexts: &mut ContextStack,
    steps: &mut Steps<L>,
) -> Result<(At, bool), AllocError>
    requires { IsReadyAt scene.now (kept_hooks hooks.old) tree.old contexts.old at }
    ensures comes { IfOk result (λ a. (s : Sight) → IsSceneOf scene.now s → Advances s (is_way scene.now.ways.now) (kept_hooks hooks.old) tree.old contexts.old at (if a.1 then 1 else 0) tree.new contexts.new a.0) }
    ensures gathered { IfOk result (λ a. IsGathered tree.old.current → IsGathering tree.old at → IsGathering tree.new a.0) }
    ensures ticks { IfOk result (λ a. steps.new ≡ steps.old + (if a.1 then 1 else 0)) }
    ensures current { tree.new.current ≡ tree.old.current }
    ensures still { (s : Sight) (k : ℕ) (initials : List ℤ) → IsSceneOf scene.now s → GivesValues s (kept_hooks hooks.old) k initials → GivesValues s (kept_hooks hooks.new) k initials }
    ensures states { (st : State) → DoneBefore scene.now.cut st.journal.updates → KeepsAllHooks scene.now.checked.now st (kept_hooks hooks.old) → KeepsAllHooks scene.now.checked.now st (kept_hooks hooks.new) }
    ensures rises { steps.old ≤ steps.new }
    ensures at_most_one { steps.new ≤ steps.old + 1 }
{
    match at {
        At::Begins(id) => begin_place(alloc, tree, id, scene, hooks, contexts, steps),
        At::Completes(id) => Ok((complete_node(tree, id, contexts), false)),
        At::Over => unreachable!(),
    }
}

/// Begins the place of a fiber, or completes its node, as one unit of a render. If its body waits, what is tried around it
/// is given up, and the fallback of the nearest boundary opens within the same unit (react.dev, Suspense); if it throws, so
/// does that of the nearest error boundary. If a hidden boundary waits still, its fallback opens at once, and if a subtree is
/// taken over the render passes on to what follows it (React's bailout). Also answered is whether a body was evaluated.
///
/// # Errors
///
/// Only if out of memory. Then nothing is left in progress.
pub(crate) fn advance<L: Ledger>(
    alloc: Global,
    tree: &mut FiberTree<Fiber>,
    at: At,
    scene: &Scene,
    hooks: &mut HookStore,
    contexts: &mut ContextStack,
    steps: &mut Steps<L>,
) -> Result<(At, bool), AllocError>
    requires { IsReadyAt scene.now (kept_hooks hooks.old) tree.old contexts.old at }
    ensures comes { IfOk result (λ a. (s : Sight) → IsSceneOf scene.now s → Advances s (is_way scene.now.ways.now) (kept_hooks hooks.old) tree.old contexts.old at (if a.1 then 1 else 0) tree.new contexts.new a.0) }
    ensures gathered { IfOk result (λ a. IsGathered tree.old.current → IsGathering tree.old at → IsGathering tree.new a.0) }
    ensures ticks { IfOk result (λ a. steps.new ≡ steps.old + (if a.1 then 1 else 0)) }
    ensures current { tree.new.current ≡ tree.old.current }
    ensures still { (s : Sight) (k : ℕ) (initials : List ℤ) → IsSceneOf scene.now s → GivesValues s (kept_hooks hooks.old) k initials → GivesValues s (kept_hooks hooks.new) k initials }
    ensures states { (st : State) → DoneBefore scene.now.cut st.journal.updates → KeepsAllHooks scene.now.checked.now st (kept_hooks hooks.old) → KeepsAllHooks scene.now.checked.now st (kept_hooks hooks.new) }
    ensures rises { steps.old ≤ steps.new }
    ensures at_most_one { steps.new ≤ steps.old + 1 }
    ensures dropped { OnErr result (tree.new.draft ≡ taken none) }
{
    match try_advance(alloc, tree, at, scene, hooks, contexts, steps) {
        Ok(next) => Ok(next),
        Err(error) => {
            tree.discard();
            Err(error)
        }
    }
}
