// Places rendered from their elements and their old nodes, with all below them.
ghost use Rattle.std.specs.Prelude.{◌≡◌, ◌∷◌, [], ℕ, Some, IfOk, IsSome, length, option_map, slice_get};
ghost use Rattle.std.specs.Option.{option_copied};
ghost use Rattle.rx_rules.specs.Names.{component_at, prop_names};
ghost use Rattle.rx_elem.specs.Elements.{gathered};
ghost use Rattle.rx_elem.specs.Spots.{Mounted, mounted};
ghost use Rattle.rx_elem.specs.Trees.{forest, none, children_if, fallback_if, old_caught};
ghost use Rattle.rx_meaning.specs.Fresh.{Sight, fresh, rendered, render_list, place, place_of, over, over_boundary, over_catcher, shape_of_catcher, shape_of_component};
ghost use Rattle.draw_laws.specs.Drawn.{IsDrawn, AreDrawn};
ghost use Rattle.rx_node.specs.MarkView.{mark_seen};
ghost use Rattle.rx_hook_store.specs.Gives.{GivesValues};
ghost use Rattle.rx_hook_store.specs.Store.{kept_hooks};
ghost use Rattle.rx_fresh.specs.PlaceView.{place_seen, places_seen};
ghost use Rattle.rx_fresh.specs.Evaluated.{AreEvaluated};
ghost use Rattle.rx_fresh.specs.Seeing.{IsSnapshotOf, GoesOn, KeepsTree, KeepsTrees, GivesTree, GivesTrees};

use crate::body::body_at;
use crate::evaluations::Evaluations;
use crate::given::{Given, Ready};
use crate::instance::{instance_after, number_of, old_instance};
use crate::lists::{copy_all, old_places, same_texts, single};
use crate::nodes::{below_provider, hidden, node_with, old_caught, old_host, over, text_place};
use crate::place::{Place, Places};
use crate::roots::{default_contexts, root_element};
use crate::snapshot::Snapshot;
use rx_base::{Awaits, Int, Ints, Steps};
use rx_catch::CatchState;
use rx_compare::{children_if, fallback_if, node_at};
use rx_elem::{Element, ElementKind};
use rx_hook_store::HookStore;
use rx_node::{Mark, Node};
use rx_susp::BoundaryState;
use std::alloc::{AllocError, Global};
use std::sync::ledger::Ledger;

// No tree of a program is deeper.
const DEPTH_LIMIT: u32 = 256;

// A list of children beside the old ones that they are, up to the first that waits or throws. Where all are the texts that
// they were, the old ones stay.
#[cycle(render)]
fn render_list<L: Ledger>(
    alloc: Global,
    depth: u32,
    shot: &Snapshot,
    contexts: &[Int],
    elements: &[Element],
    old: &[Option<Node>],
    hooks: &mut HookStore,
    last: &mut Evaluations,
    steps: &mut Steps<L>,
) -> Result<Places, AllocError>
    requires drawn { AreDrawn shot.now.checked.now (gathered elements.now) }
    requires kept { KeepsTrees (kept_hooks hooks.old) (forest old.now) }
    requires evaluated { AreEvaluated shot.now.checked.now last.old }
    ensures places { IfOk result (λ x. (s : Sight) → IsSnapshotOf shot.now s → GivesTrees s (kept_hooks hooks.old) (forest old.now)
        → places_seen x ≡ render_list (rendered depth s contexts.now) elements.now (forest old.now)) }
    ensures goes { GoesOn shot.now.checked.now shot.now.lanes shot.now.cut (kept_hooks hooks.old) (kept_hooks hooks.new) }
    ensures evaluated { AreEvaluated shot.now.checked.now last.new }
{
    if depth > 0 && same_texts(old, elements) {
        let kept = copy_all(alloc, old)?;
        return Ok(Places::AllMade(kept));
    }
    let places = old_places(alloc, old, elements)?;
    let mut nodes = Vec::with_capacity(alloc, elements.len())?;
    for place in 0..elements.len() {
        let element = &elements[place];
        let past = node_at(old, places[place]);
        let here = render_place(
            alloc, depth, shot, contexts, element, past, hooks, last, steps,
        )?;
        match here {
            Place::Empty => nodes.push(None)?,
            Place::Made(node) => nodes.push(Some(node))?,
            Place::Waits(awaits) => return Ok(Places::OneWaits(awaits)),
            Place::Throws(value) => return Ok(Places::OneThrows(value)),
        }
    }
    Ok(Places::AllMade(nodes))
}

// A node over its one list.
#[cycle(render)]
fn render_node<L: Ledger>(
    alloc: Global,
    depth: u32,
    shot: &Snapshot,
    contexts: &[Int],
    element: &Element,
    mark: Mark,
    elements: &[Element],
    old: &[Option<Node>],
    hooks: &mut HookStore,
    last: &mut Evaluations,
    steps: &mut Steps<L>,
) -> Result<Place, AllocError>
    requires drawn { AreDrawn shot.now.checked.now (gathered elements.now) }
    requires kept { KeepsTrees (kept_hooks hooks.old) (forest old.now) }
    requires evaluated { AreEvaluated shot.now.checked.now last.old }
    ensures place { IfOk result (λ x. (s : Sight) → IsSnapshotOf shot.now s → GivesTrees s (kept_hooks hooks.old) (forest old.now)
        → place_seen x ≡ over element.now (mark_seen mark) (render_list (rendered depth s contexts.now) elements.now (forest old.now))) }
    ensures goes { GoesOn shot.now.checked.now shot.now.lanes shot.now.cut (kept_hooks hooks.old) (kept_hooks hooks.new) }
    ensures evaluated { AreEvaluated shot.now.checked.now last.new }
{
    let places = render_list(
        alloc, depth, shot, contexts, elements, old, hooks, last, steps,
    )?;
    over(alloc, element, mark, places)
}

// A component, by its body (react.dev, Render and Commit).
#[cycle(render)]
fn render_component<L: Ledger>(
    alloc: Global,
    depth: u32,
    shot: &Snapshot,
    contexts: &[Int],
    element: &Element,
    component: u32,
    props: &Ints,
    children: &[Element],
    old: Option<&Node>,
    hooks: &mut HookStore,
    last: &mut Evaluations,
    steps: &mut Steps<L>,
) -> Result<Place, AllocError>
    requires given { option_map (λ d. length (prop_names d)) (component_at shot.now.checked.now component) ≡ Some (length props.now) }
    requires drawn { AreDrawn shot.now.checked.now (gathered children.now) }
    requires kept { KeepsTree (kept_hooks hooks.old) (option_copied old) }
    requires evaluated { AreEvaluated shot.now.checked.now last.old }
    ensures place { IfOk result (λ x. (s : Sight) → IsSnapshotOf shot.now s → GivesTree s (kept_hooks hooks.old) (option_copied old.entry)
        → place_seen x ≡ place_of (rendered depth s) element.now (option_copied old.entry)
        (shape_of_component s contexts.now component props.now (gathered children.now) (option_copied old.entry) (component_at s.program component))) }
    ensures goes { GoesOn shot.now.checked.now shot.now.lanes shot.now.cut (kept_hooks hooks.old) (kept_hooks hooks.new) }
    ensures evaluated { AreEvaluated shot.now.checked.now last.new }
{
    shot.checked.program();
    let was = old_instance(old)?;
    let number = number_of(&was);
    let body = body_at(
        alloc, shot, component, props, children, number, contexts, hooks, last, steps,
    )?;
    match body {
        Given::Wait(resource, _) => Ok(Place::Waits(Awaits::one(resource))),
        Given::Throw(value) => Ok(Place::Throws(value)),
        Given::Ready(ready) => {
            let Ready {
                elements,
                effects,
                initials,
                reads,
                versions,
            } = ready;
            let instance = instance_after(
                alloc, component, was, initials, reads, versions, effects,
            )?;
            let mark = Mark::Instance(instance);
            let old = children_if(old);
            render_node(
                alloc, depth, shot, contexts, element, mark, &elements, old, hooks, last, steps,
            )
        }
    }
}

// A boundary shows its children if none waits, else its fallback (react.dev, Suspense).
#[cycle(render)]
fn render_boundary<L: Ledger>(
    alloc: Global,
    depth: u32,
    shot: &Snapshot,
    contexts: &[Int],
    element: &Element,
    fallback: &Element,
    primary: &[Element],
    old: Option<&Node>,
    hooks: &mut HookStore,
    last: &mut Evaluations,
    steps: &mut Steps<L>,
) -> Result<Place, AllocError>
    requires drawn { AreDrawn shot.now.checked.now (gathered primary.now) }
    requires falls { IsDrawn shot.now.checked.now fallback.now }
    requires kept { KeepsTree (kept_hooks hooks.old) (option_copied old) }
    requires evaluated { AreEvaluated shot.now.checked.now last.old }
    ensures place { IfOk result (λ x. (s : Sight) → IsSnapshotOf shot.now s → GivesTree s (kept_hooks hooks.old) (option_copied old.entry)
        → place_seen x ≡ over_boundary element.now (option_copied old.entry) (render_list (rendered depth s contexts.now) primary.now (children_if (option_copied old.entry)))
        (render_list (rendered depth s contexts.now) (fallback.now ∷ []) (fallback_if (option_copied old.entry)))) }
    ensures goes { GoesOn shot.now.checked.now shot.now.lanes shot.now.cut (kept_hooks hooks.old) (kept_hooks hooks.new) }
    ensures evaluated { AreEvaluated shot.now.checked.now last.new }
{
    let before = children_if(old);
    let places = render_list(
        alloc, depth, shot, contexts, primary, before, hooks, last, steps,
    )?;
    match places {
        Places::AllMade(nodes) => {
            let mark = Mark::Boundary(BoundaryState::Shown);
            node_with(alloc, element, mark, nodes, Vec::new(alloc))
        }
        Places::OneWaits(waits) => {
            let fallback = single(alloc, fallback)?;
            let before = fallback_if(old);
            let places = render_list(
                alloc, depth, shot, contexts, &fallback, before, hooks, last, steps,
            )?;
            hidden(alloc, element, old, waits, places)
        }
        Places::OneThrows(value) => Ok(Place::Throws(value)),
    }
}

// An error boundary that has caught a value: it has its fallback alone (react.dev, Catching rendering errors with an error
// boundary).
#[cycle(render)]
fn render_caught<L: Ledger>(
    alloc: Global,
    depth: u32,
    shot: &Snapshot,
    contexts: &[Int],
    element: &Element,
    fallback: &Element,
    value: Int,
    old: &[Option<Node>],
    hooks: &mut HookStore,
    last: &mut Evaluations,
    steps: &mut Steps<L>,
) -> Result<Place, AllocError>
    requires falls { IsDrawn shot.now.checked.now fallback.now }
    requires kept { KeepsTrees (kept_hooks hooks.old) (forest old.now) }
    requires evaluated { AreEvaluated shot.now.checked.now last.old }
    ensures place { IfOk result (λ x. (s : Sight) → IsSnapshotOf shot.now s → GivesTrees s (kept_hooks hooks.old) (forest old.now)
        → place_seen x ≡ over element.now (mark_seen (Mark.Catch (CatchState.Caught value))) (render_list (rendered depth s contexts.now) (fallback.now ∷ []) (forest old.now))) }
    ensures goes { GoesOn shot.now.checked.now shot.now.lanes shot.now.cut (kept_hooks hooks.old) (kept_hooks hooks.new) }
    ensures evaluated { AreEvaluated shot.now.checked.now last.new }
{
    let fallback = single(alloc, fallback)?;
    let mark = Mark::Catch(CatchState::Caught { value });
    render_node(
        alloc, depth, shot, contexts, element, mark, &fallback, old, hooks, last, steps,
    )
}

// An error boundary that had caught nothing: it has its children if none throws, else its fallback, made anew.
#[cycle(render)]
fn render_guarded<L: Ledger>(
    alloc: Global,
    depth: u32,
    shot: &Snapshot,
    contexts: &[Int],
    element: &Element,
    fallback: &Element,
    primary: &[Element],
    old: &[Option<Node>],
    hooks: &mut HookStore,
    last: &mut Evaluations,
    steps: &mut Steps<L>,
) -> Result<Place, AllocError>
    requires drawn { AreDrawn shot.now.checked.now (gathered primary.now) }
    requires falls { IsDrawn shot.now.checked.now fallback.now }
    requires kept { KeepsTrees (kept_hooks hooks.old) (forest old.now) }
    requires evaluated { AreEvaluated shot.now.checked.now last.old }
    ensures place { IfOk result (λ x. (s : Sight) → IsSnapshotOf shot.now s → GivesTrees s (kept_hooks hooks.old) (forest old.now)
        → place_seen x ≡ over_catcher element.now (render_list (rendered depth s contexts.now) primary.now (forest old.now))
        (render_list (rendered depth s contexts.now) (fallback.now ∷ []) none)) }
    ensures goes { GoesOn shot.now.checked.now shot.now.lanes shot.now.cut (kept_hooks hooks.old) (kept_hooks hooks.new) }
    ensures evaluated { AreEvaluated shot.now.checked.now last.new }
{
    let places = render_list(
        alloc, depth, shot, contexts, primary, old, hooks, last, steps,
    )?;
    match places {
        Places::AllMade(nodes) => {
            let mark = Mark::Catch(CatchState::Fine);
            node_with(alloc, element, mark, nodes, Vec::new(alloc))
        }
        Places::OneWaits(awaits) => Ok(Place::Waits(awaits)),
        Places::OneThrows(value) => {
            render_caught(
                alloc,
                depth,
                shot,
                contexts,
                element,
                fallback,
                value,
                &[],
                hooks,
                last,
                steps,
            )
        }
    }
}

// An error boundary, by what it had caught.
#[cycle(render)]
fn render_catcher<L: Ledger>(
    alloc: Global,
    depth: u32,
    shot: &Snapshot,
    contexts: &[Int],
    element: &Element,
    fallback: &Element,
    primary: &[Element],
    old: Option<&Node>,
    hooks: &mut HookStore,
    last: &mut Evaluations,
    steps: &mut Steps<L>,
) -> Result<Place, AllocError>
    requires drawn { AreDrawn shot.now.checked.now (gathered primary.now) }
    requires falls { IsDrawn shot.now.checked.now fallback.now }
    requires kept { KeepsTree (kept_hooks hooks.old) (option_copied old) }
    requires evaluated { AreEvaluated shot.now.checked.now last.old }
    ensures place { IfOk result (λ x. (s : Sight) → IsSnapshotOf shot.now s → GivesTree s (kept_hooks hooks.old) (option_copied old.entry)
        → place_seen x ≡ place_of (rendered depth s) element.now (option_copied old.entry)
        (shape_of_catcher contexts.now fallback.now (gathered primary.now) (option_copied old.entry) (old_caught (option_copied old.entry)))) }
    ensures goes { GoesOn shot.now.checked.now shot.now.lanes shot.now.cut (kept_hooks hooks.old) (kept_hooks hooks.new) }
    ensures evaluated { AreEvaluated shot.now.checked.now last.new }
{
    match old_caught(old) {
        None => {
            let before = children_if(old);
            render_guarded(
                alloc, depth, shot, contexts, element, fallback, primary, before, hooks, last,
                steps,
            )
        }
        Some(value) => {
            let before = fallback_if(old);
            render_caught(
                alloc, depth, shot, contexts, element, fallback, value, before, hooks, last, steps,
            )
        }
    }
}

// What stands in a place, by its element, with so many levels below it.
#[cycle(render)]
fn render_element<L: Ledger>(
    alloc: Global,
    depth: u32,
    shot: &Snapshot,
    contexts: &[Int],
    element: &Element,
    old: Option<&Node>,
    hooks: &mut HookStore,
    last: &mut Evaluations,
    steps: &mut Steps<L>,
) -> Result<Place, AllocError>
    requires drawn { IsDrawn shot.now.checked.now element.now }
    requires kept { KeepsTree (kept_hooks hooks.old) (option_copied old) }
    requires evaluated { AreEvaluated shot.now.checked.now last.old }
    ensures place { IfOk result (λ x. (s : Sight) → IsSnapshotOf shot.now s → GivesTree s (kept_hooks hooks.old) (option_copied old.entry)
        → place_seen x ≡ place (rendered depth s) s contexts.now element.now (option_copied old.entry)) }
    ensures goes { GoesOn shot.now.checked.now shot.now.lanes shot.now.cut (kept_hooks hooks.old) (kept_hooks hooks.new) }
    ensures evaluated { AreEvaluated shot.now.checked.now last.new }
{
    match element.kind() {
        ElementKind::Null => Ok(Place::Empty),
        ElementKind::Text(text) => text_place(alloc, element, text, old),
        ElementKind::Host(_, _, _, children) => {
            let mark = Mark::Host(old_host(old));
            let before = children_if(old);
            render_node(
                alloc, depth, shot, contexts, element, mark, children, before, hooks, last, steps,
            )
        }
        ElementKind::Comp(component, _, props, children) => render_component(
            alloc, depth, shot, contexts, element, *component, props, children, old, hooks, last,
            steps,
        ),
        ElementKind::List(_, children) => {
            let before = children_if(old);
            let mark = Mark::Plain;
            render_node(
                alloc, depth, shot, contexts, element, mark, children, before, hooks, last, steps,
            )
        }
        ElementKind::Boundary(_, fallback, children) => render_boundary(
            alloc, depth, shot, contexts, element, fallback, children, old, hooks, last, steps,
        ),
        ElementKind::Catch(_, fallback, children) => render_catcher(
            alloc, depth, shot, contexts, element, fallback, children, old, hooks, last, steps,
        ),
        ElementKind::Provider(context, _, given, children) => {
            let below = below_provider(alloc, contexts, *context, *given)?;
            let before = children_if(old);
            let mark = Mark::Plain;
            render_node(
                alloc, depth, shot, &below, element, mark, children, before, hooks, last, steps,
            )
        }
    }
}

// A place with so many levels from it on.
#[cycle(render)]
fn render_place<L: Ledger>(
    alloc: Global,
    depth: u32,
    shot: &Snapshot,
    contexts: &[Int],
    element: &Element,
    old: Option<&Node>,
    hooks: &mut HookStore,
    last: &mut Evaluations,
    steps: &mut Steps<L>,
) -> Result<Place, AllocError>
    requires drawn { IsDrawn shot.now.checked.now element.now }
    requires kept { KeepsTree (kept_hooks hooks.old) (option_copied old) }
    requires evaluated { AreEvaluated shot.now.checked.now last.old }
    ensures place { IfOk result (λ x. (s : Sight) → IsSnapshotOf shot.now s → GivesTree s (kept_hooks hooks.old) (option_copied old.entry)
        → place_seen x ≡ rendered depth s contexts.now element.now (option_copied old.entry)) }
    ensures goes { GoesOn shot.now.checked.now shot.now.lanes shot.now.cut (kept_hooks hooks.old) (kept_hooks hooks.new) }
    ensures evaluated { AreEvaluated shot.now.checked.now last.new }
{
    if depth == 0 {
        return Ok(Place::Empty);
    }
    render_element(
        alloc,
        depth - 1,
        shot,
        contexts,
        element,
        old,
        hooks,
        last,
        steps,
    )
}

/// Renders the whole tree anew from the root, beside the old one, if there is one (react.dev, Render and Commit): what the root
/// gives. It evaluates the body of each component that it comes to, takes over no subtree, and takes time in proportion to the
/// new tree and the old one. What is kept of the hooks goes on.
///
/// # Errors
///
/// Only if out of memory.
pub fn fresh<L: Ledger>(
    alloc: Global,
    shot: &Snapshot,
    old: Option<&Node>,
    hooks: &mut HookStore,
    evaluations: &mut Evaluations,
    steps: &mut Steps<L>,
) -> Result<Place, AllocError>
    requires kept { (k : ℕ) (m : Mounted) → slice_get (mounted (option_copied old)) k ≡ Some m → IsSome (kept_hooks hooks.old m.number) }
    requires evaluated { AreEvaluated shot.now.checked.now evaluations.old }
    ensures place { IfOk result (λ x. (s : Sight) → IsSnapshotOf shot.now s
        → ((k : ℕ) (m : Mounted) → slice_get (mounted (option_copied old.entry)) k ≡ Some m → GivesValues s (kept_hooks hooks.old) m.number m.initials)
        → place_seen x ≡ fresh s (option_copied old.entry)) }
    ensures goes { GoesOn shot.now.checked.now shot.now.lanes shot.now.cut (kept_hooks hooks.old) (kept_hooks hooks.new) }
    ensures evaluated { AreEvaluated shot.now.checked.now evaluations.new }
{
    shot.checked.program();
    evaluations.begin();
    let contexts = default_contexts(alloc, shot.checked)?;
    let root = root_element(alloc, shot.checked)?;
    render_place(
        alloc,
        DEPTH_LIMIT,
        shot,
        &contexts,
        &root,
        old,
        hooks,
        evaluations,
        steps,
    )
}
