// A place begins.
ghost use Rattle.std.specs.Prelude.{◌≡◌, ◌+◌, ◌<◌, ◌≤◌, ◌∷◌, [], suc, ℕ, ℤ, Bool, true, false, not, ◌&&◌, List, Option, Some, None, length, IfOk, IsSome, IfSome, OnOk, is_some, if◌then◌else◌, option_and_then};
ghost use Rattle.rx_ast.specs.Syntax as syntax;
ghost use Rattle.rx_ctx.specs.Contexts.{moved_at, none_moved, values_at};
ghost use Rattle.rx_elem.specs.Elements as elements;
ghost use Rattle.rx_elem.specs.Elements.{stands_for_children};
ghost use Rattle.rx_elem.specs.Trees.{Node, caught_in, host_number, instance_in, children_of, of_boundary, of_catcher};
ghost use Rattle.rx_catch.specs.declared.state.CatchState.TheVariants.{Caught};
ghost use Rattle.rx_susp.specs.declared.boundary.BoundaryState.TheVariants.{Hidden};
ghost use Rattle.rx_fiber.specs.Reading.{IsOld};
ghost use Rattle.rx_links.specs.Drafts.{old_of, valued};
ghost use Rattle.rx_links.specs.Readers.{list_from, made_value_of};
ghost use Rattle.rx_fiber.specs.Fibers as fibers;
ghost use Rattle.rx_fiber.specs.Fibers.{as_cloned, as_matched, begun, generation_of, waiting};
ghost use Rattle.rx_fiber.specs.declared.stage.Origin.{Origin};
ghost use Rattle.rx_fiber.specs.FiberView.{changed};
ghost use Rattle.rx_fiber.specs.declared.stage.StageChange.TheVariants as change;
ghost use Rattle.rx_fiber.specs.Subtrees.{IsGathered};
ghost use Rattle.rx_fiber.specs.Stood.{gives_another};
ghost use Rattle.rx_fiber.specs.Surround.{IsElementOf, fallback_in};
ghost use Rattle.rx_fiber.specs.OldLists.{fallback_list, matched, old_elements, old_fibers, primary_list};
ghost use Rattle.rx_causes.specs.Marks.{EachBut, mark_at, keeps_children};
ghost use Rattle.rx_causes.specs.Scenes.{IsSceneOf, TellsCalm, TellsNews};
ghost use Rattle.rx_causes.specs.Hidden.{ForEachIn, GivesHooksIn, KeepsOld, WaitsStill};
ghost use Rattle.rx_causes.specs.Idle.{Rests};
ghost use Rattle.rx_children.specs.Nodes.{IsBareAt, HasOpened, HasTaken, begun_over, parts_in, begun_stage, begun_children, begun_stack, given_context};
ghost use Rattle.rx_meaning.specs.Fresh.{Sight, Contexts};
ghost use Rattle.rx_meaning.specs.Cursor.{Frame, at_place};
ghost use Rattle.rx_meaning.specs.Counts.{each_body, next_counts};
ghost use Rattle.rx_meaning.specs.Generations.{generation_below};
ghost use Rattle.rx_meaning.specs.Settled.{DoneBefore};
ghost use Rattle.rx_model.specs.State.{State};
ghost use Rattle.rx_model.specs.HooksOf.{KeepsAllHooks};
ghost use Rattle.rx_fiber.specs.Standing.{StandsAt, is_stood};
ghost use Rattle.rx_ways.specs.Ways.{is_way};
ghost use Rattle.rx_hook_store.specs.Store.{kept_hooks};
ghost use Rattle.rx_hook_store.specs.Gives.{GivesValues};
ghost use Rattle.rx_begin.specs.Others.{HasBegunNode, HasBegunOther, IsCauseToTry, caught_before};
ghost use Rattle.rx_children.specs.Origins.{HasCauseToBegin, IsAgain, TellsAgain, TellsSteady};
ghost use Rattle.rx_begin.specs.Kids.{HasKids};
ghost use Rattle.rx_children.specs.declared.node.Begun.TheVariants.{Suspended, Thrown};
ghost use Rattle.rx_begin.specs.Beginning.{IsAtPlace, BeginsPlace, awaited_again, is_opened, is_taken};

use crate::before::is_as_before;
use crate::body::begin_component;
use crate::place::Place;
use rx_base::{Awaits, Int, Steps};
use rx_catch::CatchState;
use rx_causes::{Scene, waits_still};
use rx_children::{
    Begun, begun_children, begun_from, begun_stage, enter, fallback_list, generation_below,
    gives_another, is_component, is_hidden_again, is_steady, keep_node, keeps_children, old_caught,
    old_host, open_clones, open_list, open_node, parts_of, take_node, takes_over,
};
use rx_ctx::ContextStack;
use rx_elem::{Element, ElementKind};
use rx_fiber::{Fiber, Origin, Stage, StageChange, old_fallback};
use rx_hook_store::HookStore;
use rx_links::{FiberId, FiberTree};
use rx_node::Mark;
use std::alloc::{AllocError, Global};
use std::sync::ledger::Ledger;

// What an error boundary had caught, if the element is one's and the old node had.
fn caught_before(tree: &FiberTree<Fiber>, at: FiberId, element: &Element) -> Option<Int>
    requires { IsBareAt tree.now at }
    ensures { result ≡ caught_before tree.now at element.now }
{
    tree.place_facts();
    match element.kind() {
        ElementKind::Catch(_, _, _) => old_caught(tree, tree.alternate(at)),
        _ => None,
    }
}

// The place of an error boundary that had caught this value begins over clones of its old fallback.
fn keep_caught(
    tree: &mut FiberTree<Fiber>,
    at: FiberId,
    value: Int,
    steady: bool,
) -> Result<Begun, AllocError>
    requires bare { IsBareAt tree.old at }
    requires was { (x : Option Node) × IsOld tree.old.current (old_of tree.old.draft at) x }
    requires caught { option_and_then caught_in (mark_at tree.old.current (old_of tree.old.draft at)) ≡ Some value }
    ensures opened { IfOk result (λ b. HasOpened (as_cloned steady) tree.old tree.new at (begun (of_catcher (Caught value)))
        (old_elements (fallback_list (list_from tree.old.current (old_of tree.old.draft at)))) (old_fibers (fallback_list (list_from tree.old.current (old_of tree.old.draft at)))) b) }
    ensures current { tree.new.current ≡ tree.old.current }
{
    tree.place_facts();
    tree.facts();
    let stage = Stage::Begun(Mark::Catch(CatchState::Caught { value }));
    let first_old = old_fallback(tree, tree.alternate(at));
    let first = open_clones(tree, at, stage, first_old, steady)?;
    Ok(begun_from(first))
}

// It begins over the fallback of its element, matched with its old one.
fn match_caught(
    alloc: Global,
    tree: &mut FiberTree<Fiber>,
    at: FiberId,
    element: &Element,
    value: Int,
    steady: bool,
    generation: u32,
) -> Result<Begun, AllocError>
    requires bare { IsBareAt tree.old at }
    requires was { (x : Option Node) × IsOld tree.old.current (old_of tree.old.draft at) x }
    requires caught { option_and_then caught_in (mark_at tree.old.current (old_of tree.old.draft at)) ≡ Some value }
    ensures opened { IfOk result (λ b. HasOpened (as_matched steady generation) tree.old tree.new at (begun (of_catcher (Caught value))) (fallback_in element.now ∷ [])
        (matched (fallback_list (list_from tree.old.current (old_of tree.old.draft at))) (fallback_in element.now ∷ [])) b) }
    ensures current { tree.new.current ≡ tree.old.current }
{
    tree.place_facts();
    tree.facts();
    let fallback = fallback_list(alloc, element)?;
    let stage = Stage::Begun(Mark::Catch(CatchState::Caught { value }));
    let first_old = old_fallback(tree, tree.alternate(at));
    let first = open_list(
        alloc, tree, at, stage, &fallback, first_old, steady, generation,
    )?;
    Ok(begun_from(first))
}

// The place of an error boundary begins that had caught this value: it goes on with its fallback.
fn begin_caught(
    alloc: Global,
    tree: &mut FiberTree<Fiber>,
    at: FiberId,
    element: &Element,
    place: Place,
    value: Int,
) -> Result<Begun, AllocError>
    requires bare { IsBareAt tree.old at }
    requires was { (x : Option Node) × IsOld tree.old.current (old_of tree.old.draft at) x }
    requires caught { option_and_then caught_in (mark_at tree.old.current (old_of tree.old.draft at)) ≡ Some value }
    ensures kept { IfOk result (λ b. place.again ≡ true → HasOpened (as_cloned place.steady) tree.old tree.new at (begun (of_catcher (Caught value)))
        (old_elements (fallback_list (list_from tree.old.current (old_of tree.old.draft at)))) (old_fibers (fallback_list (list_from tree.old.current (old_of tree.old.draft at)))) b) }
    ensures opened { IfOk result (λ b. place.again ≡ false → HasOpened (as_matched place.steady place.generation) tree.old tree.new at (begun (of_catcher (Caught value))) (fallback_in element.now ∷ [])
        (matched (fallback_list (list_from tree.old.current (old_of tree.old.draft at))) (fallback_in element.now ∷ [])) b) }
    ensures current { tree.new.current ≡ tree.old.current }
{
    if place.again {
        keep_caught(tree, at, value, place.steady)
    } else {
        match_caught(
            alloc,
            tree,
            at,
            element,
            value,
            place.steady,
            place.generation,
        )
    }
}

// The place of an element of no component begins, and of no error boundary that had caught a value.
fn begin_node(
    alloc: Global,
    tree: &mut FiberTree<Fiber>,
    at: FiberId,
    element: &Element,
    place: Place,
    contexts: &mut ContextStack,
) -> Result<Begun, AllocError>
    requires bare { IsBareAt tree.old at }
    requires context { IfSome (given_context element.now) (λ c. c < length (values_at contexts.old)) }
    ensures kept { IfOk result (λ b. keeps_children place.again (mark_at tree.old.current (old_of tree.old.draft at)) ≡ true
        → HasOpened (as_cloned place.steady) tree.old tree.new at (begun_stage element.now place.origin (option_and_then host_number (mark_at tree.old.current (old_of tree.old.draft at))))
        (old_elements (primary_list (list_from tree.old.current (old_of tree.old.draft at)))) (old_fibers (primary_list (list_from tree.old.current (old_of tree.old.draft at)))) b) }
    ensures opened { IfOk result (λ b. keeps_children place.again (mark_at tree.old.current (old_of tree.old.draft at)) ≡ false → HasOpened (as_matched place.steady place.generation) tree.old tree.new at (begun_stage element.now place.origin (option_and_then host_number (mark_at tree.old.current (old_of tree.old.draft at)))) (begun_children element.now)
        (matched (primary_list (list_from tree.old.current (old_of tree.old.draft at))) (begun_children element.now)) b) }
    ensures stack { OnOk result (contexts.new ≡ begun_stack element.now (gives_another tree.old.current (old_of tree.old.draft at) element.now) contexts.old) }
    ensures current { tree.new.current ≡ tree.old.current }
{
    tree.place_facts();
    let moves = gives_another(tree, at, element);
    enter(element, moves, contexts)?;
    let number = old_host(tree, tree.alternate(at));
    let stage = begun_stage(element, place.origin, number);
    if keeps_children(tree, tree.alternate(at), place.again) {
        keep_node(tree, at, stage, place.steady)
    } else {
        open_node(
            alloc,
            tree,
            at,
            stage,
            begun_children(element),
            place.steady,
            place.generation,
        )
    }
}

// The place of an element of no component begins.
fn begin_other(
    alloc: Global,
    tree: &mut FiberTree<Fiber>,
    at: FiberId,
    element: &Element,
    place: Place,
    contexts: &mut ContextStack,
) -> Result<Begun, AllocError>
    requires bare { IsBareAt tree.old at }
    requires was { (x : Option Node) × IsOld tree.old.current (old_of tree.old.draft at) x }
    requires context { IfSome (given_context element.now) (λ c. c < length (values_at contexts.old)) }
    ensures begun { IfOk result (λ b. HasBegunNode tree.old contexts.old tree.new contexts.new at element.now place.origin place.again place.steady place.generation b) }
    ensures current { tree.new.current ≡ tree.old.current }
{
    match caught_before(tree, at, element) {
        Some(value) => begin_caught(alloc, tree, at, element, place, value),
        None => begin_node(alloc, tree, at, element, place, contexts),
    }
}

// What a boundary waits for still, if it is hidden, has an element equal to the current one, which is shown, and no context has
// another value there (`stood`): nothing new has come for which its children are to be tried.
fn still_awaited(
    tree: &FiberTree<Fiber>,
    at: FiberId,
    element: &Element,
    stood: bool,
    again: bool,
    scene: &Scene,
    hooks: &HookStore,
) -> Option<Awaits>
    requires bare { IsBareAt tree.now at }
    requires kept { KeepsOld (kept_hooks hooks.now) tree.now.current (old_of tree.now.draft at) }
    requires again { again ≡ true → IsElementOf tree.now.current (old_of tree.now.draft at) element.now }
    ensures same { IfSome result (λ a. IsElementOf tree.now.current (old_of tree.now.draft at) element.now) }
    ensures stood { IfSome result (λ a. stood ≡ true) }
    ensures hidden { IfSome result (λ a. mark_at tree.now.current (old_of tree.now.draft at) ≡ Some (of_boundary (Hidden a))) }
    ensures waits { IfSome result (λ a. (s : Sight) (x : Node) → IsSceneOf scene.now s → IsOld tree.now.current (old_of tree.now.draft at) (Some x) → GivesHooksIn s (kept_hooks hooks.now) (children_of x) → WaitsStill s a x) }
    ensures news { IfSome result (λ a. (x : Node) → IsOld tree.now.current (old_of tree.now.draft at) (Some x) → ForEachIn (λ i. TellsNews (kept_hooks hooks.now) scene.now.lanes scene.now.cut i false) (children_of x)) }
    ensures tries { IsElementOf tree.now.current (old_of tree.now.draft at) element.now → stood ≡ true → result ≡ None → IsCauseToTry scene.now (kept_hooks hooks.now) tree.now at }
{
    if !stood {
        return None;
    }
    if !is_hidden_again(tree, at, element, again) {
        return None;
    }
    tree.place_facts();
    waits_still(tree, tree.alternate(at), scene, hooks)
}

// The place of an element of no component begins; a hidden boundary that waits still is not tried.
fn begin_or_hide(
    alloc: Global,
    tree: &mut FiberTree<Fiber>,
    at: FiberId,
    element: &Element,
    place: Place,
    scene: &Scene,
    hooks: &HookStore,
    contexts: &mut ContextStack,
) -> Result<Begun, AllocError>
    requires bare { IsBareAt tree.old at }
    requires again { place.again ≡ true → IsElementOf tree.old.current (old_of tree.old.draft at) element.now }
    requires context { IfSome (given_context element.now) (λ c. c < length (values_at contexts.old)) }
    requires kept { KeepsOld (kept_hooks hooks.now) tree.old.current (old_of tree.old.draft at) }
    ensures begun { IfOk result (λ b. HasBegunOther scene.now (kept_hooks hooks.now) tree.old contexts.old tree.new contexts.new at element.now place.origin place.stood place.again place.steady place.generation b) }
    ensures tries { IfOk result (λ b. IsElementOf tree.old.current (old_of tree.old.draft at) element.now → place.stood ≡ true → awaited_again b ≡ None → IsCauseToTry scene.now (kept_hooks hooks.now) tree.old at) }
    ensures news { IfOk result (λ b. IsSome (awaited_again b) → (x : Node) → IsOld tree.old.current (old_of tree.old.draft at) (Some x)
        → ForEachIn (λ i. TellsNews (kept_hooks hooks.now) scene.now.lanes scene.now.cut i false) (children_of x)) }
    ensures current { tree.new.current ≡ tree.old.current }
{
    match still_awaited(tree, at, element, place.stood, place.again, scene, hooks) {
        Some(awaits) => {
            tree.place_facts();
            tree.mark_made(at, &StageChange::Try(place.origin));
            Ok(Begun::Hidden(awaits))
        }
        None => begin_other(alloc, tree, at, element, place, contexts),
    }
}

// Whether the current fiber for which a place's fiber was made is shown, and no context has another value here than there.
fn has_stood(origin: Origin, contexts: &ContextStack) -> bool
    ensures { result ≡ (origin.visible && none_moved (moved_at contexts.now)) }
{
    origin.visible && !contexts.has_moved()
}

/// Begins the place of a fiber, as one unit of a render (react.dev, Render and Commit): a component's body is evaluated, once;
/// a provider gives its value; an error boundary that has caught a value goes on with its fallback; the fibers of all children are
/// made, each for the old child of its identity and type. If the
/// element is the current one, given again, or an equal one, and its component has no cause to be rendered anew, the body is
/// skipped, and the children are clones of the old ones (react.dev, memo: React skips the component). If the place is a hidden boundary's,
/// has an element equal to the current one, which is shown, no context has another value there than in the committed tree, and
/// nothing new has come for what it waits for and keeps, its children are not tried. If the element is as before, nothing in the
/// tree of the old node has a cause, and what is read there is the same, the old children are taken over as they stand (react.dev,
/// useContext: React finds the readers, also below components that it skips): the old node is shown and no context has another
/// value there, or nothing there reads one, and it stands so and no resource has another version, or nothing there reads a
/// resource. The current tree stays as it is. Also answered is whether a body was evaluated.
///
/// # Errors
///
/// Only if out of memory, or if there are more children than a list has places. Then the render is to be given up.
pub fn begin<L: Ledger>(
    alloc: Global,
    tree: &mut FiberTree<Fiber>,
    at: FiberId,
    scene: &Scene,
    hooks: &mut HookStore,
    contexts: &mut ContextStack,
    steps: &mut Steps<L>,
) -> Result<(Begun, bool), AllocError>
    requires place { IsAtPlace scene.now.checked.now (kept_hooks hooks.old) tree.old contexts.old at }
    requires gathered { IsGathered tree.old.current }
    requires contexts { length (values_at contexts.old) ≡ length (syntax.contexts scene.now.checked.now) }
    ensures begun { IfOk result (λ b. (s : Sight) → IsSceneOf scene.now s → BeginsPlace s (is_way scene.now.ways.now) (kept_hooks hooks.old) tree.old contexts.old tree.new contexts.new at b.0) }
    ensures current { tree.new.current ≡ tree.old.current }
    ensures bodies { IfOk result (λ b. steps.new ≡ steps.old + (if b.1 then 1 else 0)) }
    // A component's body is skipped exactly if its element is equal to that of the current fiber, and its old instance is calm. No other element has one.
    ensures none { IfOk result (λ b. (v : fibers.Fiber) → Some v ≡ made_value_of tree.old.draft at → parts_in v.element ≡ None → b.1 ≡ false) }
    ensures body { IfOk result (λ b. (v : fibers.Fiber) → Some v ≡ made_value_of tree.old.draft at → IsSome (parts_in v.element)
        → (again : Bool) × TellsAgain (is_some (parts_in v.element)) tree.old.current (old_of tree.old.draft at) v again
        × (again ≡ true → TellsCalm scene.now (kept_hooks hooks.old) (values_at contexts.old) (option_and_then instance_in (mark_at tree.old.current (old_of tree.old.draft at))) (not b.1))
        × (again ≡ false → b.1 ≡ true)) }
    // A hidden boundary's children are tried only if its element is another one than that of its current fiber, or that one is not
    // known to be shown, or a context has another value there, or there is a cause.
    ensures tries { IfOk result (λ b. (v : fibers.Fiber) → Some v ≡ made_value_of tree.old.draft at → parts_in v.element ≡ None → IsElementOf tree.old.current (old_of tree.old.draft at) v.element → is_stood contexts.old v.stage ≡ true
        → awaited_again b.0 ≡ None → IsCauseToTry scene.now (kept_hooks hooks.old) tree.old at) }
    // If they are not tried, there is no news in what it keeps.
    ensures news { IfOk result (λ b. IsSome (awaited_again b.0) → (x : Node) → IsOld tree.old.current (old_of tree.old.draft at) (Some x)
        → ForEachIn (λ i. TellsNews (kept_hooks hooks.old) scene.now.lanes scene.now.cut i false) (children_of x)) }
    // The children that are made wait as ones whose old fibers are shown exactly if the place is steady, and are of the generation
    // below it; a hidden boundary counts as one that was made anew. They are made for no current fiber if the fiber is.
    ensures kids { IfOk result (λ b. (v : fibers.Fiber) → Some v ≡ made_value_of tree.old.draft at → is_opened b.0 ≡ true
        → (origin : Origin) × (again : Bool) × TellsSteady tree.old.current (old_of tree.old.draft at) v origin.visible
        × TellsAgain (is_some (parts_in v.element)) tree.old.current (old_of tree.old.draft at) v again
        × (origin.generation ≡ generation_below b.1 (again && keeps_children true (mark_at tree.old.current (old_of tree.old.draft at))) (stands_for_children v.element) (generation_of v.stage))
        × ((h : HasKids origin tree.old tree.new at) × (b.0 ≡ begun_over h.kids))) }
    // A hidden boundary that waits still is to try its children, of which none is made; old children stand as they are; and if a
    // body waits, all is as it was.
    ensures tried { IfOk result (λ b. IsSome (awaited_again b.0) → (v : fibers.Fiber) (c : Origin) → Some v ≡ made_value_of tree.old.draft at → v.stage ≡ waiting c
        → tree.new ≡ record tree.old { draft = valued at (changed (change.Try c)) tree.old.draft }) }
    ensures taken_over { IfOk result (λ b. is_taken b.0 ≡ true → HasTaken tree.old tree.new at) }
    ensures waits { IfOk result (λ b. (r : ℕ) → b.0 ≡ Suspended r → tree.new ≡ tree.old) }
    ensures throws { IfOk result (λ b. (x : ℤ) → b.0 ≡ Thrown x → tree.new ≡ tree.old) }
    // Old children are taken over only if the element is as before, with no body evaluated; and the tree of the old node
    // rests, but for what is passed.
    ensures again { IfOk result (λ b. is_taken b.0 ≡ true → (v : fibers.Fiber) → Some v ≡ made_value_of tree.old.draft at → IsAgain (is_some (parts_in v.element)) tree.old.current (old_of tree.old.draft at) v) }
    ensures taken { IfOk result (λ b. is_taken b.0 ≡ true → b.1 ≡ false) }
    ensures rests { IfOk result (λ b. is_taken b.0 ≡ true → (x : Node) → IsOld tree.old.current (old_of tree.old.draft at) (Some x)
        → EachBut (is_way scene.now.ways.now) (Rests (kept_hooks hooks.old) scene.now.lanes scene.now.cut) x) }
    // What is as before is begun over its own children only if there is a cause in the tree of its old node, or an instance
    // there stands on a way; else its old children are taken over.
    ensures causes { IfOk result (λ b. (v : fibers.Fiber) → Some v ≡ made_value_of tree.old.draft at → IsAgain (is_some (parts_in v.element)) tree.old.current (old_of tree.old.draft at) v → is_taken b.0 ≡ false
        → HasCauseToBegin scene.now (kept_hooks hooks.old) (values_at contexts.old) (is_some (parts_in v.element)) (is_stood contexts.old v.stage) tree.old.current (old_of tree.old.draft at)) }
    ensures few { IfOk result (λ b. (s : Sight) (n : ℕ) (fs : List Frame) (cs : Contexts) (e : elements.Element) (old : Option Node) → IsSceneOf scene.now s → StandsAt tree.old contexts.old (Some at) (at_place (suc n) fs cs e old)
        → (if b.1 then 1 else 0) ≤ next_counts each_body s (at_place (suc n) fs cs e old)) }
    ensures rises { steps.old ≤ steps.new }
    // However it ends, no second body is counted.
    ensures at_most_one { steps.new ≤ steps.old + 1 }
    ensures still { (s : Sight) (k : ℕ) (initials : List ℤ) → IsSceneOf scene.now s → GivesValues s (kept_hooks hooks.old) k initials → GivesValues s (kept_hooks hooks.new) k initials }
    ensures states { (st : State) → DoneBefore scene.now.cut st.journal.updates → KeepsAllHooks scene.now.checked.now st (kept_hooks hooks.old) → KeepsAllHooks scene.now.checked.now st (kept_hooks hooks.new) }
{
    tree.place_facts();
    tree.facts();
    let again = is_as_before(tree, at);
    let fiber = tree.value(at);
    let origin = fiber.origin();
    let element = fiber.element().copy()?;
    let component = is_component(&element);
    let stood = has_stood(origin, contexts);
    if takes_over(tree, at, again, stood, component, scene, hooks, contexts) {
        take_node(tree, at)?;
        return Ok((Begun::Taken, false));
    }
    let steady = is_steady(tree, at, again);
    let kept = keeps_children(tree, tree.alternate(at), again);
    let generation = generation_below(
        component,
        kept,
        element.stands_for_children(),
        origin.generation,
    );
    let place = Place {
        origin,
        again,
        stood,
        steady,
        generation,
    };
    match parts_of(&element) {
        Some(parts) => begin_component(
            alloc,
            tree,
            at,
            scene,
            place,
            parts.component,
            parts.props,
            parts.children,
            hooks,
            contexts.values(),
            steps,
        ),
        None => {
            let begun = begin_or_hide(alloc, tree, at, &element, place, scene, hooks, contexts)?;
            Ok((begun, false))
        }
    }
}
