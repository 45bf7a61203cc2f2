// The fallback of a boundary opens, of Suspense or of errors.
ghost use Rattle.std.specs.Prelude.{◌≡◌, Bool, Some, true, false, IfOk, IfSome, OnOk};
ghost use Rattle.std.specs.Option.{option_copied};
ghost use Rattle.rx_ctx.specs.Contexts.{Stack};
ghost use Rattle.rx_lists.specs.Shapes.{Holds, IsTop, none};
ghost use Rattle.rx_links.specs.Drafts.{taken, Makes, IsUnused, old_of};
ghost use Rattle.rx_links.specs.Readers.{list_from, made_value_of, old_list};
ghost use Rattle.rx_meaning.specs.Cursor.{Cursor};
ghost use Rattle.rx_meaning.specs.Generations.{own_generation};
ghost use Rattle.rx_fiber.specs.Fibers as fibers;
ghost use Rattle.rx_fiber.specs.Fibers.{as_cloned, as_matched, generation_of, origin_of};
ghost use Rattle.rx_fiber.specs.FiberView.{stage_seen};
ghost use Rattle.rx_fiber.specs.Surround.{given_along, moved_along};
ghost use Rattle.rx_fiber.specs.Unwound.{IsCaughtAt, IsLeftAt};
ghost use Rattle.rx_children.specs.Children.{HasMadeFrom};
ghost use Rattle.rx_children.specs.Nodes.{IsBareAt, IsBareBeside, HasList};
ghost use Rattle.rx_children.specs.Again.{HasOldFallback};
ghost use Rattle.rx_children.specs.Origins.{TellsAgain};
ghost use Rattle.rx_fallback.specs.Opening.{IsCatchLeft, IsLeft, KeepsNode, HasOpenedAs, fallback_behind, opened_at, HasKept, HasFallback, HasFallbackKids, HasCaughtKids, IsFallbackOf, given_as, given_elements, given_fibers};

use rx_base::{Awaits, Int};
use rx_catch::CatchState;
use rx_children::{
    clone_children, fallback_list, is_again, make_children, open_clones, open_list, own_generation,
};
use rx_elem::Element;
use rx_fiber::{Fiber, Stage, StageChange, kids_subtree, old_fallback, old_primary};
use rx_links::{FiberId, FiberTree};
use rx_node::Mark;
use rx_susp::BoundaryState;
use std::alloc::{AllocError, Global};

/// Where a render comes to when a boundary opens its fallback.
#[derive(Clone, Copy)]
pub enum Opened {
    /// The fallback's fiber, which begins next.
    First(FiberId),
    /// The fallback is `null`: the node of this fiber is completed next.
    Empty(FiberId),
}

// The fiber of an old boundary's fallback that stands right behind the boundary's own.
fn old_beside(tree: &FiberTree<Fiber>, old: Option<FiberId>) -> Option<FiberId>
    requires { IfSome old (Holds tree.now.current) }
    ensures held { IfSome result (Holds tree.now.current) }
    ensures is { result ≡ fallback_behind (list_from tree.now.current old) }
{
    tree.facts();
    let behind = tree.next_sibling(old?)?;
    match tree.value(behind).stage() {
        Stage::Fallback(_) => Some(behind),
        _ => None,
    }
}

// A boundary's fiber takes over what the boundary keeps, and hides it.
fn keep_primary(tree: &mut FiberTree<Fiber>, at: FiberId, awaits: Awaits)
    requires { IsBareAt tree.old at }
    ensures kept { HasKept tree.old tree.new at awaits }
    ensures current { tree.new.current ≡ tree.old.current }
{
    tree.place_facts();
    let below = kids_subtree(tree, tree.alternate(at));
    tree.take_over(at);
    tree.place_facts();
    tree.mark_made(at, &StageChange::Hide(awaits, below));
}

// Puts the fiber of a fallback right behind that of its boundary.
fn put_fallback(
    tree: &mut FiberTree<Fiber>,
    at: FiberId,
    awaits: Awaits,
    old: Option<FiberId>,
) -> Result<FiberId, AllocError>
    requires made { Makes tree.old.draft at }
    requires old_sibling { IfSome old (IsTop (old_list tree.old at)) }
    requires unused { IfSome old (IsUnused tree.old.draft) }
    ensures put { IfOk result (λ id. HasFallback tree.old tree.new at old awaits id) }
    ensures current { tree.new.current ≡ tree.old.current }
{
    tree.place_facts();
    let fiber = tree.value(at);
    let element = fiber.element().copy()?;
    let place = fiber.place();
    tree.child_behind(at, old, Fiber::new(place, element, Stage::Fallback(awaits)))
}

fn opened_at(first: Option<FiberId>, at: FiberId) -> Opened
    ensures { result ≡ opened_at first at }
{
    match first {
        Some(id) => Opened::First(id),
        None => Opened::Empty(at),
    }
}

// Makes the fibers of a fallback's list below a made fiber that has no children: those of these elements, of this generation, or
// if none are given, clones of the old ones. `visible` tells whether the old ones are shown.
fn make_listed(
    alloc: Global,
    tree: &mut FiberTree<Fiber>,
    at: FiberId,
    given: Option<&[Element]>,
    visible: bool,
    generation: u32,
    first_old: Option<FiberId>,
) -> Result<(), AllocError>
    requires held { IfSome first_old (Holds tree.old.current) }
    requires beside { IsBareBeside tree.old at first_old }
    ensures made { OnOk result (HasMadeFrom (given_as (option_copied given.entry) visible generation) 0 tree.old tree.new at (given_elements (option_copied given.entry) (list_from tree.old.current first_old)) (given_fibers (option_copied given.entry) (list_from tree.old.current first_old))) }
    ensures current { tree.new.current ≡ tree.old.current }
{
    match given {
        Some(elements) => make_children(alloc, tree, at, elements, first_old, visible, generation),
        None => clone_children(tree, at, first_old, visible),
    }
}

// The same for a fiber that gets this stage.
fn open_listed(
    alloc: Global,
    tree: &mut FiberTree<Fiber>,
    at: FiberId,
    stage: Stage,
    given: Option<&[Element]>,
    visible: bool,
    generation: u32,
    first_old: Option<FiberId>,
) -> Result<Option<FiberId>, AllocError>
    requires held { IfSome first_old (Holds tree.old.current) }
    requires beside { IsBareBeside tree.old at first_old }
    ensures opened { IfOk result (λ first. HasList (given_as (option_copied given.entry) visible generation) tree.old tree.new at (stage_seen stage) (given_elements (option_copied given.entry) (list_from tree.old.current first_old)) (given_fibers (option_copied given.entry) (list_from tree.old.current first_old)) first) }
    ensures current { tree.new.current ≡ tree.old.current }
{
    match given {
        Some(elements) => open_list(
            alloc, tree, at, stage, elements, first_old, visible, generation,
        ),
        None => open_clones(tree, at, stage, first_old, visible),
    }
}

// A boundary that keeps nothing opens its fallback in its own fiber.
fn fall_alone(
    alloc: Global,
    tree: &mut FiberTree<Fiber>,
    at: FiberId,
    awaits: Awaits,
    given: Option<&[Element]>,
    visible: bool,
    generation: u32,
) -> Result<Opened, AllocError>
    requires bare { IsBareAt tree.old at }
    requires left { IsLeft tree.old at awaits }
    requires gone { KeepsNode tree.old at awaits false }
    ensures opened { IfOk result (λ f. (st : Stack) (c : Cursor) → (l : IsLeftAt tree.old st at (taken none) awaits c) → IsFallbackOf tree.old.current (moved_along tree.old.current l.around) (given_along l.frames) l.old l.node l.value.element (option_copied given.entry) visible → HasOpenedAs tree.new st c f) }
    ensures kids { IfOk result (λ f. HasFallbackKids (given_as (option_copied given.entry) visible generation) tree.old tree.new at f) }
    ensures current { tree.new.current ≡ tree.old.current }
{
    tree.place_facts();
    tree.facts();
    let first_old = old_fallback(tree, tree.alternate(at));
    let stage = Stage::Begun(Mark::Boundary(BoundaryState::Hidden(awaits)));
    let first = open_listed(
        alloc, tree, at, stage, given, visible, generation, first_old,
    )?;
    Ok(opened_at(first, at))
}

// A boundary that keeps something opens its fallback in a fiber of its own.
fn fall_beside(
    alloc: Global,
    tree: &mut FiberTree<Fiber>,
    at: FiberId,
    awaits: Awaits,
    given: Option<&[Element]>,
    visible: bool,
    generation: u32,
) -> Result<Opened, AllocError>
    requires bare { IsBareAt tree.old at }
    requires left { IsLeft tree.old at awaits }
    requires keeps { KeepsNode tree.old at awaits true }
    ensures opened { IfOk result (λ f. (st : Stack) (c : Cursor) → (l : IsLeftAt tree.old st at (taken none) awaits c) → IsFallbackOf tree.old.current (moved_along tree.old.current l.around) (given_along l.frames) l.old l.node l.value.element (option_copied given.entry) visible → HasOpenedAs tree.new st c f) }
    ensures kids { IfOk result (λ f. HasFallbackKids (given_as (option_copied given.entry) visible generation) tree.old tree.new at f) }
    ensures current { tree.new.current ≡ tree.old.current }
{
    tree.place_facts();
    tree.facts();
    let first_old = old_fallback(tree, tree.alternate(at));
    let beside = old_beside(tree, tree.alternate(at));
    keep_primary(tree, at, awaits);
    tree.place_facts();
    tree.facts();
    let id = put_fallback(tree, at, awaits, beside)?;
    tree.place_facts();
    make_listed(alloc, tree, id, given, visible, generation, first_old)?;
    tree.place_facts();
    Ok(opened_at(tree.first_child(id), id))
}

// A boundary opens its fallback over fibers of these elements, which are of this generation, or, if none are given, over clones
// of the old ones. `visible` tells whether its current fiber is shown.
fn fall(
    alloc: Global,
    tree: &mut FiberTree<Fiber>,
    at: FiberId,
    awaits: Awaits,
    given: Option<&[Element]>,
    visible: bool,
    generation: u32,
) -> Result<Opened, AllocError>
    requires { IsLeft tree.old at awaits }
    ensures opened { IfOk result (λ f. (st : Stack) (c : Cursor) → (l : IsLeftAt tree.old st at (taken none) awaits c) → IsFallbackOf tree.old.current (moved_along tree.old.current l.around) (given_along l.frames) l.old l.node l.value.element (option_copied given.entry) visible → HasOpenedAs tree.new st c f) }
    ensures kids { IfOk result (λ f. HasFallbackKids (given_as (option_copied given.entry) visible generation) tree.old tree.new at f) }
    ensures current { tree.new.current ≡ tree.old.current }
{
    tree.place_facts();
    tree.facts();
    match old_primary(tree, tree.alternate(at)) {
        None => fall_alone(alloc, tree, at, awaits, given, visible, generation),
        Some(_) => fall_beside(alloc, tree, at, awaits, given, visible, generation),
    }
}

/// Opens the fallback of a boundary whose children wait for these resources, when a wait has stopped at it (react.dev,
/// Suspense). What the boundary showed before is kept: its fiber takes that over as it stands, and the fallback gets a fiber
/// right behind it. If there is nothing to keep, the fallback stands below the boundary's own fiber. The current tree stays
/// as it is.
///
/// # Errors
///
/// Only if out of memory. Then the render is to be given up.
pub fn open_fallback(
    alloc: Global,
    tree: &mut FiberTree<Fiber>,
    at: FiberId,
    awaits: Awaits,
) -> Result<Opened, AllocError>
    requires { IsLeft tree.old at awaits }
    ensures opened { IfOk result (λ f. (st : Stack) (c : Cursor) → IsLeftAt tree.old st at (taken none) awaits c → HasOpenedAs tree.new st c f) }
    // Their old fibers are shown exactly if the boundary's is, and they are of the generation of the boundary's element.
    ensures kids { IfOk result (λ f. (v : fibers.Fiber) → Some v ≡ made_value_of tree.old.draft at → (again : Bool) × TellsAgain false tree.old.current (old_of tree.old.draft at) v again
        × HasFallbackKids (as_matched (origin_of v.stage).visible (own_generation again (generation_of v.stage))) tree.old tree.new at f) }
    ensures current { tree.new.current ≡ tree.old.current }
{
    tree.place_facts();
    let again = is_again(tree, at, false);
    let fiber = tree.value(at);
    let origin = fiber.origin();
    let generation = own_generation(again, origin.generation);
    let fallback = fallback_list(alloc, fiber.element())?;
    fall(
        alloc,
        tree,
        at,
        awaits,
        Some(&fallback),
        origin.visible,
        generation,
    )
}

/// Opens the fallback of a boundary that was hidden before, has its element still, and waits for these resources again: over
/// clones of the fibers of its old fallback, so that nothing there is rendered anew without a cause. What the boundary keeps is
/// taken over as it stands, and the current tree stays as it is.
///
/// # Errors
///
/// Only if out of memory. Then the render is to be given up.
pub fn open_old_fallback(
    alloc: Global,
    tree: &mut FiberTree<Fiber>,
    at: FiberId,
    awaits: Awaits,
) -> Result<Opened, AllocError>
    requires { IsLeft tree.old at awaits }
    ensures opened { IfOk result (λ f. (st : Stack) (c : Cursor) → (l : IsLeftAt tree.old st at (taken none) awaits c) → HasOldFallback tree.old.current (given_along l.frames) l.old l.node l.value.element → HasOpenedAs tree.new st c f) }
    ensures kids { IfOk result (λ f. HasFallbackKids (as_cloned true) tree.old tree.new at f) }
    ensures current { tree.new.current ≡ tree.old.current }
{
    fall(alloc, tree, at, awaits, None, true, 0)
}

/// Opens the fallback of an error boundary, when a thrown value has stopped at it, which it has caught now (react.dev, Catching
/// rendering errors with an error boundary). It opens in the boundary's own fiber, over fibers that are made for no current ones:
/// what the boundary showed before is gone. The current tree stays as it is.
///
/// # Errors
///
/// Only if out of memory. Then the render is to be given up.
pub fn open_caught(
    alloc: Global,
    tree: &mut FiberTree<Fiber>,
    at: FiberId,
    value: Int,
) -> Result<Opened, AllocError>
    requires { IsCatchLeft tree.old at }
    ensures opened { IfOk result (λ f. (st : Stack) (c : Cursor) → IsCaughtAt tree.old st at (taken none) value c → HasOpenedAs tree.new st c f) }
    // Each of its fibers waits as one that was made anew, where nothing stood before.
    ensures kids { IfOk result (λ f. HasCaughtKids tree.old tree.new at f) }
    ensures current { tree.new.current ≡ tree.old.current }
{
    tree.place_facts();
    tree.facts();
    let fallback = fallback_list(alloc, tree.value(at).element())?;
    let stage = Stage::Begun(Mark::Catch(CatchState::Caught { value }));
    let first = open_list(alloc, tree, at, stage, &fallback, None, false, 1)?;
    Ok(opened_at(first, at))
}
