// A node begins over its children.
ghost use Rattle.std.specs.Prelude.{◌≡◌, Some, IfOk, OnOk, IfSome, IsSome, option_and_then, option_map};
ghost use Rattle.rx_lists.specs.Shapes.{Holds};
ghost use Rattle.rx_elem.specs.Trees.{caught_in, host_number, instance_in};
ghost use Rattle.rx_links.specs.Drafts.{old_of};
ghost use Rattle.rx_links.specs.Readers.{list_from};
ghost use Rattle.rx_fiber.specs.Fibers.{as_cloned, as_matched};
ghost use Rattle.rx_fiber.specs.FiberView.{stage_seen};
ghost use Rattle.rx_node.specs.MarkView.{instance_seen, mark_seen};
ghost use Rattle.rx_fiber.specs.OldLists.{matched, old_elements, old_fibers, primary_list};
ghost use Rattle.rx_fiber.specs.Subtrees.{subtree_at};
ghost use Rattle.rx_causes.specs.Marks.{keeps_children, mark_at};
ghost use Rattle.rx_children.specs.Nodes.{IsBareAt, IsBareBeside, HasList, HasOpened, HasTaken, begun_from};

use crate::children::make_children;
use crate::clones::clone_children;
use rx_base::{Awaits, Int};
use rx_elem::Element;
use rx_fiber::{Fiber, Stage, StageChange, Subtree, old_primary};
use rx_links::{FiberId, FiberTree};
use rx_node::{Instance, Mark};
use std::alloc::{AllocError, Global};

/// Where a render comes from the place that it began.
#[derive(Clone, Copy)]
pub enum Begun {
    /// The first child, which begins next.
    Child(FiberId),
    /// There is no child: the node is completed next.
    Leaf,
    /// The body waits for a resource, by its number.
    Suspended(u32),
    /// The body throws this value.
    Thrown(Int),
    /// A boundary is hidden and waits still for these resources: its children are not tried, and its fallback opens next.
    Hidden(Awaits),
    /// The fiber took its old children over, since nothing there has a cause to be rendered: its node is done, and is passed.
    Taken,
}

// The mark of an old node, by its current fiber.
fn old_mark(tree: &FiberTree<Fiber>, old: Option<FiberId>) -> Option<&Mark>
    requires { IfSome old (Holds tree.now.current) }
    ensures { option_map (λ m. mark_seen m.now) result ≡ mark_at tree.now.current old }
{
    match tree.value(old?).stage() {
        Stage::Begun(mark) => Some(mark),
        _ => None,
    }
}

/// Whether a place keeps the children of its old node: its element is given again, and it is no boundary that hides them.
pub fn keeps_children(tree: &FiberTree<Fiber>, old: Option<FiberId>, again: bool) -> bool
    requires { IfSome old (Holds tree.now.current) }
    ensures { result ≡ keeps_children again (mark_at tree.now.current old) }
{
    match old_mark(tree, old) {
        Some(mark) => again && !mark.is_hidden(),
        None => again,
    }
}

/// The number of an old host, if it is one.
pub fn old_host(tree: &FiberTree<Fiber>, old: Option<FiberId>) -> Option<u64>
    requires { IfSome old (Holds tree.now.current) }
    ensures { result ≡ option_and_then host_number (mark_at tree.now.current old) }
{
    match old_mark(tree, old)? {
        Mark::Host(number) => *number,
        _ => None,
    }
}

/// The value that an old error boundary has caught, if it is one that has.
pub fn old_caught(tree: &FiberTree<Fiber>, old: Option<FiberId>) -> Option<Int>
    requires { IfSome old (Holds tree.now.current) }
    ensures { result ≡ option_and_then caught_in (mark_at tree.now.current old) }
{
    old_mark(tree, old)?.caught()
}

/// The instance of an old component, if it is one.
///
/// # Errors
///
/// Only if out of memory.
pub fn old_instance(
    tree: &FiberTree<Fiber>,
    old: Option<FiberId>,
) -> Result<Option<Instance>, AllocError>
    requires { IfSome old (Holds tree.now.current) }
    ensures { IfOk result (λ i. option_map instance_seen i ≡ option_and_then instance_in (mark_at tree.now.current old)) }
{
    match old_mark(tree, old) {
        Some(Mark::Instance(instance)) => Ok(Some(instance.copy()?)),
        _ => Ok(None),
    }
}

// What is kept on a current fiber, if it is there.
fn old_subtree(tree: &FiberTree<Fiber>, old: Option<FiberId>) -> Subtree
    requires { IfSome old (Holds tree.now.current) }
    ensures { result ≡ subtree_at tree.now.current old }
{
    match old {
        Some(id) => tree.value(id).subtree(),
        None => Subtree::nothing(),
    }
}

/// Begins a fiber with this stage over these children, which are of this generation, each made for its old one in the current list
/// that begins with a fiber, and gives the first of them. `visible` tells whether the old ones are shown.
///
/// # Errors
///
/// Only if out of memory, or more children than a list has places. What was made then stays below the fiber.
pub fn open_list(
    alloc: Global,
    tree: &mut FiberTree<Fiber>,
    at: FiberId,
    stage: Stage,
    elements: &[Element],
    first_old: Option<FiberId>,
    visible: bool,
    generation: u32,
) -> Result<Option<FiberId>, AllocError>
    requires held { IfSome first_old (Holds tree.old.current) }
    requires beside { IsBareBeside tree.old at first_old }
    ensures opened { IfOk result (λ first. HasList (as_matched visible generation) tree.old tree.new at (stage_seen stage) elements.now (matched (list_from tree.old.current first_old) elements.now) first) }
    ensures current { tree.new.current ≡ tree.old.current }
{
    make_children(alloc, tree, at, elements, first_old, visible, generation)?;
    tree.place_facts();
    tree.give(at, stage);
    tree.place_facts();
    Ok(tree.first_child(at))
}

/// Begins a fiber with this stage over clones of the current list that begins with a fiber, and gives the first of them. `visible`
/// tells whether the old ones are shown.
///
/// # Errors
///
/// Only if out of memory, or more children than a list has places. What was made then stays below the fiber.
#[inline(always)]
pub fn open_clones(
    tree: &mut FiberTree<Fiber>,
    at: FiberId,
    stage: Stage,
    first_old: Option<FiberId>,
    visible: bool,
) -> Result<Option<FiberId>, AllocError>
    requires held { IfSome first_old (Holds tree.old.current) }
    requires beside { IsBareBeside tree.old at first_old }
    ensures opened { IfOk result (λ first. HasList (as_cloned visible) tree.old tree.new at (stage_seen stage) (old_elements (list_from tree.old.current first_old)) (old_fibers (list_from tree.old.current first_old)) first) }
    ensures current { tree.new.current ≡ tree.old.current }
{
    clone_children(tree, at, first_old, visible)?;
    tree.place_facts();
    tree.give(at, stage);
    tree.place_facts();
    Ok(tree.first_child(at))
}

/// Where a render comes from a fiber whose first child is this.
pub fn begun_from(first: Option<FiberId>) -> Begun
    ensures { result ≡ begun_from first }
{
    match first {
        Some(id) => Begun::Child(id),
        None => Begun::Leaf,
    }
}

/// Begins a fiber with this stage beside the children of its old node, over elements of this generation, and gives where the render
/// comes from there. `steady` tells whether the old children are shown.
///
/// # Errors
///
/// Only if out of memory, or more children than a list has places. What was made then stays below the fiber.
pub fn open_node(
    alloc: Global,
    tree: &mut FiberTree<Fiber>,
    at: FiberId,
    stage: Stage,
    elements: &[Element],
    steady: bool,
    generation: u32,
) -> Result<Begun, AllocError>
    requires bare { IsBareAt tree.old at }
    ensures opened { IfOk result (λ b. HasOpened (as_matched steady generation) tree.old tree.new at (stage_seen stage) elements.now (matched (primary_list (list_from tree.old.current (old_of tree.old.draft at))) elements.now) b) }
    ensures current { tree.new.current ≡ tree.old.current }
{
    tree.place_facts();
    tree.facts();
    let first_old = old_primary(tree, tree.alternate(at));
    let first = open_list(
        alloc, tree, at, stage, elements, first_old, steady, generation,
    )?;
    Ok(begun_from(first))
}

/// Begins a fiber with this stage over clones of the children of its old node, and gives where the render comes from there. `steady`
/// tells whether the old children are shown.
///
/// # Errors
///
/// Only if out of memory, or more children than a list has places. What was made then stays below the fiber.
#[inline(always)]
pub fn keep_node(
    tree: &mut FiberTree<Fiber>,
    at: FiberId,
    stage: Stage,
    steady: bool,
) -> Result<Begun, AllocError>
    requires bare { IsBareAt tree.old at }
    ensures opened { IfOk result (λ b. HasOpened (as_cloned steady) tree.old tree.new at (stage_seen stage) (old_elements (primary_list (list_from tree.old.current (old_of tree.old.draft at))))
        (old_fibers (primary_list (list_from tree.old.current (old_of tree.old.draft at)))) b) }
    ensures current { tree.new.current ≡ tree.old.current }
{
    tree.place_facts();
    tree.facts();
    let first_old = old_primary(tree, tree.alternate(at));
    let first = open_clones(tree, at, stage, first_old, steady)?;
    Ok(begun_from(first))
}

// The mark of an old node once more, by its current fiber.
fn copy_mark(tree: &FiberTree<Fiber>, old: Option<FiberId>) -> Result<Mark, AllocError>
    requires held { IfSome old (Holds tree.now.current) }
    requires there { IsSome (mark_at tree.now.current old) }
    ensures { IfOk result (λ m. Some (mark_seen m) ≡ mark_at tree.now.current old) }
{
    match old_mark(tree, old) {
        Some(mark) => Ok(mark.copy()?),
        None => unreachable!(),
    }
}

/// Takes the children of a fiber's old node over as they stand, by one link: the fiber gets the mark of that node, and what is kept
/// of what is at or below it. No fiber is made.
///
/// # Errors
///
/// Only if out of memory. Then nothing is taken over.
pub fn take_node(tree: &mut FiberTree<Fiber>, at: FiberId) -> Result<(), AllocError>
    requires bare { IsBareAt tree.old at }
    requires there { IsSome (mark_at tree.old.current (old_of tree.old.draft at)) }
    ensures taken { OnOk result (HasTaken tree.old tree.new at) }
    ensures current { tree.new.current ≡ tree.old.current }
{
    tree.place_facts();
    let mark = copy_mark(tree, tree.alternate(at))?;
    let below = old_subtree(tree, tree.alternate(at));
    tree.take_over(at);
    tree.place_facts();
    tree.give(at, Stage::Begun(mark));
    tree.place_facts();
    tree.mark_made(at, &StageChange::Complete(below));
    Ok(())
}
