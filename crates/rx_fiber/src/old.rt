// The old lists of a node, read from its current fiber.
ghost use Rattle.std.specs.Prelude.{◌≡◌, ◌-◌, ◌++◌, length, Option, None, Some, IfSome, IfOk, OnOk};
ghost use Rattle.rx_elem.specs.Elements as elements;
ghost use Rattle.rx_lists.specs.Shapes.{Holds};
ghost use Rattle.rx_links.specs.Drafts.{kids_under};
ghost use Rattle.rx_links.specs.Readers.{list_from};
ghost use Rattle.rx_fiber.specs.FiberView.{stage_seen};
ghost use Rattle.rx_fiber.specs.OldLists.{is_fallback, hides_in, falls_in, begins_fallback, primary_list, fallback_list, filled, told, old_elements, old_fibers};
ghost use Rattle.rx_fiber.specs.Subtrees.{subtrees_of};

use crate::fiber::Fiber;
use crate::stage::Stage;
use crate::subtree::Subtree;
use rx_elem::{Element, ElementKind};
use rx_links::{FiberId, FiberTree};
use rx_node::Mark;
use std::alloc::{AllocError, Global};

/// Whether a fiber of this stage is that of the fallback of the boundary right before it.
pub fn is_fallback(stage: &Stage) -> bool
    ensures { result ≡ is_fallback (stage_seen stage.now) }
{
    matches!(stage, Stage::Fallback(_))
}

/// Whether a fiber of this stage is that of a boundary that hides its children.
pub fn hides(stage: &Stage) -> bool
    ensures { result ≡ hides_in (stage_seen stage.now) }
{
    match stage {
        Stage::Begun(Mark::Boundary(state)) => state.hides(),
        _ => false,
    }
}

/// Whether a fiber of this stage is that of a boundary that shows its fallback: it is hidden, or has caught a value.
#[inline(always)]
pub fn falls(stage: &Stage) -> bool
    ensures { result ≡ falls_in (stage_seen stage.now) }
{
    match stage {
        Stage::Begun(mark) => mark.is_hidden() || mark.is_caught(),
        _ => false,
    }
}

// Whether a list begins with the fiber of a fallback.
#[inline(always)]
fn begins_fallback(tree: &FiberTree<Fiber>, link: Option<FiberId>) -> bool
    requires { IfSome link (Holds tree.now.current) }
    ensures { result ≡ begins_fallback (list_from tree.now.current link) }
{
    tree.facts();
    match link {
        Some(id) => is_fallback(tree.value(id).stage()),
        None => false,
    }
}

/// The first child of an old node, by its current fiber; of a boundary, the first of its primary, and none if it shows its
/// fallback and keeps none.
#[inline(always)]
pub fn old_primary(tree: &FiberTree<Fiber>, old: Option<FiberId>) -> Option<FiberId>
    requires { IfSome old (Holds tree.now.current) }
    ensures held { IfSome result (Holds tree.now.current) }
    ensures list { list_from tree.now.current result ≡ primary_list (list_from tree.now.current old) }
{
    tree.facts();
    let id = old?;
    let fallen = falls(tree.value(id).stage());
    if fallen && !begins_fallback(tree, tree.next_sibling(id)) {
        return None;
    }
    tree.first_child(id)
}

/// The first child of the fallback of an old boundary, by its current fiber: none if it shows its children.
pub fn old_fallback(tree: &FiberTree<Fiber>, old: Option<FiberId>) -> Option<FiberId>
    requires { IfSome old (Holds tree.now.current) }
    ensures held { IfSome result (Holds tree.now.current) }
    ensures list { list_from tree.now.current result ≡ fallback_list (list_from tree.now.current old) }
{
    tree.facts();
    let id = old?;
    if !falls(tree.value(id).stage()) {
        return None;
    }
    let behind = tree.next_sibling(id);
    if begins_fallback(tree, behind) {
        return tree.first_child(behind?);
    }
    tree.first_child(id)
}

/// The children of an old list, place by place: the element that stood there, `null` if none did, and its current fiber.
#[derive(Drop)]
pub struct OldChildren {
    pub elements: Vec<Element>,
    pub fibers: Vec<Option<FiberId>>,
}

// Goes on with places where nothing stood, up to this one.
fn fill(alloc: Global, children: &mut OldChildren, place: u32) -> Result<(), AllocError>
    ensures elements { OnOk result (children.new.elements.items ≡ children.old.elements.items ++ filled (place - length children.old.elements.items) elements.null) }
    ensures fibers { OnOk result (children.new.fibers.items ≡ children.old.fibers.items ++ filled (place - length children.old.elements.items) None) }
{
    'filling: while children.elements.len() < place as usize {
        let null = Element::new(alloc, ElementKind::Null)?;
        children.elements.push(null)?;
        children.fibers.push(None)?;
    }
    Ok(())
}

// Goes on with a fiber of the list; that of a fallback stands in no place.
fn add(
    alloc: Global,
    children: &mut OldChildren,
    id: FiberId,
    fiber: &Fiber,
) -> Result<(), AllocError>
    requires { length children.old.elements.items ≡ length children.old.fibers.items }
    ensures elements { OnOk result (children.new.elements.items ≡ children.old.elements.items ++ told elements.null fiber.now.element (length children.old.elements.items) fiber.now) }
    ensures fibers { OnOk result (children.new.fibers.items ≡ children.old.fibers.items ++ told None (Some id) (length children.old.fibers.items) fiber.now) }
{
    if is_fallback(fiber.stage()) {
        return Ok(());
    }
    fill(alloc, children, fiber.place())?;
    let element = fiber.element().copy()?;
    children.elements.push(element)?;
    children.fibers.push(Some(id))?;
    Ok(())
}

/// The children of the old list that begins with a current fiber. What is matched with them is matched with all places of the
/// list: those at its end without a node are left out, and nothing is found there. There is room for so many at once.
///
/// # Errors
///
/// Only if out of memory.
pub fn old_children(
    alloc: Global,
    tree: &FiberTree<Fiber>,
    first: Option<FiberId>,
    room: usize,
) -> Result<OldChildren, AllocError>
    requires { IfSome first (Holds tree.now.current) }
    ensures elements { IfOk result (λ c. c.elements.items ≡ old_elements (list_from tree.now.current first)) }
    ensures fibers { IfOk result (λ c. c.fibers.items ≡ old_fibers (list_from tree.now.current first)) }
{
    tree.facts();
    let mut children = OldChildren {
        elements: Vec::with_capacity(alloc, room)?,
        fibers: Vec::with_capacity(alloc, room)?,
    };
    let mut next = first;
    'listing: while let Some(id) = next {
        add(alloc, &mut children, id, tree.value(id))?;
        next = tree.next_sibling(id);
    }
    Ok(children)
}

// What is kept on the fibers of a current list, taken together.
fn list_subtree(tree: &FiberTree<Fiber>, first: Option<FiberId>) -> Subtree
    requires { IfSome first (Holds tree.now.current) }
    ensures { result ≡ subtrees_of (list_from tree.now.current first) }
{
    tree.facts();
    let mut below = Subtree::nothing();
    let mut next = first;
    'gathering: while let Some(id) = next {
        below = below.join(tree.value(id).subtree());
        next = tree.next_sibling(id);
    }
    below
}

/// What is kept on the children of a current fiber, taken together; nothing if there is no fiber.
pub fn kids_subtree(tree: &FiberTree<Fiber>, old: Option<FiberId>) -> Subtree
    requires { IfSome old (Holds tree.now.current) }
    ensures { result ≡ subtrees_of (kids_under tree.now.current old) }
{
    tree.facts();
    match old {
        Some(id) => list_subtree(tree, tree.first_child(id)),
        None => Subtree::nothing(),
    }
}
