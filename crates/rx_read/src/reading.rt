// A finished tree of fibers as a plain tree.
ghost use Rattle.std.specs.Prelude.{◌≡◌, ◌-◌, ◌++◌, length, None, Some, Option, IfSome, IfOk, OnOk};
ghost use Rattle.rx_elem.specs.Trees as trees;
ghost use Rattle.rx_links.specs.Drafts.{grafted};
ghost use Rattle.rx_links.specs.Readers.{IsIn};
ghost use Rattle.rx_fiber.specs.OldLists.{filled, begins_fallback, first_kids, primary_list, fallback_list};
ghost use Rattle.rx_fiber.specs.Reading.{IsTreeOf};
ghost use Rattle.end_laws.specs.Trimmed.{trimmed, trimmed_if};
ghost use Rattle.rx_read.specs.Lists.{list_of};
ghost use Rattle.rx_read.specs.Places.{places_in, first_places, first_node};

use rx_fiber::{Fiber, Stage, falls, is_fallback};
use rx_links::{FiberId, FiberTree};
use rx_node::{Mark, Node};
use std::alloc::{AllocError, Global};

/// Where the lists of a node begin.
#[derive(Clone, Copy)]
pub struct NodeLists {
    pub children: Option<FiberId>,
    pub fallback: Option<FiberId>,
}

// Whether a list begins with the fiber of a fallback.
fn begins_fallback(tree: &FiberTree<Fiber>, link: Option<FiberId>) -> bool
    requires { IfSome link (IsIn tree.now) }
    ensures { result ≡ begins_fallback (list_of tree.now link) }
{
    tree.facts();
    match link {
        Some(id) => is_fallback(tree.value(id).stage()),
        None => false,
    }
}

// The children of the first fiber of a list.
fn child_of_link(tree: &FiberTree<Fiber>, link: Option<FiberId>) -> Option<FiberId>
    requires { IfSome link (IsIn tree.now) }
    ensures inside { IfSome result (IsIn tree.now) }
    ensures list { list_of tree.now result ≡ first_kids (list_of tree.now link) }
{
    tree.facts();
    tree.first_child(link?)
}

/// Where the lists of a fiber's node begin. A hidden boundary that keeps something has the fiber of its fallback right behind
/// its own; one that keeps nothing has its fallback as its children, and so has an error boundary that has caught a value.
pub fn lists_of(tree: &FiberTree<Fiber>, id: FiberId) -> NodeLists
    requires { IsIn tree.now id }
    ensures children_in { IfSome result.children (IsIn tree.now) }
    ensures fallback_in { IfSome result.fallback (IsIn tree.now) }
    ensures children { list_of tree.now result.children ≡ primary_list (list_of tree.now (Some id)) }
    ensures fallback { list_of tree.now result.fallback ≡ fallback_list (list_of tree.now (Some id)) }
{
    tree.facts();
    let first = tree.first_child(id);
    if !falls(tree.value(id).stage()) {
        return NodeLists {
            children: first,
            fallback: None,
        };
    }
    if !begins_fallback(tree, tree.next_sibling(id)) {
        return NodeLists {
            children: None,
            fallback: first,
        };
    }
    let fallback = child_of_link(tree, tree.next_sibling(id));
    NodeLists {
        children: first,
        fallback,
    }
}

// Goes on with vacant places up to this one.
fn fill(nodes: &mut Vec<Option<Node>>, place: u32) -> Result<(), AllocError>
    ensures { OnOk result (nodes.new.items ≡ nodes.old.items ++ filled (place - length nodes.old.items) None) }
{
    'filling: while nodes.len() < place as usize {
        nodes.push(None)?;
    }
    Ok(())
}

/// The node that a fiber stands for, with all below it, if it stands for one. A boundary's fallback is read with the boundary.
///
/// # Errors
///
/// Only if out of memory.
#[cycle(read)]
pub fn read_fiber(
    alloc: Global,
    tree: &FiberTree<Fiber>,
    id: FiberId,
) -> Result<Option<Node>, AllocError>
    requires { IsIn tree.now id }
    ensures { IfOk result (λ n. n ≡ first_node (list_of tree.now (Some id))) }
{
    tree.facts();
    let fiber = tree.value(id);
    let Stage::Begun(mark) = fiber.stage() else {
        return Ok(None);
    };
    let lists = lists_of(tree, id);
    let children = read_list(alloc, tree, lists.children)?;
    let fallback = read_list(alloc, tree, lists.fallback)?;
    let node = Node::new(
        alloc,
        fiber.element().copy()?,
        mark.copy()?,
        children,
        fallback,
    )?;
    Ok(Some(node))
}

// Goes on with the node of a fiber, at its place; that of a fallback is read with its boundary.
#[cycle(read)]
fn read_node(
    alloc: Global,
    tree: &FiberTree<Fiber>,
    id: FiberId,
    nodes: &mut Vec<Option<Node>>,
) -> Result<(), AllocError>
    requires { IsIn tree.now id }
    ensures { OnOk result (nodes.new.items ≡ nodes.old.items ++ first_places (length nodes.old.items) (list_of tree.now (Some id))) }
{
    tree.facts();
    if let Some(node) = read_fiber(alloc, tree, id)? {
        fill(nodes, tree.value(id).place())?;
        nodes.push(Some(node))?;
    }
    Ok(())
}

// The places of a list, from its first fiber on.
#[cycle(read)]
fn read_list(
    alloc: Global,
    tree: &FiberTree<Fiber>,
    first: Option<FiberId>,
) -> Result<Vec<Option<Node>>, AllocError>
    requires { IfSome first (IsIn tree.now) }
    ensures { IfOk result (λ v. v.items ≡ places_in 0 (list_of tree.now first)) }
{
    tree.facts();
    let mut nodes = Vec::new(alloc);
    let mut next = first;
    'reading: while let Some(id) = next {
        read_node(alloc, tree, id, &mut nodes)?;
        next = tree.next_sibling(id);
    }
    Ok(nodes)
}

// The tree whose list begins with this fiber.
fn read_root(
    alloc: Global,
    tree: &FiberTree<Fiber>,
    root: Option<FiberId>,
) -> Result<Option<Node>, AllocError>
    requires { IfSome root (IsIn tree.now) }
    ensures { IfOk result (λ n. (x : Option trees.Node) → IsTreeOf x (list_of tree.now root) → n ≡ trimmed_if x) }
{
    let mut nodes = read_list(alloc, tree, root)?;
    match nodes.pop() {
        Some(node) => Ok(node),
        None => Ok(None),
    }
}

/// The current tree as a plain tree, without the vacant places at the ends of its lists, of which fibers do not tell; none
/// before the first commit. Elements and what is kept of instances are shared with the fibers.
///
/// # Errors
///
/// Only if out of memory.
pub fn read_current(alloc: Global, tree: &FiberTree<Fiber>) -> Result<Option<Node>, AllocError>
    ensures { IfOk result (λ n. (x : Option trees.Node) → IsTreeOf x tree.now.current → n ≡ trimmed_if x) }
{
    tree.facts();
    read_root(alloc, tree, tree.current())
}

/// The tree in progress, once all of it is rendered, as a plain tree, without the vacant places at the ends of its lists, of
/// which fibers do not tell. What was taken over is read as it stands in the current tree.
///
/// # Errors
///
/// Only if out of memory.
pub fn read_in_progress(alloc: Global, tree: &FiberTree<Fiber>) -> Result<Node, AllocError>
    requires { (x : trees.Node) × IsTreeOf (Some x) (grafted tree.now.draft) }
    ensures { IfOk result (λ n. (x : trees.Node) → IsTreeOf (Some x) (grafted tree.now.draft) → n ≡ trimmed x) }
{
    tree.facts();
    match read_root(alloc, tree, tree.in_progress())? {
        Some(node) => Ok(node),
        None => unreachable!(),
    }
}
