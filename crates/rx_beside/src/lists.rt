// Nodes and lists of both sides, and which child is which.
ghost use Rattle.std.specs.Prelude.{◌≡◌, false, ◌∷◌, [], ◌<◌, ◌^◌, All, None, Some, IfSome, IfOk, length, map};
ghost use Rattle.rx_elem.specs.Trees.{node, none, forest, elements_in};
ghost use Rattle.rx_compare.specs.Matched.{element_at, IsMatched};
ghost use Rattle.rx_links.specs.Drafts.{or_else};
ghost use Rattle.rx_node.specs.MarkView.{mark_seen};
ghost use Rattle.rx_fiber.specs.OldLists.{filled};
ghost use Rattle.rx_read.specs.Lists.{list_of};
ghost use Rattle.rx_read.specs.Places.{first_node};
ghost use Rattle.rx_beside.specs.Alike.{AllTakeAlike};
ghost use Rattle.rx_beside.specs.Children.{IsNode};
ghost use Rattle.rx_beside.specs.Pairs.{AreSame, IsPair, IsPruned};
ghost use Rattle.rx_beside.specs.Slots.{fiber_in, replaced, with_gone};

use crate::children::fill;
use crate::places::Pair;
use crate::taking::{is_kept, shows_children};
use rx_elem::{Element, ElementKind};
use rx_fiber::{Fiber, Stage};
use rx_keys::{Matching, match_children};
use rx_links::{FiberId, FiberTree};
use rx_node::{Mark, Node};
use rx_read::read_fiber;
use std::alloc::{AllocError, Global};

// An old node and the new one that it became, both without what stayed the same.
#[derive(Drop)]
pub(crate) struct PrunedNodes {
    pub old: Node,
    pub new: Node,
}

// An old list of children and the new one, both without what stayed the same; and whether the new one is known to be the old one.
#[derive(Drop)]
pub(crate) struct PrunedLists {
    pub old: Vec<Option<Node>>,
    pub new: Vec<Option<Node>>,
    pub same: bool,
}

// What stands at a place of the new list; and the old node, if that is without something too.
#[derive(Drop)]
pub(crate) struct Slot {
    pub old: Option<Node>,
    pub new: Option<Node>,
}

// The node that a fiber stands for, with all below it.
pub(crate) fn read_node(
    alloc: Global,
    tree: &FiberTree<Fiber>,
    id: FiberId,
) -> Result<Node, AllocError>
    requires { IsNode tree.now id }
    ensures { IfOk result (λ n. Some n ≡ first_node (list_of tree.now (Some id))) }
{
    match read_fiber(alloc, tree, id)? {
        Some(node) => Ok(node),
        None => unreachable!(),
    }
}

// The nodes that two fibers stand for, with all below them.
pub(crate) fn read_both(
    alloc: Global,
    tree: &FiberTree<Fiber>,
    pair: &Pair,
) -> Result<PrunedNodes, AllocError>
    requires was { IsNode tree.now pair.now.old }
    requires is { IsNode tree.now pair.now.new }
    ensures old { IfOk result (λ p. Some p.old ≡ first_node (list_of tree.now (Some pair.now.old))) }
    ensures new { IfOk result (λ p. Some p.new ≡ first_node (list_of tree.now (Some pair.now.new))) }
{
    Ok(PrunedNodes {
        old: read_node(alloc, tree, pair.old)?,
        new: read_node(alloc, tree, pair.new)?,
    })
}

// The same of a made fiber and its alternate: one that is kept is read once.
pub(crate) fn read_wholes(
    alloc: Global,
    tree: &FiberTree<Fiber>,
    pair: &Pair,
) -> Result<PrunedNodes, AllocError>
    requires pair { IsPair tree.now pair.now }
    requires alike { AllTakeAlike tree.now.current tree.now.draft }
    ensures old { IfOk result (λ p. Some p.old ≡ first_node (list_of tree.now (Some pair.now.old))) }
    ensures new { IfOk result (λ p. Some p.new ≡ first_node (list_of tree.now (Some pair.now.new))) }
{
    if !is_kept(tree, pair) {
        return read_both(alloc, tree, pair);
    }
    let new = read_node(alloc, tree, pair.new)?;
    Ok(PrunedNodes {
        old: new.copy()?,
        new,
    })
}

// The node with these children, and no fallback.
pub(crate) fn node_over(
    alloc: Global,
    element: &Element,
    mark: &Mark,
    children: Vec<Option<Node>>,
) -> Result<Node, AllocError>
    ensures { IfOk result (λ n. n ≡ node element.now (mark_seen mark.now) (forest children.items) none) }
{
    let element = element.copy()?;
    let mark = mark.copy()?;
    Node::new(alloc, element, mark, children, Vec::new(alloc))
}

// The node of a made fiber that is the very one of its alternate, for both, without its children.
pub(crate) fn over_same(
    alloc: Global,
    tree: &FiberTree<Fiber>,
    pair: &Pair,
) -> Result<PrunedNodes, AllocError>
    requires pair { IsPair tree.now pair.now }
    requires same { AreSame tree.now pair.now }
    ensures { IfOk result (λ p. IsPruned tree.now false pair.now p.old p.new) }
{
    tree.facts();
    let is = tree.value(pair.new);
    if let Stage::Begun(mark) = is.stage()
        && shows_children(mark)
    {
        let new = node_over(alloc, is.element(), mark, Vec::new(alloc))?;
        return Ok(PrunedNodes {
            old: new.copy()?,
            new,
        });
    }
    let both = read_both(alloc, tree, pair)?;
    Ok(both)
}

// Two lists of which all is left out; and whether they are the same.
pub(crate) fn no_lists(alloc: Global, same: bool) -> PrunedLists
    ensures old { result.old.items ≡ [] }
    ensures new { result.new.items ≡ [] }
    ensures same { result.same ≡ same }
{
    PrunedLists {
        old: Vec::new(alloc),
        new: Vec::new(alloc),
        same,
    }
}

// A list of one node.
fn one_node(alloc: Global, node: Node) -> Result<Vec<Option<Node>>, AllocError>
    ensures { IfOk result (λ v. v.items ≡ Some node ∷ []) }
{
    let mut nodes = Vec::with_capacity(alloc, 1)?;
    nodes.push(Some(node))?;
    Ok(nodes)
}

// Two lists of one node each, which are not the same.
pub(crate) fn one_each(alloc: Global, nodes: PrunedNodes) -> Result<PrunedLists, AllocError>
    ensures old { IfOk result (λ l. l.old.items ≡ Some nodes.old ∷ []) }
    ensures new { IfOk result (λ l. l.new.items ≡ Some nodes.new ∷ []) }
    ensures same { IfOk result (λ l. l.same ≡ false) }
{
    Ok(PrunedLists {
        old: one_node(alloc, nodes.old)?,
        new: one_node(alloc, nodes.new)?,
        same: false,
    })
}

// So many vacant places.
pub(crate) fn vacant_places(alloc: Global, count: usize) -> Result<Vec<Option<Node>>, AllocError>
    ensures { IfOk result (λ v. v.items ≡ filled count None) }
{
    let mut nodes = Vec::with_capacity(alloc, count)?;
    fill(&mut nodes, count)?;
    Ok(nodes)
}

// Puts a node at its place, if there is one.
pub(crate) fn replace(nodes: &mut Vec<Option<Node>>, place: Option<u32>, node: Option<Node>)
    ensures { nodes.new.items ≡ replaced node place nodes.old.items }
{
    if node.is_some()
        && let Some(place) = place
        && (place as usize) < nodes.len()
    {
        nodes[place as usize] = node;
    }
}

// The fiber at a place of a list.
pub(crate) fn fiber_in(fibers: &[Option<FiberId>], place: Option<u32>) -> Option<FiberId>
    ensures { result ≡ fiber_in fibers.now place }
{
    *fibers.get(place? as usize)?
}

// What stands at a place of the old list: what is there by now, or the whole node of a fiber that is gone.
fn or_gone(
    alloc: Global,
    tree: &FiberTree<Fiber>,
    node: &Option<Node>,
    old: Option<FiberId>,
) -> Result<Option<Node>, AllocError>
    requires { IfSome old (IsNode tree.now) }
    ensures { IfOk result (λ n. n ≡ or_else node.now (first_node (list_of tree.now old))) }
{
    if let Some(node) = node {
        return Ok(Some(node.copy()?));
    }
    match old {
        Some(id) => read_fiber(alloc, tree, id),
        None => Ok(None),
    }
}

// The old list, with the whole nodes of the fibers that are gone.
pub(crate) fn with_gone(
    alloc: Global,
    tree: &FiberTree<Fiber>,
    nodes: &[Option<Node>],
    olds: &[Option<FiberId>],
) -> Result<Vec<Option<Node>>, AllocError>
    requires nodes { All (λ o. IfSome o (IsNode tree.now)) olds.now }
    requires even { length nodes.now ≡ length olds.now }
    ensures { IfOk result (λ v. v.items ≡ with_gone nodes.now (map (λ o. first_node (list_of tree.now o)) olds.now)) }
{
    let mut whole = Vec::with_capacity(alloc, olds.len())?;
    'going: for i in 0..olds.len() {
        whole.push(or_gone(alloc, tree, &nodes[i], olds[i])?)?;
    }
    Ok(whole)
}

// The element of a fiber; of a vacant place, `null`.
fn element_of(
    alloc: Global,
    tree: &FiberTree<Fiber>,
    child: Option<FiberId>,
) -> Result<Element, AllocError>
    requires { IfSome child (IsNode tree.now) }
    ensures { IfOk result (λ e. e ≡ element_at (first_node (list_of tree.now child))) }
{
    tree.facts();
    match child {
        Some(id) => tree.value(id).element().copy(),
        None => Element::new(alloc, ElementKind::Null),
    }
}

// The elements of a list. A list has fewer than 2 ^ 32 places: there is no memory for more.
fn elements_of(
    alloc: Global,
    tree: &FiberTree<Fiber>,
    fibers: &[Option<FiberId>],
) -> Result<Vec<Element>, AllocError>
    requires { All (λ o. IfSome o (IsNode tree.now)) fibers.now }
    ensures few { IfOk result (λ es. length es.items < 2 ^ 32) }
    ensures are { IfOk result (λ es. es.items ≡ elements_in (forest (map (λ o. first_node (list_of tree.now o)) fibers.now))) }
{
    if u32::try_from(fibers.len()).is_err() {
        return Err(AllocError);
    }
    let mut elements = Vec::with_capacity(alloc, fibers.len())?;
    for child in fibers {
        elements.push(element_of(alloc, tree, *child)?)?;
    }
    Ok(elements)
}

// Which of the made children is which old one, and which of them moved.
pub(crate) fn match_fibers(
    alloc: Global,
    tree: &FiberTree<Fiber>,
    olds: &[Option<FiberId>],
    news: &[Option<FiberId>],
) -> Result<Matching, AllocError>
    requires olds { All (λ o. IfSome o (IsNode tree.now)) olds.now }
    requires news { All (λ o. IfSome o (IsNode tree.now)) news.now }
    ensures { IfOk result (IsMatched (forest (map (λ o. first_node (list_of tree.now o)) olds.now)) (elements_in (forest (map (λ o. first_node (list_of tree.now o)) news.now)))) }
{
    let old = elements_of(alloc, tree, olds)?;
    let new = elements_of(alloc, tree, news)?;
    match_children(alloc, &old, &new)
}
