// The hosts beside those that a commit places, found by a walk that passes by what was taken over.
ghost use Rattle.std.specs.Prelude.{◌≡◌, ◌||◌, ◌∷◌, ◌++◌, [], ℕ, Some, IfOk, IfSome, OnOk, true, filter_map};
ghost use Rattle.rx_elem.specs.Spots.{Around, around_children};
ghost use Rattle.rx_elem.specs.Trees as trees;
ghost use Rattle.rx_elem.specs.Trees.{element_of, host_number, mark_of};
ghost use Rattle.rx_forest.specs.Forests.{is_among};
ghost use Rattle.rx_forest.specs.Hosts.{host_at, hosts};
ghost use Rattle.host_laws.specs.Commits.{IsSound};
ghost use Rattle.host_laws.specs.Siblings.{TellPlaces, with_parents};
ghost use Rattle.rx_set.specs.Sets.{holds};
ghost use Rattle.rx_node.specs.MarkView.{mark_seen};
ghost use Rattle.rx_links.specs.Drafts.{grafted};
ghost use Rattle.rx_links.specs.Readers.{IsIn};
ghost use Rattle.rx_fiber.specs.Reading.{IsTreeOf};
ghost use Rattle.rx_read.specs.Lists.{list_of};
ghost use Rattle.rx_host_list.specs.Walks.{HasWalked, first_spots, numbers_at, spots_of};

use crate::listing::hosts_in_progress;
use rx_elem::Element;
use rx_fiber::{Fiber, Stage};
use rx_host_ops::{Host, add_host, concealed_below, parent_below};
use rx_links::{FiberId, FiberTree};
use rx_node::Mark;
use rx_read::lists_of;
use rx_set::NumberSet;
use std::alloc::{AllocError, Global};

// What surrounds a list of fibers: the nearest host above, whether a kept primary lies between that and the list, and whether
// its fibers were made for the tree in progress, as far as is known.
#[derive(Drop)]
struct Above {
    host: u64,
    concealed: bool,
    made: bool,
}

// Whether the first fiber of a list has this one for its parent: those that were taken over have its alternate.
fn hangs_below(tree: &FiberTree<Fiber>, first: Option<FiberId>, id: FiberId) -> bool
    requires { IfSome first (IsIn tree.now) }
{
    let Some(child) = first else {
        return false;
    };
    match tree.parent(child) {
        Some(parent) => parent.same(id),
        None => false,
    }
}

// What surrounds the children of a fiber with this mark, whose list begins there.
fn above_children(
    tree: &FiberTree<Fiber>,
    id: FiberId,
    mark: &Mark,
    first: Option<FiberId>,
    above: &Above,
) -> Above
    requires { IfSome first (IsIn tree.now) }
    ensures host { (a : Around) → a.host ≡ above.now.host → (around_children a (mark_seen mark.now)).host ≡ result.host }
    ensures concealed { (a : Around) → a.concealed ≡ above.now.concealed → (around_children a (mark_seen mark.now)).concealed ≡ result.concealed }
{
    Above {
        host: parent_below(mark, above.host),
        concealed: concealed_below(mark, above.concealed),
        made: above.made && hangs_below(tree, first, id),
    }
}

// Notes that the host of a node was met, if it is wanted.
fn note_met(mark: &Mark, wanted: &NumberSet, met: &mut NumberSet) -> Result<(), AllocError>
    ensures { OnOk result ((a : Around) (x : trees.Node) (n : ℕ) → mark_seen mark.now ≡ mark_of x → holds met.new n ≡ true
        → (holds met.old n || is_among (numbers_at (record { at = x; around = a } ∷ [])) n) ≡ true) }
{
    let Mark::Host(Some(number)) = mark else {
        return Ok(());
    };
    if wanted.has(*number) {
        met.add(*number)?;
    }
    Ok(())
}

// Lists the host of a node, if its parent is wanted.
fn list_own(
    element: &Element,
    mark: &Mark,
    above: &Above,
    wanted: &NumberSet,
    found: &mut Vec<Host>,
) -> Result<(), AllocError>
    ensures { OnOk result ((a : Around) (x : trees.Node) → a.host ≡ above.now.host → a.concealed ≡ above.now.concealed → element.now ≡ element_of x → mark_seen mark.now ≡ mark_of x
        → found.new.items ≡ found.old.items ++ with_parents (holds wanted.now) (filter_map host_at (record { at = x; around = a } ∷ []))) }
{
    if wanted.has(above.host) {
        add_host(element, mark, above.host, above.concealed, found)?;
    }
    Ok(())
}

// Goes over the node that a fiber stands for, and over all below that may be asked for. A boundary's fallback is told with the
// boundary.
#[cycle(walking)]
fn walk_from(
    tree: &FiberTree<Fiber>,
    id: FiberId,
    above: &Above,
    wanted: &NumberSet,
    met: &mut NumberSet,
    found: &mut Vec<Host>,
) -> Result<(), AllocError>
    requires { IsIn tree.now id }
    ensures { OnOk result ((a : Around) → a.host ≡ above.now.host → a.concealed ≡ above.now.concealed
        → HasWalked (holds wanted.now) (holds met.old) (holds met.new) found.old.items found.new.items (first_spots a (list_of tree.now (Some id)))) }
{
    tree.facts();
    let fiber = tree.value(id);
    let Stage::Begun(mark) = fiber.stage() else {
        return Ok(());
    };
    note_met(mark, wanted, met)?;
    list_own(fiber.element(), mark, above, wanted, found)?;
    let lists = lists_of(tree, id);
    let below = above_children(tree, id, mark, lists.children, above);
    walk(tree, lists.children, &below, wanted, met, found)?;
    walk(tree, lists.fallback, above, wanted, met, found)
}

// Goes over a list, from its first fiber on. One that was taken over is passed by, if the host above is not wanted.
#[cycle(walking)]
fn walk(
    tree: &FiberTree<Fiber>,
    first: Option<FiberId>,
    above: &Above,
    wanted: &NumberSet,
    met: &mut NumberSet,
    found: &mut Vec<Host>,
) -> Result<(), AllocError>
    requires { IfSome first (IsIn tree.now) }
    ensures { OnOk result ((a : Around) → a.host ≡ above.now.host → a.concealed ≡ above.now.concealed
        → HasWalked (holds wanted.now) (holds met.old) (holds met.new) found.old.items found.new.items (spots_of a (list_of tree.now first))) }
{
    tree.facts();
    if !above.made && !wanted.has(above.host) {
        return Ok(());
    }
    let mut next = first;
    'walking: while let Some(id) = next {
        walk_from(tree, id, above, wanted, met, found)?;
        next = tree.next_sibling(id);
    }
    Ok(())
}

/// Hosts of the tree in progress, once all of it is rendered and has its numbers, in tree order, that tell where a commit places
/// those whose parents are wanted (0 is the container): the hosts with wanted parents, without a walk through lists that were
/// taken over. That the hosts to place stand in lists that were made is not trusted: if the walk has not met each wanted parent,
/// all hosts are listed. Numbers occur at most once in a tree, so that if it has, it passed none by.
///
/// # Errors
///
/// Only if out of memory.
pub fn hosts_beside(
    alloc: Global,
    tree: &FiberTree<Fiber>,
    wanted: &NumberSet,
) -> Result<Vec<Host>, AllocError>
    ensures { IfOk result (λ found. (x : trees.Node) → IsTreeOf (Some x) (grafted tree.now.draft) → IsSound x → TellPlaces (holds wanted.now) found.items (hosts (Some x))) }
{
    tree.facts();
    let mut met = NumberSet::new(alloc);
    met.add(0)?;
    let mut found = Vec::new(alloc);
    let root = Above {
        host: 0,
        concealed: false,
        made: true,
    };
    walk(
        tree,
        tree.in_progress(),
        &root,
        wanted,
        &mut met,
        &mut found,
    )?;
    if !wanted.is_subset(&met) {
        return hosts_in_progress(alloc, tree);
    }
    Ok(found)
}
