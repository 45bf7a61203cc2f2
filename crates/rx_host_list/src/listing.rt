// The hosts of a tree in progress.
ghost use Rattle.std.specs.Prelude.{◌≡◌, ◌++◌, Some, IfOk, IfSome, OnOk};
ghost use Rattle.rx_elem.specs.Spots.{Around};
ghost use Rattle.rx_elem.specs.Trees as trees;
ghost use Rattle.rx_forest.specs.Hosts.{hosts};
ghost use Rattle.rx_links.specs.Drafts.{grafted};
ghost use Rattle.rx_links.specs.Readers.{IsIn};
ghost use Rattle.rx_fiber.specs.Reading.{IsTreeOf};
ghost use Rattle.rx_read.specs.Lists.{list_of};
ghost use Rattle.rx_host_list.specs.Listed.{first_hosts, hosts_in};

use rx_fiber::{Fiber, Stage};
use rx_host_ops::{Host, add_host, concealed_below, parent_below};
use rx_links::{FiberId, FiberTree};
use rx_read::lists_of;
use std::alloc::{AllocError, Global};

// Adds the hosts of the node that a fiber stands for, and of all below it, if it stands for one. A boundary's fallback is told with
// the boundary.
#[cycle(listing)]
fn add_fiber(
    tree: &FiberTree<Fiber>,
    id: FiberId,
    parent: u64,
    concealed: bool,
    found: &mut Vec<Host>,
) -> Result<(), AllocError>
    requires { IsIn tree.now id }
    ensures { OnOk result ((a : Around) → a.host ≡ parent → a.concealed ≡ concealed
        → found.new.items ≡ found.old.items ++ first_hosts a (list_of tree.now (Some id))) }
{
    tree.facts();
    let fiber = tree.value(id);
    let Stage::Begun(mark) = fiber.stage() else {
        return Ok(());
    };
    add_host(fiber.element(), mark, parent, concealed, found)?;
    let lists = lists_of(tree, id);
    add_list(
        tree,
        lists.children,
        parent_below(mark, parent),
        concealed_below(mark, concealed),
        found,
    )?;
    add_list(tree, lists.fallback, parent, concealed, found)
}

// Adds the hosts of a list, from its first fiber on.
#[cycle(listing)]
fn add_list(
    tree: &FiberTree<Fiber>,
    first: Option<FiberId>,
    parent: u64,
    concealed: bool,
    found: &mut Vec<Host>,
) -> Result<(), AllocError>
    requires { IfSome first (IsIn tree.now) }
    ensures { OnOk result ((a : Around) → a.host ≡ parent → a.concealed ≡ concealed
        → found.new.items ≡ found.old.items ++ hosts_in a (list_of tree.now first)) }
{
    tree.facts();
    let mut next = first;
    'listing: while let Some(id) = next {
        add_fiber(tree, id, parent, concealed, found)?;
        next = tree.next_sibling(id);
    }
    Ok(())
}

/// The hosts of the tree in progress, once all of it is rendered and has its numbers, in tree order: a host before those below it.
/// A host in a kept primary is hidden if the boundary lies between it and its parent. Lists that were taken over are read as they
/// stand in the current tree; no node is made.
///
/// # Errors
///
/// Only if out of memory.
pub fn hosts_in_progress(alloc: Global, tree: &FiberTree<Fiber>) -> Result<Vec<Host>, AllocError>
    ensures { IfOk result (λ found. (x : trees.Node) → IsTreeOf (Some x) (grafted tree.now.draft) → found.items ≡ hosts (Some x)) }
{
    tree.facts();
    let mut found = Vec::new(alloc);
    add_list(tree, tree.in_progress(), 0, false, &mut found)?;
    Ok(found)
}
