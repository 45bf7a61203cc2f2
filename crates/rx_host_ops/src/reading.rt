// The hosts of a tree.
ghost use Rattle.std.specs.Prelude.{◌≡◌, ◌++◌, [], IfOk, OnErr, OnOk, filter_map};
ghost use Rattle.std.specs.List.{cons_option};
ghost use Rattle.std.specs.Option.{option_copied};
ghost use Rattle.rx_elem.specs.Spots.{Around, around_children, spots, spots_in};
ghost use Rattle.rx_elem.specs.Trees.{element_of, forest, mark_of};
ghost use Rattle.rx_elem.specs.Trees as trees;
ghost use Rattle.rx_forest.specs.Hosts.{host_at};
ghost use Rattle.rx_forest.specs.Hosts as listed;
ghost use Rattle.rx_node.specs.MarkView.{mark_seen};

use crate::host::Host;
use rx_elem::Element;
use rx_node::{Mark, Node};
use rx_susp::BoundaryState;
use std::alloc::{AllocError, Global};

/// The nearest host above the children of a node with this mark.
pub fn parent_below(mark: &Mark, parent: u64) -> u64
    ensures { (a : Around) → a.host ≡ parent → (around_children a (mark_seen mark.now)).host ≡ result }
{
    match mark {
        Mark::Host(Some(number)) => *number,
        _ => parent,
    }
}

/// Whether a kept primary lies between that host and the children of a node with this mark.
pub fn concealed_below(mark: &Mark, concealed: bool) -> bool
    ensures { (a : Around) → a.concealed ≡ concealed → (around_children a (mark_seen mark.now)).concealed ≡ result }
{
    match mark {
        Mark::Host(Some(_)) => false,
        Mark::Boundary(BoundaryState::Hidden(_)) => true,
        _ => concealed,
    }
}

/// Adds the host of a node with this element and mark, if it is one and has a number.
///
/// # Errors
///
/// Only if out of memory; the list is then as it was.
pub fn add_host(
    element: &Element,
    mark: &Mark,
    parent: u64,
    concealed: bool,
    found: &mut Vec<Host>,
) -> Result<(), AllocError>
    ensures added { OnOk result ((a : Around) (n : trees.Node) → a.host ≡ parent → a.concealed ≡ concealed → element.now ≡ element_of n → mark_seen mark.now ≡ mark_of n
        → found.new.items ≡ found.old.items ++ cons_option (host_at (record { at = n; around = a })) []) }
    ensures unchanged { OnErr result (found.new.items ≡ found.old.items) }
{
    if let Mark::Host(Some(number)) = mark {
        if let Some(host) = Host::below(parent, concealed, *number, element)? {
            found.push(host)?;
        }
    }
    Ok(())
}

// Adds the hosts of a node and below.
#[cycle(reading)]
fn add_from(
    node: &Node,
    parent: u64,
    concealed: bool,
    found: &mut Vec<Host>,
) -> Result<(), AllocError>
    ensures { OnOk result ((a : Around) → a.host ≡ parent → a.concealed ≡ concealed
        → found.new.items ≡ found.old.items ++ filter_map host_at (spots a node.now)) }
{
    let mark = node.mark();
    add_host(node.element(), mark, parent, concealed, found)?;
    add_in(
        node.children(),
        parent_below(mark, parent),
        concealed_below(mark, concealed),
        found,
    )?;
    add_in(node.fallback(), parent, concealed, found)
}

#[cycle(reading)]
fn add_in(
    places: &[Option<Node>],
    parent: u64,
    concealed: bool,
    found: &mut Vec<Host>,
) -> Result<(), AllocError>
    ensures { OnOk result ((a : Around) → a.host ≡ parent → a.concealed ≡ concealed
        → found.new.items ≡ found.old.items ++ filter_map host_at (spots_in a (forest places.now))) }
{
    for place in places {
        if let Some(node) = place {
            add_from(node, parent, concealed, found)?;
        }
    }
    Ok(())
}

/// The hosts of a committed tree, in tree order: a host before those below it. A host in a kept primary is hidden if the
/// boundary lies between it and its parent.
///
/// # Errors
///
/// Only if out of memory.
pub fn hosts(alloc: Global, tree: Option<&Node>) -> Result<Vec<Host>, AllocError>
    ensures { IfOk result (λ found. found.items ≡ listed.hosts (option_copied tree.entry)) }
{
    let mut found = Vec::new(alloc);
    if let Some(node) = tree {
        add_from(node, 0, false, &mut found)?;
    }
    Ok(found)
}
