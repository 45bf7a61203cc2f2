// The numbers of the instances of a tree.
ghost use Rattle.std.specs.Prelude.{◌≡◌, ◌++◌, [], IfOk, OnOk};
ghost use Rattle.std.specs.List.{cons_option};
ghost use Rattle.std.specs.Option.{option_copied};
ghost use Rattle.rx_elem.specs.Spots as spots;
ghost use Rattle.rx_elem.specs.Spots.{mounted_at, numbers_of, spots_in};
ghost use Rattle.rx_elem.specs.Trees.{forest};
ghost use Rattle.rx_node.specs.MarkView.{mark_seen};
ghost use Rattle.rx_spots.specs.Places.{own_number};

use rx_node::{Mark, Node};
use std::alloc::{AllocError, Global};

// Adds the number of a node with this mark, if it is an instance that has one.
fn add_number(mark: &Mark, found: &mut Vec<u64>) -> Result<(), AllocError>
    ensures { OnOk result (found.new.items ≡ found.old.items ++ cons_option (own_number (mark_seen mark.now)) []) }
{
    if let Some(number) = mark.instance_number() {
        found.push(number)?;
    }
    Ok(())
}

// Adds the numbers of the instances of a node and below. Where there are none no walk is taken.
#[cycle(numbering)]
fn number_from(node: &Node, found: &mut Vec<u64>) -> Result<(), AllocError>
    ensures { OnOk result ((a : spots.Around) → found.new.items ≡ found.old.items ++ numbers_of (mounted_at (spots.spots a node.now))) }
{
    if !node.mounts() {
        return Ok(());
    }
    add_number(node.mark(), found)?;
    number_in(node.children(), found)?;
    number_in(node.fallback(), found)
}

#[cycle(numbering)]
fn number_in(places: &[Option<Node>], found: &mut Vec<u64>) -> Result<(), AllocError>
    ensures { OnOk result ((a : spots.Around) → found.new.items ≡ found.old.items ++ numbers_of (mounted_at (spots_in a (forest places.now)))) }
{
    for place in places {
        if let Some(node) = place {
            number_from(node, found)?;
        }
    }
    Ok(())
}

/// The numbers of the instances of a committed tree, in tree order. Nothing else of them is read; see `mounted`.
///
/// # Errors
///
/// Only if out of memory.
pub fn mounted_numbers(alloc: Global, tree: Option<&Node>) -> Result<Vec<u64>, AllocError>
    ensures { IfOk result (λ found. found.items ≡ numbers_of (spots.mounted (option_copied tree.entry))) }
{
    let mut found = Vec::new(alloc);
    if let Some(node) = tree {
        number_from(node, &mut found)?;
    }
    Ok(found)
}
