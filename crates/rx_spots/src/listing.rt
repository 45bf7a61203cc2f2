// The instances of a tree.
ghost use Rattle.std.specs.Prelude.{◌≡◌, ◌++◌, [], IfOk, OnOk, option_and_then};
ghost use Rattle.std.specs.List.{cons_option};
ghost use Rattle.std.specs.Option.{option_copied};
ghost use Rattle.rx_elem.specs.Spots as spots;
ghost use Rattle.rx_elem.specs.Spots.{mounted_as, mounted_at, spots_in};
ghost use Rattle.rx_elem.specs.Trees.{forest, instance_in};
ghost use Rattle.rx_node.specs.MarkView.{mark_seen};

use crate::around::Around;
use crate::instance::Mounted;
use rx_node::{Mark, Node};
use std::alloc::{AllocError, Global};

// Adds the instance of a node with this mark, if it is one and has a number.
fn add_own(mark: &Mark, around: Around, found: &mut Vec<Mounted>) -> Result<(), AllocError>
    ensures { OnOk result (found.new.items ≡ found.old.items ++ cons_option (option_and_then (mounted_as around) (instance_in (mark_seen mark.now))) []) }
{
    if let Mark::Instance(instance) = mark {
        if let Some(number) = instance.number {
            found.push(Mounted::new(instance, number, around)?)?;
        }
    }
    Ok(())
}

// Adds the instances of a node and below. Where there are none no walk is taken.
#[cycle(mounting)]
fn add_from(node: &Node, around: Around, found: &mut Vec<Mounted>) -> Result<(), AllocError>
    ensures { OnOk result (found.new.items ≡ found.old.items ++ mounted_at (spots.spots around node.now)) }
{
    if !node.mounts() {
        return Ok(());
    }
    add_own(node.mark(), around, found)?;
    add_in(node.children(), around.below(node.mark()), found)?;
    add_in(node.fallback(), around, found)
}

#[cycle(mounting)]
fn add_in(
    places: &[Option<Node>],
    around: Around,
    found: &mut Vec<Mounted>,
) -> Result<(), AllocError>
    ensures { OnOk result (found.new.items ≡ found.old.items ++ mounted_at (spots_in around (forest places.now))) }
{
    for place in places {
        if let Some(node) = place {
            add_from(node, around, found)?;
        }
    }
    Ok(())
}

/// The instances of a committed tree, in tree order: a parent before what is below it, siblings in order, and of a boundary
/// the primary before the fallback.
///
/// # Errors
///
/// Only if out of memory.
pub fn mounted(alloc: Global, tree: Option<&Node>) -> Result<Vec<Mounted>, AllocError>
    ensures { IfOk result (λ found. found.items ≡ spots.mounted (option_copied tree.entry)) }
{
    let mut found = Vec::new(alloc);
    if let Some(node) = tree {
        add_from(node, Around::at_root(), &mut found)?;
    }
    Ok(found)
}
