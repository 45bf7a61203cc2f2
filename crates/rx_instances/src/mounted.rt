// The instances of the current fibers.
ghost use Rattle.std.specs.Prelude.{◌≡◌, ◌++◌, IfOk, IfSome, OnOk, Option};
ghost use Rattle.rx_elem.specs.Spots as spots;
ghost use Rattle.rx_elem.specs.Trees as trees;
ghost use Rattle.rx_lists.specs.Shapes.{Holds};
ghost use Rattle.rx_links.specs.Readers.{list_from};
ghost use Rattle.rx_fiber.specs.OldLists.{begins_fallback};
ghost use Rattle.rx_fiber.specs.Reading.{IsTreeOf};
ghost use Rattle.rx_fiber.specs.Subtrees.{IsGathered};
ghost use Rattle.rx_instances.specs.NearFibers.{instance_at};
ghost use Rattle.rx_instances.specs.MountedFibers.{around_kids, mounted_first, mounted_from, own_mounted};

use crate::find::instance_of;
use rx_fiber::{Fiber, Stage, is_fallback};
use rx_links::{FiberId, FiberTree};
use rx_spots::{Around, Mounted};
use std::alloc::{AllocError, Global};

/// Whether the fiber of a boundary's fallback stands right behind its own, where this one does: then it keeps its children.
pub(crate) fn keeps(tree: &FiberTree<Fiber>, behind: Option<FiberId>) -> bool
    requires { IfSome behind (Holds tree.now.current) }
    ensures { result ≡ begins_fallback (list_from tree.now.current behind) }
{
    tree.facts();
    match behind {
        Some(id) => is_fallback(tree.value(id).stage()),
        None => false,
    }
}

// What surrounds the children of a fiber.
fn around_kids(fiber: &Fiber, around: Around, keeps: bool) -> Around
    ensures { result ≡ around_kids around fiber.now.stage keeps }
{
    match fiber.stage() {
        Stage::Begun(mark) => {
            if mark.is_hidden() && !keeps {
                around
            } else {
                around.below(mark)
            }
        }
        Stage::Waiting(_) | Stage::Trying(_) | Stage::Guarding | Stage::Fallback(_) => around,
    }
}

// Adds the instance of a fiber, if it is of one and has a number.
fn add_own(fiber: &Fiber, around: Around, found: &mut Vec<Mounted>) -> Result<(), AllocError>
    ensures { OnOk result (found.new.items ≡ found.old.items ++ own_mounted around (instance_at fiber.now.stage)) }
{
    if let Some(instance) = instance_of(fiber) {
        if let Some(number) = instance.number {
            found.push(Mounted::new(instance, number, around)?)?;
        }
    }
    Ok(())
}

// Adds the instances of a fiber and below. It is passed if there are none.
#[cycle(mounting)]
fn add_from(
    tree: &FiberTree<Fiber>,
    id: FiberId,
    around: Around,
    found: &mut Vec<Mounted>,
) -> Result<(), AllocError>
    requires held { Holds tree.now.current id }
    requires gathered { IsGathered tree.now.current }
    ensures { OnOk result (found.new.items ≡ found.old.items ++ mounted_first around (list_from tree.now.current (Some id))) }
{
    tree.facts();
    let fiber = tree.value(id);
    if !fiber.subtree().instances {
        return Ok(());
    }
    add_own(fiber, around, found)?;
    let inside = around_kids(fiber, around, keeps(tree, tree.next_sibling(id)));
    add_in(tree, tree.first_child(id), inside, found)
}

// Adds the instances of a list of fibers.
#[cycle(mounting)]
fn add_in(
    tree: &FiberTree<Fiber>,
    first: Option<FiberId>,
    around: Around,
    found: &mut Vec<Mounted>,
) -> Result<(), AllocError>
    requires held { IfSome first (Holds tree.now.current) }
    requires gathered { IsGathered tree.now.current }
    ensures { OnOk result (found.new.items ≡ found.old.items ++ mounted_from around (list_from tree.now.current first)) }
{
    tree.facts();
    let mut next = first;
    'siblings: while let Some(id) = next {
        add_from(tree, id, around, found)?;
        next = tree.next_sibling(id);
    }
    Ok(())
}

/// The instances of the committed tree, in tree order, read from the current fibers: a parent before what is below it, siblings
/// in order, and of a boundary the primary before the fallback. Fibers that have no instance at or below them are passed.
///
/// # Errors
///
/// Only if out of memory.
pub(crate) fn read_mounted(
    alloc: Global,
    tree: &FiberTree<Fiber>,
) -> Result<Vec<Mounted>, AllocError>
    requires gathered { IsGathered tree.now.current }
    ensures { IfOk result (λ found. (y : Option trees.Node) → IsTreeOf y tree.now.current → found.items ≡ spots.mounted y) }
{
    tree.facts();
    let mut found = Vec::new(alloc);
    add_in(tree, tree.current(), Around::at_root(), &mut found)?;
    Ok(found)
}
