// The instances of a tree whose numbers are asked for.
ghost use Rattle.std.specs.Prelude.{◌≡◌, ◌++◌, [], IfOk, OnOk, option_and_then};
ghost use Rattle.std.specs.List.{cons_option};
ghost use Rattle.std.specs.Option.{option_copied};
ghost use Rattle.rx_elem.specs.Spots as spots;
ghost use Rattle.rx_elem.specs.Spots.{mounted_as, mounted_at, spots_in};
ghost use Rattle.rx_elem.specs.Trees.{forest, instance_in};
ghost use Rattle.rx_node.specs.MarkView.{mark_seen};
ghost use Rattle.rx_set.specs.Sets.{holds};
ghost use Rattle.rx_spots.specs.Places.{among};

use crate::instance::Mounted;
use rx_node::{Mark, Node};
use rx_set::NumberSet;
use rx_susp::BoundaryState;
use std::alloc::{AllocError, Global};

// Adds the instance of a node with this mark, if it is one whose number is asked for.
fn pick_own(
    mark: &Mark,
    owner: Option<u64>,
    visible: bool,
    asked: &NumberSet,
    found: &mut Vec<Mounted>,
) -> Result<(), AllocError>
    ensures { OnOk result ((a : spots.Around) → a.owner ≡ owner → a.visible ≡ visible
        → found.new.items ≡ found.old.items ++ among (holds asked.now) (cons_option (option_and_then (mounted_as a) (instance_in (mark_seen mark.now))) [])) }
{
    if let Mark::Instance(instance) = mark {
        if let Some(number) = instance.number {
            if asked.has(number) {
                found.push(Mounted::below(instance, number, owner, visible)?)?;
            }
        }
    }
    Ok(())
}

// The nearest instance above the children of a node with this mark.
fn owner_below(mark: &Mark, owner: Option<u64>) -> Option<u64>
    ensures { (a : spots.Around) → a.owner ≡ owner → (spots.around_children a (mark_seen mark.now)).owner ≡ result }
{
    match mark {
        Mark::Instance(instance) => instance.number,
        _ => owner,
    }
}

// Whether the children of a node with this mark are visible, if the node is or not.
fn visible_below(mark: &Mark, visible: bool) -> bool
    ensures { (a : spots.Around) → a.visible ≡ visible → (spots.around_children a (mark_seen mark.now)).visible ≡ result }
{
    match mark {
        Mark::Boundary(BoundaryState::Hidden(_)) => false,
        _ => visible,
    }
}

// Adds those of a node and below. Where there are no instances no walk is taken.
#[cycle(picking)]
fn pick_from(
    node: &Node,
    owner: Option<u64>,
    visible: bool,
    asked: &NumberSet,
    found: &mut Vec<Mounted>,
) -> Result<(), AllocError>
    ensures { OnOk result ((a : spots.Around) → a.owner ≡ owner → a.visible ≡ visible
        → found.new.items ≡ found.old.items ++ among (holds asked.now) (mounted_at (spots.spots a node.now))) }
{
    if !node.mounts() {
        return Ok(());
    }
    let mark = node.mark();
    pick_own(mark, owner, visible, asked, found)?;
    pick_in(
        node.children(),
        owner_below(mark, owner),
        visible_below(mark, visible),
        asked,
        found,
    )?;
    pick_in(node.fallback(), owner, visible, asked, found)
}

#[cycle(picking)]
fn pick_in(
    places: &[Option<Node>],
    owner: Option<u64>,
    visible: bool,
    asked: &NumberSet,
    found: &mut Vec<Mounted>,
) -> Result<(), AllocError>
    ensures { OnOk result ((a : spots.Around) → a.owner ≡ owner → a.visible ≡ visible
        → found.new.items ≡ found.old.items ++ among (holds asked.now) (mounted_at (spots_in a (forest places.now)))) }
{
    for place in places {
        if let Some(node) = place {
            pick_from(node, owner, visible, asked, found)?;
        }
    }
    Ok(())
}

/// The instances of a committed tree whose numbers are in a set, in tree order.
///
/// # Errors
///
/// Only if out of memory.
pub fn mounted_among(
    alloc: Global,
    tree: Option<&Node>,
    numbers: &NumberSet,
) -> Result<Vec<Mounted>, AllocError>
    ensures { IfOk result (λ found. found.items ≡ among (holds numbers.now) (spots.mounted (option_copied tree.entry))) }
{
    let mut found = Vec::new(alloc);
    if let Some(node) = tree {
        pick_from(node, None, true, numbers, &mut found)?;
    }
    Ok(found)
}
