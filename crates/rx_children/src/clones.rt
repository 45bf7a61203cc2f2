// Clones of the fibers of a current list.
ghost use Rattle.std.specs.Prelude.{◌≡◌, ◌+◌, Some, IfOk, IfSome, OnOk};
ghost use Rattle.rx_lists.specs.Shapes.{Holds};
ghost use Rattle.rx_links.specs.Readers.{list_from};
ghost use Rattle.rx_fiber.specs.Fibers.{as_cloned};
ghost use Rattle.rx_fiber.specs.OldLists.{old_elements, old_fibers};
ghost use Rattle.rx_children.specs.Children.{HasMadeFrom};
ghost use Rattle.rx_children.specs.Clones.{CanStandBehind, HasGoneOn, put_behind};
ghost use Rattle.rx_children.specs.Nodes.{IsBareBeside};

use rx_fiber::{Fiber, Origin, Stage, is_fallback};
use rx_links::{FiberId, FiberTree};
use std::alloc::AllocError;

// How far a list is cloned: the clone made last, if there is one, and the place that comes next.
#[derive(Clone, Copy)]
struct Progress {
    last: Option<FiberId>,
    place: u32,
}

// The place behind one, if a list has it.
fn place_behind(place: u32) -> Result<u32, AllocError>
    ensures { IfOk result (λ n. n ≡ place + 1) }
{
    match place.checked_add(1) {
        Some(behind) => Ok(behind),
        None => Err(AllocError),
    }
}

// Makes a child for a current fiber right behind the one made last, or the first child if there is none.
#[inline(always)]
fn child_behind(
    tree: &mut FiberTree<Fiber>,
    at: FiberId,
    last: Option<FiberId>,
    old: FiberId,
    value: Fiber,
) -> Result<FiberId, AllocError>
    requires { CanStandBehind tree.old at last old }
    ensures put { IfOk result (λ id. tree.new ≡ record tree.old { draft = put_behind last at id value (Some old) tree.old.draft }) }
    ensures current { tree.new.current ≡ tree.old.current }
{
    match last {
        Some(sibling) => tree.child_behind(sibling, Some(old), value),
        None => tree.child(at, Some(old), value),
    }
}

// Goes on with a current fiber: its clone is made behind the one made last, with a copy of its element. That of a fallback stands in
// no place, and `null` has no clone.
#[inline(always)]
fn clone_next(
    tree: &mut FiberTree<Fiber>,
    at: FiberId,
    id: FiberId,
    so_far: Progress,
    visible: bool,
) -> Result<Progress, AllocError>
    requires held { Holds tree.old.current id }
    requires stands { CanStandBehind tree.old at so_far.last id }
    ensures gone { IfOk result (λ r. HasGoneOn visible tree.old tree.new at id so_far.last so_far.place r.last r.place) }
    ensures current { tree.new.current ≡ tree.old.current }
{
    let old = tree.value(id);
    if is_fallback(old.stage()) {
        return Ok(so_far);
    }
    let place = so_far.place.max(old.place());
    let behind = place_behind(place)?;
    let element = old.element();
    if !element.is_present() {
        return Ok(Progress {
            last: so_far.last,
            place: behind,
        });
    }
    let origin = Origin {
        cloned: true,
        visible,
        generation: 0,
    };
    let fiber = Fiber::new(place, element.copy()?, Stage::Waiting(origin));
    let new = child_behind(tree, at, so_far.last, id, fiber)?;
    Ok(Progress {
        last: Some(new),
        place: behind,
    })
}

/// Makes clones of the children of a current list below a made fiber that has none: each for its old fiber, at its place and with
/// its element, so that nothing is matched. They are made from the first to the last, in one walk along the list. `visible` tells
/// whether the old ones are shown.
///
/// # Errors
///
/// Only if out of memory, or more children than a list has places. What was made then stays below the fiber.
#[inline(always)]
pub fn clone_children(
    tree: &mut FiberTree<Fiber>,
    at: FiberId,
    first_old: Option<FiberId>,
    visible: bool,
) -> Result<(), AllocError>
    requires held { IfSome first_old (Holds tree.old.current) }
    requires beside { IsBareBeside tree.old at first_old }
    ensures made { OnOk result (HasMadeFrom (as_cloned visible) 0 tree.old tree.new at (old_elements (list_from tree.old.current first_old)) (old_fibers (list_from tree.old.current first_old))) }
    ensures current { tree.new.current ≡ tree.old.current }
{
    tree.facts();
    let mut so_far = Progress {
        last: None,
        place: 0,
    };
    let mut next = first_old;
    'cloning: while let Some(id) = next {
        tree.place_facts();
        so_far = clone_next(tree, at, id, so_far, visible)?;
        next = tree.next_sibling(id);
    }
    Ok(())
}
