// The instances at or above a cause, found by a walk along hints over the current fibers.
ghost use Rattle.std.specs.Prelude.{◌≡◌, ◌||◌, ℕ, Option, true, IfOk, IfSome, OnOk, Some};
ghost use Rattle.rx_set.specs.Sets.{holds};
ghost use Rattle.commit_laws.specs.HiddenWaits.{IfNumbered};
ghost use Rattle.rx_elem.specs.Trees as trees;
ghost use Rattle.rx_lists.specs.Shapes.{Holds};
ghost use Rattle.rx_links.specs.Readers.{list_from};
ghost use Rattle.rx_meaning.specs.Settled.{HasOwnNumbers, is_numbered_so};
ghost use Rattle.rx_fiber.specs.FiberView.{stage_seen};
ghost use Rattle.rx_fiber.specs.Reading.{IsTreeOf};
ghost use Rattle.rx_fiber.specs.Subtrees.{IsGathered};
ghost use Rattle.rx_node.specs.MarkView.{mark_seen};
ghost use Rattle.rx_ways.specs.Leads.{is_cause, leads};
ghost use Rattle.rx_ways.specs.Walk.{finds_among, finds_first, hinted, is_cause_at, is_spared_at, number_at, puts_among, puts_first};
ghost use Rattle.rx_ways.specs.WaySets.{is_put};
ghost use Rattle.rx_ways.specs.Ways.{CoversIf, IsQuiet, is_way};

use crate::way_set::WaySet;
use crate::ways::Ways;
use rx_fiber::{Fiber, Stage};
use rx_links::{FiberId, FiberTree};
use rx_node::Mark;
use rx_set::NumberSet;
use std::alloc::{AllocError, Global};

// The number of the instance of a fiber.
fn number_at(stage: &Stage) -> Option<u64>
    ensures { result ≡ number_at (stage_seen stage.now) }
{
    match stage {
        Stage::Begun(mark) => mark.instance_number(),
        _ => None,
    }
}

// Whether a node is a cause by its mark.
fn is_cause(mark: &Mark, stirred: &NumberSet) -> bool
    ensures { result ≡ is_cause (holds stirred.now) (mark_seen mark.now) }
{
    if let Some(number) = mark.instance_number()
        && stirred.has(number)
    {
        return true;
    }
    mark.is_hidden()
}

// Whether a fiber is a cause by its mark; one that is not begun has none.
fn is_cause_at(stage: &Stage, stirred: &NumberSet) -> bool
    ensures { result ≡ is_cause_at (holds stirred.now) (stage_seen stage.now) }
{
    match stage {
        Stage::Begun(mark) => is_cause(mark, stirred),
        _ => false,
    }
}

// Whether a walk does not go into a fiber: no boundary there is hidden, and no instance is there, or no hint tells to.
fn is_spared(fiber: &Fiber, before: &Ways, sent: &Ways) -> bool
    ensures { result ≡ is_spared_at (hinted before.now sent.now) fiber.now }
{
    let below = fiber.subtree();
    if below.hides {
        return false;
    }
    if !below.instances {
        return true;
    }
    match number_at(fiber.stage()) {
        Some(number) => !(before.has(number) || sent.has(number)),
        None => false,
    }
}

// Puts the number of an instance on the ways.
fn put(stage: &Stage, ways: &mut WaySet) -> Result<(), AllocError>
    ensures { OnOk result ((n : ℕ) → is_put ways.new n ≡ is_put ways.old n || is_numbered_so n (number_at (stage_seen stage.now))) }
{
    if let Some(number) = number_at(stage) {
        ways.add(number)?;
    }
    Ok(())
}

// Puts the instances of a fiber and below on the ways that have a cause at them or below, and answers whether there is one.
#[cycle(walking)]
fn walk_from(
    tree: &FiberTree<Fiber>,
    id: FiberId,
    stirred: &NumberSet,
    before: &Ways,
    sent: &Ways,
    ways: &mut WaySet,
) -> Result<bool, AllocError>
    requires held { Holds tree.now.current id }
    ensures finds { IfOk result (λ found. found ≡ finds_first (hinted before.now sent.now) (holds stirred.now) (list_from tree.now.current (Some id))) }
    ensures puts { OnOk result ((n : ℕ) → is_put ways.new n ≡ is_put ways.old n || puts_first (hinted before.now sent.now) (holds stirred.now) n (list_from tree.now.current (Some id))) }
{
    tree.facts();
    let fiber = tree.value(id);
    if is_spared(fiber, before, sent) {
        return Ok(false);
    }
    let below = walk(tree, tree.first_child(id), stirred, before, sent, ways)?;
    let found = below || is_cause_at(fiber.stage(), stirred);
    if found {
        put(fiber.stage(), ways)?;
    }
    Ok(found)
}

// The same for a list of fibers.
#[cycle(walking)]
fn walk(
    tree: &FiberTree<Fiber>,
    first: Option<FiberId>,
    stirred: &NumberSet,
    before: &Ways,
    sent: &Ways,
    ways: &mut WaySet,
) -> Result<bool, AllocError>
    requires held { IfSome first (Holds tree.now.current) }
    ensures finds { IfOk result (λ found. found ≡ finds_among (hinted before.now sent.now) (holds stirred.now) (list_from tree.now.current first)) }
    ensures puts { OnOk result ((n : ℕ) → is_put ways.new n ≡ is_put ways.old n || puts_among (hinted before.now sent.now) (holds stirred.now) n (list_from tree.now.current first)) }
{
    tree.facts();
    let mut found = false;
    let mut next = first;
    'siblings: while let Some(id) = next {
        found |= walk_from(tree, id, stirred, before, sent, ways)?;
        next = tree.next_sibling(id);
    }
    Ok(found)
}

// The instances of the current fibers that have a cause at them or below, if the walk goes along these hints.
fn walk_along(
    alloc: Global,
    tree: &FiberTree<Fiber>,
    stirred: &NumberSet,
    before: &Ways,
    sent: &Ways,
) -> Result<WaySet, AllocError>
    ensures { IfOk result (λ ways. (n : ℕ) → is_put ways n ≡ puts_among (hinted before.now sent.now) (holds stirred.now) n tree.now.current) }
{
    tree.facts();
    let mut ways = WaySet::new(alloc);
    walk(tree, tree.current(), stirred, before, sent, &mut ways)?;
    Ok(ways)
}

/// The instances of the committed tree, by its current fibers, at or above one that stirs, or a hidden boundary. Those stir that a
/// caller looks for: that may have queued updates, or that have work for a render. The walk goes into what these hints tell, and
/// into what hides a boundary; React goes by `childLanes` so. A fiber that keeps that neither an instance nor a hidden boundary is
/// at or below it is passed (React: `subtreeFlags`). The hints are not trusted: if it has not found each instance that stirs,
/// it is taken once more over all instances. Numbers occur at most once in a tree, so that if it has, it passed none by.
///
/// # Errors
///
/// Only if out of memory.
pub fn find_ways(
    alloc: Global,
    tree: &FiberTree<Fiber>,
    stirred: &NumberSet,
    before: &Ways,
    sent: &Ways,
) -> Result<Ways, AllocError>
    requires gathered { IsGathered tree.now.current }

    // Below each instance on no way all is quiet, in each tree that the fibers stand for, whose instances have numbers of their own.
    ensures covers { IfOk result (λ w. (x : Option trees.Node) (next : ℕ) → IsTreeOf x tree.now.current → IfNumbered x → HasOwnNumbers next x
        → CoversIf (is_way w) (IsQuiet (holds stirred.now)) x) }
    ensures exact { IfOk result (λ w. (x : Option trees.Node) (n : ℕ) → IsTreeOf x tree.now.current → is_way w n ≡ true → leads (holds stirred.now) n x ≡ true) }
{
    let mut numbers = walk_along(alloc, tree, stirred, before, sent)?;
    if !numbers.has_all(stirred.members()) {
        let everything = Ways::everything(alloc);
        numbers = walk_along(alloc, tree, stirred, &everything, &everything)?;
    }
    Ok(Ways {
        numbers,
        all: false,
    })
}
