// The finished tree beside the tree before.
ghost use Rattle.std.specs.Prelude.{false, Some, Option, IfOk};
ghost use Rattle.rx_elem.specs.Trees as trees;
ghost use Rattle.rx_links.specs.Drafts.{Makes, grafted};
ghost use Rattle.rx_fiber.specs.Reading.{IsTreeOf};
ghost use Rattle.end_laws.specs.Trimmed.{trimmed, trimmed_if};
ghost use Rattle.rx_pruned.specs.Besides.{IsBeside};
ghost use Rattle.rx_beside.specs.Alike.{AllTakeAlike};
ghost use Rattle.rx_beside.specs.Children.{IsNode};
ghost use Rattle.rx_beside.specs.Pairs.{IsPruned};

use crate::lists::{PrunedNodes, read_both, read_node};
use crate::pairs::read_kept;
use crate::places::{Pair, is_made_for};
use rx_fiber::Fiber;
use rx_links::FiberTree;
use rx_pruned::Beside;
use rx_set::NumberSet;
use std::alloc::{AllocError, Global};

// The root beside that of the tree before.
fn read_roots(
    alloc: Global,
    tree: &FiberTree<Fiber>,
    roots: &Pair,
    working: &NumberSet,
) -> Result<PrunedNodes, AllocError>
    requires made { Makes tree.now.draft roots.now.new }
    requires was { IsNode tree.now roots.now.old }
    requires is { IsNode tree.now roots.now.new }
    requires alike { AllTakeAlike tree.now.current tree.now.draft }
    ensures { IfOk result (λ p. IsPruned tree.now false roots.now p.old p.new) }
{
    if is_made_for(tree, roots) {
        return read_kept(alloc, tree, roots, false, working);
    }
    let both = read_both(alloc, tree, roots)?;
    Ok(both)
}

/// The current tree and the one in progress, once all of that is rendered, both without lists of children that were taken over,
/// and without children that stay as they are, where all of a list stand in place: those that took their children over, and those
/// that were made anew and came out the same with all below them, but for the instances with these numbers, in whose hooks this
/// render has work: a commit looks for them among what it compares. An instance that stays, was not rendered anew and has no effects
/// is left out too where it is an only child over an only child: a commit has nothing to do for it. Both are read from fibers, each
/// made one beside its alternate; so the time is in proportion to the fibers that were made, to the lists that they stand in, to
/// their elements where they may have come out the same, and to what is gone, and no node is made of what is left out.
///
/// # Errors
///
/// Only if out of memory.
pub fn read_beside(
    alloc: Global,
    tree: &FiberTree<Fiber>,
    working: &NumberSet,
) -> Result<Beside, AllocError>
    requires finished { (x : trees.Node) × IsTreeOf (Some x) (grafted tree.now.draft) }
    requires current { (y : Option trees.Node) × IsTreeOf y tree.now.current }
    requires alike { AllTakeAlike tree.now.current tree.now.draft }
    ensures { IfOk result (λ b. (y : Option trees.Node) (x : trees.Node) → IsTreeOf y tree.now.current → IsTreeOf (Some x) (grafted tree.now.draft) → IsBeside (trimmed_if y) (trimmed x) b) }
{
    tree.facts();
    let Some(new) = tree.in_progress() else {
        unreachable!()
    };
    let Some(old) = tree.current() else {
        return Ok(Beside {
            pruned_old: None,
            pruned_new: read_node(alloc, tree, new)?,
        });
    };
    let roots = read_roots(alloc, tree, &Pair { old, new }, working)?;
    Ok(Beside {
        pruned_old: Some(roots.old),
        pruned_new: roots.new,
    })
}
