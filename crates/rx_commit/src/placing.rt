// Which hosts tell where a commit places others.
ghost use Rattle.std.specs.Prelude.{◌≡◌, Option, Some, IfOk};
ghost use Rattle.rx_elem.specs.Compare.{changes, compare_trees};
ghost use Rattle.rx_elem.specs.Trees.{Node};
ghost use Rattle.rx_forest.specs.Hosts.{hosts};
ghost use Rattle.rx_forest.specs.HostOps.{placed_hosts};
ghost use Rattle.rx_pruned.specs.Besides.{IsBeside};
ghost use Rattle.rx_pruned.specs.declared.beside.Beside.{Beside};
ghost use Rattle.rx_set.specs.Sets.{holds};
ghost use Rattle.end_laws.specs.Trimmed.{trimmed, trimmed_if};
ghost use Rattle.host_laws.specs.Commits.{IsSound};
ghost use Rattle.host_laws.specs.Siblings.{HasPlacedParents};

use prune_laws::placed_hosts_are_left;
use rx_host_ops::{Host, placed_parents};
use rx_set::NumberSet;
use std::alloc::{AllocError, Global};

/// The parents of the hosts that a commit places: what it compares without what stayed has each of them, so they are found among
/// the hosts of the new tree that are left. The hosts with these parents tell where the placed ones go.
///
/// # Errors
///
/// Only if out of memory.
pub fn parents_of_placed(
    alloc: Global,
    left: &[Host],
    placed: &[u64],
) -> Result<NumberSet, AllocError>
    ensures { IfOk result (λ parents. (old : Option Node) (new : Node) (beside : Beside) → left.now ≡ hosts (Some beside.pruned_new) → placed.now ≡ placed_hosts (changes (compare_trees beside.pruned_old beside.pruned_new))
        → IsBeside (trimmed_if old) (trimmed new) beside → IsSound new → HasPlacedParents placed.now (holds parents) (hosts (Some new))) }
{
    placed_hosts_are_left();
    placed_parents(alloc, left, placed)
}
