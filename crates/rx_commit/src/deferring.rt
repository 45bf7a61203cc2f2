// What becomes of a finished render.
ghost use Rattle.std.specs.Prelude.{◌≡◌, Option, IfOk};
ghost use Rattle.rx_elem.specs.Trees.{Node};
ghost use Rattle.rx_meaning.specs.Outcome.{outcome};
ghost use Rattle.rx_pruned.specs.Besides.{IsBeside};
ghost use Rattle.end_laws.specs.Trimmed.{trimmed, trimmed_if};
ghost use Rattle.prune_laws.specs.Present.{IfHasNoNull};
ghost use Rattle.rx_commit.specs.Shown.{outcome_as};

use prune_laws::pruned_trees_compare_alike;
use rx_base::Awaits;
use rx_changes::changes_between;
use rx_compare::{Outcome, outcome_of};
use rx_lane::Lanes;
use rx_pruned::Beside;
use std::alloc::{AllocError, Global};

/// What becomes of a finished render with these lanes: `None` if it is committed, and else the resources that it waits for
/// (react.dev, useTransition). Only if all lanes are transitions may it be deferred, and only then are the trees compared.
///
/// # Errors
///
/// Only if out of memory.
pub fn deferral(alloc: Global, beside: &Beside, lanes: Lanes) -> Result<Option<Awaits>, AllocError>
    ensures { IfOk result (λ awaits. (old : Option Node) (new : Node) → IsBeside (trimmed_if old) (trimmed new) beside.now → IfHasNoNull old → outcome_as new awaits ≡ outcome lanes old new) }
{
    pruned_trees_compare_alike();
    if !lanes.only_transitions() {
        return Ok(None);
    }
    let pruned = beside.pruned_old.as_ref();
    let changes = changes_between(alloc, pruned, &beside.pruned_new)?;
    match outcome_of(lanes, changes.hidden) {
        Outcome::Commit => Ok(None),
        Outcome::Defer(awaits) => Ok(Some(awaits)),
    }
}
