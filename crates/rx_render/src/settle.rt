// The hooks of a finished tree, settled at its commit.
ghost use Rattle.std.specs.Prelude.{◌≡◌, ℕ, false, None, Some, OnErr, OnOk, slice_get};
ghost use Rattle.rx_elem.specs.Numbers.{numbered};
ghost use Rattle.rx_elem.specs.Spots.{Mounted, mounted};
ghost use Rattle.rx_elem.specs.Trees as trees;
ghost use Rattle.rx_meaning.specs.Settled.{DoneBefore};
ghost use Rattle.rx_model.specs.State.{Progress, State};
ghost use Rattle.rx_model.specs.Committing.{committed_state};
ghost use Rattle.rx_model.specs.HooksOf.{KeepsAllHooks};
ghost use Rattle.rx_hook_store.specs.Store.{kept_hooks};
ghost use Rattle.rx_pruned.specs.Besides.{IsBeside};
ghost use Rattle.rx_settle.specs.Passes.{has_instance};
ghost use Rattle.end_laws.specs.Trimmed.{trimmed, trimmed_if};
ghost use Rattle.rx_render.specs.Settling.{IsToSettle};

use rx_base::Cut;
use rx_check::Checked;
use rx_fiber::Fiber;
use rx_hook_store::HookStore;
use rx_lane::Lanes;
use rx_links::FiberTree;
use rx_pruned::Beside;
use rx_read::{read_current, read_in_progress};
use rx_settle::{settle_all, settle_hooks};
use std::alloc::{AllocError, Global};

// Settles the hooks of each instance of a finished tree, by the whole of it and of the current one.
fn settle_whole(
    alloc: Global,
    hooks: &mut HookStore,
    checked: &Checked,
    fibers: &FiberTree<Fiber>,
    first: u64,
    lanes: Lanes,
    cut: Cut,
) -> Result<(), AllocError>
    requires { (s : State) × (g : Progress) × (x : trees.Node) × IsToSettle checked.now fibers.now (kept_hooks hooks.old) first lanes cut s g x }
    ensures settled { OnOk result ((s : State) (g : Progress) (x : trees.Node) → IsToSettle checked.now fibers.now (kept_hooks hooks.old) first lanes cut s g x
        → KeepsAllHooks checked.now (committed_state s g (numbered s.numbers x)) (kept_hooks hooks.new)) }
    ensures gone { OnOk result ((s : State) (g : Progress) (x : trees.Node) (k : ℕ) (m : Mounted) → IsToSettle checked.now fibers.now (kept_hooks hooks.old) first lanes cut s g x
        → slice_get (mounted (trimmed_if s.tree)) k ≡ Some m → has_instance (mounted (Some (trimmed (numbered s.numbers x).1))) m.number ≡ false → kept_hooks hooks.new m.number ≡ None) }
    ensures err { OnErr result ((s : State) → DoneBefore cut s.journal.updates → KeepsAllHooks checked.now s (kept_hooks hooks.old)
        → KeepsAllHooks checked.now s (kept_hooks hooks.new)) }
{
    let old = read_current(alloc, fibers)?;
    let new = read_in_progress(alloc, fibers)?;
    settle_all(alloc, hooks, checked, old.as_ref(), &new, first, lanes, cut)
}

// Settles the hooks of each instance of a finished tree, by what is left of it and of the current one without what stayed the
// same; only if an instance with work is left out, it takes time for the whole of both.
pub(crate) fn settle_finished(
    alloc: Global,
    hooks: &mut HookStore,
    checked: &Checked,
    fibers: &FiberTree<Fiber>,
    beside: &Beside,
    first: u64,
    lanes: Lanes,
    cut: Cut,
) -> Result<(), AllocError>
    requires { (s : State) × (g : Progress) × (x : trees.Node)
        × (IsToSettle checked.now fibers.now (kept_hooks hooks.old) first lanes cut s g x × IsBeside (trimmed_if s.tree) (trimmed (numbered s.numbers x).1) beside.now) }
    ensures settled { OnOk result ((s : State) (g : Progress) (x : trees.Node) → IsToSettle checked.now fibers.now (kept_hooks hooks.old) first lanes cut s g x
        → IsBeside (trimmed_if s.tree) (trimmed (numbered s.numbers x).1) beside.now → KeepsAllHooks checked.now (committed_state s g (numbered s.numbers x)) (kept_hooks hooks.new)) }
    ensures gone { OnOk result ((s : State) (g : Progress) (x : trees.Node) (k : ℕ) (m : Mounted) → IsToSettle checked.now fibers.now (kept_hooks hooks.old) first lanes cut s g x
        → IsBeside (trimmed_if s.tree) (trimmed (numbered s.numbers x).1) beside.now → slice_get (mounted (trimmed_if s.tree)) k ≡ Some m
        → has_instance (mounted (Some (trimmed (numbered s.numbers x).1))) m.number ≡ false → kept_hooks hooks.new m.number ≡ None) }
    ensures err { OnErr result ((s : State) → DoneBefore cut s.journal.updates → KeepsAllHooks checked.now s (kept_hooks hooks.old)
        → KeepsAllHooks checked.now s (kept_hooks hooks.new)) }
{
    let pruned_old = beside.pruned_old.as_ref();
    let pruned_new = &beside.pruned_new;
    if settle_hooks(
        alloc, hooks, checked, pruned_old, pruned_new, first, lanes, cut,
    )? {
        return Ok(());
    }
    settle_whole(alloc, hooks, checked, fibers, first, lanes, cut)
}
