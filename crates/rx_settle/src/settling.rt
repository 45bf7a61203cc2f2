// What a commit does with the hooks of the instances of its tree.
ghost use Rattle.std.specs.Prelude.{◌≡◌, ℕ, true, false, List, Option, IfOk, OnOk, OnErr, Some, None, slice_get};
ghost use Rattle.std.specs.Option.{option_copied};
ghost use Rattle.rx_elem.specs.Numbers.{numbered};
ghost use Rattle.rx_elem.specs.Spots as spots;
ghost use Rattle.rx_elem.specs.Trees as trees;
ghost use Rattle.rx_pruned.specs.Pruned.{ArePruned};
ghost use Rattle.rx_meaning.specs.Settled.{DoneBefore};
ghost use Rattle.rx_model.specs.State.{Progress, State};
ghost use Rattle.rx_model.specs.Committing.{committed_state};
ghost use Rattle.rx_model.specs.HooksOf.{KeepsAllHooks};
ghost use Rattle.rx_hook_store.specs.Store.{kept_hooks};
ghost use Rattle.rx_settle.specs.Found.{HasWorkElsewhere, HasWorking, seen};
ghost use Rattle.rx_settle.specs.Passes.{AreApart, AreKept, IsSettledOver, StayOld, has_instance};
ghost use Rattle.rx_settle.specs.Settling.{CanSettle, IsSettlingOf};

use crate::gone::gone_from;
use crate::keeping::{insert_all, remove_all, settle_each};
use crate::made::mount_new;
use crate::rendering::render_shown;
use crate::working::{take_known, working_of};
use rx_base::Cut;
use rx_check::Checked;
use rx_hook_store::HookStore;
use rx_lane::Lanes;
use rx_node::Node;
use rx_spots::{Mounted, have_same_instances, mounted, mounted_among, mounted_numbers};
use std::alloc::{AllocError, Global};

// Settles the hooks of the instances of a tree, of which those in whose hooks the render has work are found, and drops those of
// the instances of an old one that it has no longer.
fn settle_trees(
    alloc: Global,
    store: &mut HookStore,
    checked: &Checked,
    old: Option<&Node>,
    instances: &[Mounted],
    working: &[&Mounted],
    first: u64,
    lanes: Lanes,
    cut: Cut,
) -> Result<(), AllocError>
    requires apart { AreApart instances.now }
    requires kept { AreKept first (kept_hooks store.old) instances.now }
    requires working { HasWorking lanes cut (kept_hooks store.old) instances.now (seen working.now) }
    ensures settled { OnOk result (IsSettledOver checked.now lanes cut first (kept_hooks store.old) (kept_hooks store.new)
        (spots.mounted (option_copied old.entry)) instances.now) }
    ensures err { OnErr result ((s : State) → DoneBefore cut s.journal.updates → KeepsAllHooks checked.now s (kept_hooks store.old)
        → KeepsAllHooks checked.now s (kept_hooks store.new)) }
{
    let before = mounted_numbers(alloc, old)?;
    let gone = gone_from(alloc, &before, instances)?;
    let made = mount_new(alloc, instances, first)?;
    store.reserve(made.len() as u64)?;
    render_shown(alloc, store, checked, working, first, lanes, cut)?;
    settle_each(store, working, first, lanes, cut);
    insert_all(store, made);
    remove_all(store, &gone);
    Ok(())
}

// Settles the hooks of those instances in which the render has work, where none is new and none is gone.
fn settle_working(
    alloc: Global,
    store: &mut HookStore,
    checked: &Checked,
    working: &[&Mounted],
    first: u64,
    lanes: Lanes,
    cut: Cut,
) -> Result<(), AllocError>
    requires apart { AreApart (seen working.now) }
    requires kept { AreKept first (kept_hooks store.old) (seen working.now) }
    ensures settled { OnOk result ((before ms : List spots.Mounted) → AreApart ms → HasWorking lanes cut (kept_hooks store.old) ms (seen working.now) → StayOld first before ms
        → IsSettledOver checked.now lanes cut first (kept_hooks store.old) (kept_hooks store.new) before ms) }
    ensures err { OnErr result ((s : State) → DoneBefore cut s.journal.updates → KeepsAllHooks checked.now s (kept_hooks store.old)
        → KeepsAllHooks checked.now s (kept_hooks store.new)) }
{
    render_shown(alloc, store, checked, working, first, lanes, cut)?;
    settle_each(store, working, first, lanes, cut);
    Ok(())
}

// Settles the hooks of the instances of a tree, of which some may be new or gone, if no instance that the pruned trees leave out has
// work; else it changes nothing, and tells so.
fn settle_changed(
    alloc: Global,
    store: &mut HookStore,
    checked: &Checked,
    pruned_old: Option<&Node>,
    pruned_new: &Node,
    first: u64,
    lanes: Lanes,
    cut: Cut,
) -> Result<bool, AllocError>
    requires can { (old : Option trees.Node) × (new : trees.Node) × (CanSettle checked.now (kept_hooks store.old) old new first lanes cut × ArePruned old new (option_copied pruned_old) pruned_new.now) }
    ensures settled { IfOk result (λ done. done ≡ true → (old : Option trees.Node) (new : trees.Node) (s : State) (g : Progress) (x : trees.Node) → ArePruned old new (option_copied pruned_old.entry) pruned_new.now
        → IsSettlingOf checked.now (kept_hooks store.old) old new first lanes cut s g x → KeepsAllHooks checked.now (committed_state s g (numbered s.numbers x)) (kept_hooks store.new)) }
    ensures gone { IfOk result (λ done. done ≡ true → (old : Option trees.Node) (new : trees.Node) (k : ℕ) (m : spots.Mounted) → ArePruned old new (option_copied pruned_old.entry) pruned_new.now
        → CanSettle checked.now (kept_hooks store.old) old new first lanes cut → slice_get (spots.mounted old) k ≡ Some m → has_instance (spots.mounted (Some new)) m.number ≡ false → kept_hooks store.new m.number ≡ None) }
    ensures left { IfOk result (λ done. done ≡ false → kept_hooks store.new ≡ kept_hooks store.old) }
    ensures others { IfOk result (λ done. done ≡ false → HasWorkElsewhere lanes cut (kept_hooks store.old) (spots.mounted (Some pruned_new.now))) }
    ensures err { OnErr result ((s : State) → DoneBefore cut s.journal.updates → KeepsAllHooks checked.now s (kept_hooks store.old)
        → KeepsAllHooks checked.now s (kept_hooks store.new)) }
{
    let instances = mounted(alloc, Some(pruned_new))?;
    let (working, are_all) = working_of(alloc, store, &instances, lanes, cut)?;
    if !are_all {
        return Ok(false);
    }
    settle_trees(
        alloc, store, checked, pruned_old, &instances, &working, first, lanes, cut,
    )?;
    Ok(true)
}

/// Settles the hooks of each instance of a tree at its commit (react.dev, State as a Snapshot), read from the whole of it and of the
/// old one, and takes time in proportion to both. See `settle_hooks`, which needs less.
///
/// # Errors
///
/// Only if out of memory. What is kept then stands for whatever state it stood for.
pub fn settle_all(
    alloc: Global,
    store: &mut HookStore,
    checked: &Checked,
    old: Option<&Node>,
    new: &Node,
    first: u64,
    lanes: Lanes,
    cut: Cut,
) -> Result<(), AllocError>
    requires { CanSettle checked.now (kept_hooks store.old) (option_copied old) new.now first lanes cut }

    // What is kept stands for the machine's state after the commit.
    ensures settled { OnOk result ((s : State) (g : Progress) (x : trees.Node) → IsSettlingOf checked.now (kept_hooks store.old) (option_copied old.entry) new.now first lanes cut s g x
        → KeepsAllHooks checked.now (committed_state s g (numbered s.numbers x)) (kept_hooks store.new)) }
    ensures gone { OnOk result ((k : ℕ) (m : spots.Mounted) → slice_get (spots.mounted (option_copied old.entry)) k ≡ Some m
        → has_instance (spots.mounted (Some new.now)) m.number ≡ false → kept_hooks store.new m.number ≡ None) }
    ensures err { OnErr result ((s : State) → DoneBefore cut s.journal.updates → KeepsAllHooks checked.now s (kept_hooks store.old)
        → KeepsAllHooks checked.now s (kept_hooks store.new)) }
{
    let instances = mounted(alloc, Some(new))?;
    let (working, _) = working_of(alloc, store, &instances, lanes, cut)?;
    settle_trees(
        alloc, store, checked, old, &instances, &working, first, lanes, cut,
    )
}

/// Settles the hooks of each instance of a tree at its commit (react.dev, State as a Snapshot). Updates that its render
/// included are done in a visible instance; a kept one is owed them; a new instance, one with a number from the first on,
/// has its hooks at their initial values; and those of an instance that is gone are dropped (react.dev, Preserving and
/// Resetting State). The render keeps no note of what it folded, so the hooks of each visible instance in which it has work are
/// folded once more, for its lanes at its cut, and give the same.
///
/// It goes over the instances of the pruned trees alone: what is kept of the others stands as it is. If both have the same
/// instances, it goes over those alone in which the render has work. If an instance that they leave out has work, nothing is
/// settled, and the result is false: `settle_all` settles them then.
///
/// # Errors
///
/// Only if out of memory. What is kept then stands for whatever state it stood for.
pub fn settle_hooks(
    alloc: Global,
    store: &mut HookStore,
    checked: &Checked,
    pruned_old: Option<&Node>,
    pruned_new: &Node,
    first: u64,
    lanes: Lanes,
    cut: Cut,
) -> Result<bool, AllocError>
    requires can { (old : Option trees.Node) × (new : trees.Node) × (CanSettle checked.now (kept_hooks store.old) old new first lanes cut × ArePruned old new (option_copied pruned_old) pruned_new.now) }

    // What is kept stands for the machine's state after the commit.
    ensures settled { IfOk result (λ done. done ≡ true → (old : Option trees.Node) (new : trees.Node) (s : State) (g : Progress) (x : trees.Node) → ArePruned old new (option_copied pruned_old.entry) pruned_new.now
        → IsSettlingOf checked.now (kept_hooks store.old) old new first lanes cut s g x → KeepsAllHooks checked.now (committed_state s g (numbered s.numbers x)) (kept_hooks store.new)) }
    ensures gone { IfOk result (λ done. done ≡ true → (old : Option trees.Node) (new : trees.Node) (k : ℕ) (m : spots.Mounted) → ArePruned old new (option_copied pruned_old.entry) pruned_new.now
        → CanSettle checked.now (kept_hooks store.old) old new first lanes cut → slice_get (spots.mounted old) k ≡ Some m → has_instance (spots.mounted (Some new)) m.number ≡ false → kept_hooks store.new m.number ≡ None) }
    ensures left { IfOk result (λ done. done ≡ false → kept_hooks store.new ≡ kept_hooks store.old) }
    ensures others { IfOk result (λ done. done ≡ false → HasWorkElsewhere lanes cut (kept_hooks store.old) (spots.mounted (Some pruned_new.now))) }
    ensures err { OnErr result ((s : State) → DoneBefore cut s.journal.updates → KeepsAllHooks checked.now s (kept_hooks store.old)
        → KeepsAllHooks checked.now s (kept_hooks store.new)) }
{
    if have_same_instances(pruned_old, Some(pruned_new)) {
        let mut numbers = store.working(alloc, lanes, cut)?;
        let instances = mounted_among(alloc, Some(pruned_new), &numbers)?;
        let working = take_known(alloc, &mut numbers, &instances)?;
        if numbers.is_empty() {
            settle_working(alloc, store, checked, &working, first, lanes, cut)?;
            return Ok(true);
        }
    }
    settle_changed(
        alloc, store, checked, pruned_old, pruned_new, first, lanes, cut,
    )
}
