// The hooks that a render processed.
ghost use Rattle.std.specs.Prelude.{◌≡◌, ◌<◌, ℕ, false, nat_eq, OnOk, IsSome, Some, slice_get};
ghost use Rattle.rx_elem.specs.Spots as spots;
ghost use Rattle.rx_hook_store.specs.Store.{kept_hooks};
ghost use Rattle.rx_settle.specs.Found.{seen};
ghost use Rattle.rx_settle.specs.Passes.{AreApart, AreKept, KeepsOn, RendersShown, has_instance};

use rx_base::Cut;
use rx_check::Checked;
use rx_eval::Evaluator;
use rx_hook_store::HookStore;
use rx_lane::Lanes;
use rx_spots::Mounted;
use std::alloc::{AllocError, Global};

// Renders the hooks of an instance, if it is visible and not new, and a render has work in them.
fn render_one(
    alloc: Global,
    store: &mut HookStore,
    checked: &Checked,
    instance: &Mounted,
    first: u64,
    lanes: Lanes,
    cut: Cut,
) -> Result<(), AllocError>
    requires { instance.now.number < first → IsSome (kept_hooks store.old instance.now.number) }
    ensures keeps { KeepsOn checked.now lanes cut (kept_hooks store.old) (kept_hooks store.new) }
    ensures rendered { OnOk result (RendersShown checked.now lanes cut first (kept_hooks store.old) (kept_hooks store.new) instance.now) }
    ensures others { (n : ℕ) → nat_eq instance.now.number n ≡ false → kept_hooks store.new n ≡ kept_hooks store.old n }
    ensures spare { store.new.spare ≡ store.old.spare }
{
    let number = instance.number();
    if number < first && instance.is_visible() && store.has_work(number, lanes, cut) {
        let fold = Evaluator::new(checked);
        let _values = store.render_values(alloc, number, &fold, lanes, cut)?;
    }
    Ok(())
}

/// Renders the hooks of each visible one of these instances again that is not new, one with a number below the first, if a render
/// has work in them. They were rendered for these lanes at this cut before; so this changes nothing that a render sees, and the
/// commit finds them rendered.
///
/// # Errors
///
/// Only if out of memory.
pub(crate) fn render_shown(
    alloc: Global,
    store: &mut HookStore,
    checked: &Checked,
    instances: &[&Mounted],
    first: u64,
    lanes: Lanes,
    cut: Cut,
) -> Result<(), AllocError>
    requires apart { AreApart (seen instances.now) }
    requires kept { AreKept first (kept_hooks store.old) (seen instances.now) }
    ensures keeps { KeepsOn checked.now lanes cut (kept_hooks store.old) (kept_hooks store.new) }
    ensures rendered { OnOk result ((k : ℕ) (m : spots.Mounted) → slice_get (seen instances.now) k ≡ Some m → RendersShown checked.now lanes cut first (kept_hooks store.old) (kept_hooks store.new) m) }
    ensures others { (n : ℕ) → has_instance (seen instances.now) n ≡ false → kept_hooks store.new n ≡ kept_hooks store.old n }
    ensures spare { store.new.spare ≡ store.old.spare }
{
    'rendering: for instance in instances {
        render_one(alloc, store, checked, *instance, first, lanes, cut)?;
    }
    Ok(())
}
