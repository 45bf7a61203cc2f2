// What a commit does with the hooks that are kept.
ghost use Rattle.std.specs.Prelude.{◌≡◌, ◌<◌, ◌≤◌, ℕ, false, cond, nat_eq, IsSome, Some, None, length, slice_get};
ghost use Rattle.std.specs.List.{list_any};
ghost use Rattle.rx_elem.specs.Spots as spots;
ghost use Rattle.rx_hook_store.specs.Store.{kept_hooks};
ghost use Rattle.rx_settle.specs.Found.{seen};
ghost use Rattle.rx_settle.specs.Made.{kept_with};
ghost use Rattle.rx_settle.specs.Passes.{AreApart, AreKept, AreSettled, has_instance};

use crate::made::NewHooks;
use rx_base::Cut;
use rx_hook_store::HookStore;
use rx_lane::Lanes;
use rx_spots::Mounted;

// Settles the hooks of an instance, if it is not new and the render has work in them.
fn settle_one(store: &mut HookStore, instance: &Mounted, first: u64, lanes: Lanes, cut: Cut)
    requires { instance.now.number < first → IsSome (kept_hooks store.old instance.now.number) }
    ensures settled { AreSettled lanes cut first (kept_hooks store.old) (kept_hooks store.new) instance.now }
    ensures others { (n : ℕ) → nat_eq instance.now.number n ≡ false → kept_hooks store.new n ≡ kept_hooks store.old n }
    ensures spare { store.new.spare ≡ store.old.spare }
{
    let number = instance.number();
    if number < first && store.has_work(number, lanes, cut) {
        if instance.is_visible() {
            store.commit_instance(number);
        } else {
            store.owe_instance(number, lanes, cut);
        }
    }
}

/// Settles the hooks of each of these instances that is not new. If it is visible, it was rendered before.
pub(crate) fn settle_each(
    store: &mut HookStore,
    instances: &[&Mounted],
    first: u64,
    lanes: Lanes,
    cut: Cut,
)
    requires apart { AreApart (seen instances.now) }
    requires kept { AreKept first (kept_hooks store.old) (seen instances.now) }
    ensures settled { (k : ℕ) (m : spots.Mounted) → slice_get (seen instances.now) k ≡ Some m → AreSettled lanes cut first (kept_hooks store.old) (kept_hooks store.new) m }
    ensures others { (n : ℕ) → has_instance (seen instances.now) n ≡ false → kept_hooks store.new n ≡ kept_hooks store.old n }
    ensures spare { store.new.spare ≡ store.old.spare }
{
    'settling: for instance in instances {
        settle_one(store, *instance, first, lanes, cut);
    }
}

/// Keeps the hooks of new instances.
pub(crate) fn insert_all(store: &mut HookStore, mut made: Vec<NewHooks>)
    requires { length made.items ≤ store.old.spare }
    ensures { (n : ℕ) → kept_hooks store.new n ≡ kept_with made.items (kept_hooks store.old) n }
{
    'inserting: while let Some(new) = made.pop() {
        store.insert(new.number, new.hooks);
    }
}

/// Drops the hooks of the instances with these numbers.
pub(crate) fn remove_all(store: &mut HookStore, gone: &[u64])
    ensures { (n : ℕ) → kept_hooks store.new n ≡ cond (list_any (nat_eq n) gone.now) None (kept_hooks store.old n) }
{
    'removing: for number in gone {
        store.remove(*number);
    }
}
