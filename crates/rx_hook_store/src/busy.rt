// Which instances may have queued updates.
ghost use Rattle.std.specs.Prelude.{◌≡◌, ◌&&◌, ℕ, true, false, nat_eq};
ghost use Rattle.rx_base.specs.declared.cut.Cut.{Cut};
ghost use Rattle.rx_hook_store.specs.Busy.{is_listed};
ghost use Rattle.rx_hook_store.specs.Working.{AreIdle};

use rx_base::Cut;
use rx_hooks::Hooks;
use rx_lane::Lanes;
use rx_queue::Work;
use rx_set::NumberSet;
use std::alloc::Global;

/// The numbers of the instances that may have queued updates. If memory runs out for one of them, it is all of them.
#[derive(Drop)]
pub(crate) struct Busy {
    pub(crate) numbers: NumberSet,
    pub(crate) all: bool,
}

// A cut behind every update.
const LAST: Cut = Cut {
    updates: u64::MAX,
    resolutions: u64::MAX,
};

// True if no render has work in the hooks: no update is open, and none is owed.
fn are_idle(hooks: &Hooks) -> bool
    ensures { result ≡ true → AreIdle hooks.now }
{
    hooks.pending_lanes().is_none() && hooks.work(Lanes::none(), LAST) == Work::Nothing
}

impl Busy {
    /// No instance.
    pub(crate) fn new(alloc: Global) -> Busy {
        Busy {
            numbers: NumberSet::new(alloc),
            all: false,
        }
    }

    /// Whether an instance is listed.
    pub(crate) fn lists(&self, instance: u64) -> bool
        ensures { result ≡ is_listed self.now instance }
    {
        self.all || self.numbers.has(instance)
    }

    /// Lists an instance.
    pub(crate) fn add(&mut self, instance: u64)
        ensures here { is_listed self.new instance ≡ true }
        ensures others { (n : ℕ) → is_listed self.old n ≡ true → is_listed self.new n ≡ true }
    {
        if self.numbers.add(instance).is_err() {
            self.all = true;
        }
    }

    /// Lists an instance no longer.
    pub(crate) fn remove(&mut self, instance: u64)
        ensures others { (n : ℕ) → nat_eq instance n ≡ false → is_listed self.old n ≡ true → is_listed self.new n ≡ true }
    {
        let _ = self.numbers.remove(instance);
    }

    /// Lists an instance with these hooks if a render may have work in them, and else no longer.
    pub(crate) fn note(&mut self, instance: u64, hooks: &Hooks)
        ensures here { is_listed self.new instance ≡ false → AreIdle hooks.now }
        ensures others { (n : ℕ) → nat_eq instance n ≡ false → is_listed self.old n ≡ true → is_listed self.new n ≡ true }
    {
        if are_idle(hooks) {
            self.remove(instance);
        } else {
            self.add(instance);
        }
    }
}
