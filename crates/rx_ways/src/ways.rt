// The instances at or above one with a cause.
ghost use Rattle.std.specs.Prelude.{◌≡◌, ℕ, true, false};
ghost use Rattle.rx_ways.specs.Ways.{is_way};

use crate::way_set::WaySet;
use std::alloc::Global;
use std::marker::Model;

/// The numbers of the instances that stand on a way: at or above one with queued updates or with work, or a hidden boundary
/// (React marks them by `childLanes`). If memory runs out for one of them, it is all instances.
#[derive(Drop)]
pub struct Ways {
    pub(crate) numbers: WaySet,
    pub(crate) all: bool,
}

impl Model for Ways {
    ghost use Rattle.rx_ways.specs.Ways as ways;

    ghost Value = { ways.Ways };

    ghost view = { λ w. record { numbers = w.numbers; all = w.all } };
}

impl Ways {
    /// No way.
    pub fn new(alloc: Global) -> Ways
        ensures { (n : ℕ) → is_way result n ≡ false }
    {
        Ways {
            numbers: WaySet::new(alloc),
            all: false,
        }
    }

    /// All instances: what a caller falls back to if ways cannot be told one by one.
    pub fn everything(alloc: Global) -> Ways
        ensures { (n : ℕ) → is_way result n ≡ true }
    {
        Ways {
            numbers: WaySet::new(alloc),
            all: true,
        }
    }

    /// Puts an instance on a way.
    pub fn add(&mut self, instance: u64)
        ensures here { is_way self.new instance ≡ true }
        ensures others { (n : ℕ) → is_way self.old n ≡ true → is_way self.new n ≡ true }
    {
        if self.numbers.add(instance).is_err() {
            self.all = true;
        }
    }

    /// Whether an instance stands on a way.
    pub fn has(&self, instance: u64) -> bool
        ensures { result ≡ is_way self.now instance }
    {
        self.all || self.numbers.has(instance)
    }
}
