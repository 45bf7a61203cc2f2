// What a new tree changes.
ghost use Rattle.std.specs.Prelude.{◌≡◌};
ghost use Rattle.rx_changes.specs.ChangesView.{changes_seen, lines_seen};
ghost use Rattle.rx_changes.specs.Found.{nothing_found, no_lines};

use rx_base::{Awaits, Int};
use rx_effect::LogLine;
use std::alloc::Global;

/// The effects of one kind that a commit destroys and those that it creates; all of the first run before the others.
#[derive(Drop, Debug)]
pub struct Lines {
    pub destroyed: Vec<LogLine>,
    pub created: Vec<LogLine>,
}

impl Lines {
    /// No effects.
    pub fn new(alloc: Global) -> Lines
        ensures { lines_seen result ≡ no_lines }
    {
        Lines {
            destroyed: Vec::new(alloc),
            created: Vec::new(alloc),
        }
    }
}

/// What a new tree changes beside the old one (react.dev, Render and Commit).
#[derive(Drop, Debug)]
pub struct Changes {
    /// The layout effects.
    pub layout: Lines,
    /// The passive effects, which are left pending.
    pub passive: Lines,
    /// The hosts that are placed, in tree order: each that is new or moved, or that lies below such a node with no host between
    /// them.
    pub placed: Vec<u64>,
    /// What error boundaries catch that had caught none, in tree order.
    pub caught: Vec<Int>,
    /// What the boundaries wait for that were shown and visible and are hidden, if there is one.
    pub hidden: Option<Awaits>,
}

impl Changes {
    // Nothing that is changed.
    pub(crate) fn new(alloc: Global) -> Changes
        ensures { changes_seen result ≡ nothing_found }
    {
        Changes {
            layout: Lines::new(alloc),
            passive: Lines::new(alloc),
            placed: Vec::new(alloc),
            caught: Vec::new(alloc),
            hidden: None,
        }
    }
}
