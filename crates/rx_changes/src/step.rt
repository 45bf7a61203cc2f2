// A node of a new tree beside its past, as the walk goes over both.
ghost use Rattle.std.specs.Prelude.{◌≡◌, ◌&&◌, not, true};
ghost use Rattle.rx_elem.specs.Trees.{is_hidden, mark_of, was_hidden};
ghost use Rattle.rx_elem.specs.Compare.{above_children, above_fallback, above_root, change_of};
ghost use Rattle.rx_elem.specs.Spots.{Around, around_children, at_root};
ghost use Rattle.rx_compare.specs.ComparedView.{change_seen, past_seen};
ghost use Rattle.rx_changes.specs.StepView.{level_seen, step_seen};

use rx_compare as compare;
use rx_compare::{Change, Past};
use rx_node::Node;

// What a walk hands down to the nodes of a list: whether what is above them was visible, whether a node from there up to the host
// above is new or moved, and whether they log.
#[derive(Clone, Copy)]
pub(crate) struct Level {
    pub(crate) was_visible: bool,
    pub(crate) displaced: bool,
    pub(crate) logs: bool,
}

impl Level {
    // What the root is compared under.
    pub(crate) fn root() -> Level
        ensures above { level_seen at_root result ≡ above_root }
        ensures logs { result.logs ≡ true }
    {
        Level {
            was_visible: true,
            displaced: false,
            logs: true,
        }
    }
}

// A node of a new tree beside its past. What surrounds it doesn't matter to what is found.
#[derive(Drop)]
pub(crate) struct Step<'a> {
    // The old node that it is, if it is one.
    pub(crate) old: Option<&'a Node>,
    pub(crate) new: &'a Node,
    // The old node was visible.
    pub(crate) was_visible: bool,
    // A node from this one up to its host parent is new or moved.
    pub(crate) displaced: bool,
    // What it destroys and creates is logged.
    pub(crate) logs: bool,
}

impl<'a> Step<'a> {
    // A new node with its past.
    pub(crate) fn new(level: Level, past: Past<'a>, new: &'a Node) -> Step<'a>
        ensures is { (a : Around) → step_seen a result ≡ change_of (level_seen a level) (past_seen past.entry) new.now }
        ensures logs { result.logs ≡ level.logs }
    {
        Step {
            old: past.old,
            new,
            was_visible: level.was_visible && past.old.is_some(),
            displaced: level.displaced || past.old.is_none() || past.moved,
            logs: level.logs,
        }
    }

    // The same beside what surrounds the root.
    pub(crate) fn as_change(&self) -> Change<'a>
        ensures { change_seen result ≡ step_seen at_root self.now }
    {
        Change {
            old: self.old,
            new: self.new,
            was_visible: self.was_visible,
            around: compare::Around::root(),
            displaced: self.displaced,
        }
    }

    // Whether the old node was a hidden boundary.
    fn was_hidden(&self) -> bool
        ensures { result ≡ was_hidden (step_seen at_root self.now).old }
    {
        match self.old {
            Some(node) => node.mark().is_hidden(),
            None => false,
        }
    }

    // What it hands down to its children; a boundary to its primary. What a hidden boundary keeps logs nothing.
    pub(crate) fn level_below(&self) -> Level
        ensures is { (a : Around) → level_seen (around_children a (mark_of (step_seen a self.now).new)) result ≡ above_children (step_seen a self.now) }
        ensures logs { result.logs ≡ (self.now.logs && not (is_hidden (mark_of (step_seen at_root self.now).new))) }
    {
        let mark = self.new.mark();
        Level {
            was_visible: self.was_visible && !self.was_hidden(),
            displaced: !mark.is_host() && self.displaced,
            logs: self.logs && !mark.is_hidden(),
        }
    }

    // What a boundary hands down to its fallback.
    pub(crate) fn level_beside(&self) -> Level
        ensures is { (a : Around) → level_seen a result ≡ above_fallback (step_seen a self.now) }
        ensures logs { result.logs ≡ self.now.logs }
    {
        Level {
            was_visible: self.was_visible,
            displaced: self.displaced,
            logs: self.logs,
        }
    }
}
