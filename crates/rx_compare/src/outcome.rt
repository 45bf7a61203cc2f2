// What becomes of a finished render.
ghost use Rattle.std.specs.Prelude.{◌≡◌, ◌∷◌, [], Option, None};
ghost use Rattle.rx_elem.specs.Trees.{Node};
ghost use Rattle.rx_elem.specs.Compare.{changes, compare_trees};
ghost use Rattle.rx_meaning.specs.Outcome.{old_state, hides_shown, outcome};
ghost use Rattle.rx_compare.specs.ComparedView.{change_seen};
ghost use Rattle.rx_compare.specs.Hidden.{hidden_after, outcome_seen};

use crate::change::Change;
use rx_base::Awaits;
use rx_lane::Lanes;
use rx_susp::{BoundaryState, would_hide};

/// What becomes of a finished render: it is committed, or deferred until what it waits for has a value.
#[derive(Clone, Copy, Debug, PartialEq, Eq)]
pub enum Outcome {
    Commit,
    Defer(Awaits),
}

impl<'a> Change<'a> {
    fn old_state(&self) -> Option<BoundaryState>
        ensures { result ≡ old_state (change_seen self.now) }
    {
        match self.old {
            Some(node) => node.mark().boundary(),
            None => None,
        }
    }

    // Whether it hides a boundary that was shown and visible.
    fn hides_shown(&self) -> bool
        ensures { result ≡ hides_shown (change_seen self.now) }
    {
        match self.new.mark().boundary() {
            Some(state) => would_hide(self.old_state().as_ref(), self.was_visible, &state),
            None => false,
        }
    }

    /// What the boundaries wait for that were shown and visible and are hidden, with that of this change.
    pub fn add_hidden(&self, hidden: Option<Awaits>) -> Option<Awaits>
        ensures { result ≡ hidden_after hidden (change_seen self.now ∷ []) }
    {
        if self.hides_shown() {
            let awaits = self.new.mark().awaits();
            return Some(hidden.unwrap_or(Awaits::none()).union(awaits));
        }
        hidden
    }
}

/// What becomes of a finished render with these lanes, by what the boundaries wait for that it hides, if it hides one: a transition
/// doesn't hide what is shown and visible, and is deferred until all that the boundaries wait for that it would hide has a value
/// (react.dev, useTransition). Takes no memory.
pub fn outcome_of(lanes: Lanes, hidden: Option<Awaits>) -> Outcome
    ensures { (old : Option Node) (new : Node) → hidden ≡ hidden_after None (changes (compare_trees old new)) → outcome_seen new result ≡ outcome lanes old new }
{
    let Some(awaits) = hidden else {
        return Outcome::Commit;
    };
    if lanes.only_transitions() {
        Outcome::Defer(awaits)
    } else {
        Outcome::Commit
    }
}
