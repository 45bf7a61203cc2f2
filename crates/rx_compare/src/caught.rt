// What error boundaries catch that had caught none.
ghost use Rattle.std.specs.Prelude.{◌≡◌};
ghost use Rattle.rx_elem.specs.Trees.{old_caught};
ghost use Rattle.rx_meaning.specs.Outcome.{caught_anew};
ghost use Rattle.rx_compare.specs.ComparedView.{change_seen};

use crate::change::Change;
use rx_base::Int;

impl<'a> Change<'a> {
    // What it had caught before.
    fn old_caught(&self) -> Option<Int>
        ensures { result ≡ old_caught (change_seen self.now).old }
    {
        match self.old {
            Some(node) => node.mark().caught(),
            None => None,
        }
    }

    /// What it catches, if it had caught nothing.
    pub fn caught_anew(&self) -> Option<Int>
        ensures { result ≡ caught_anew (change_seen self.now) }
    {
        match self.old_caught() {
            Some(_) => None,
            None => self.new.mark().caught(),
        }
    }
}
