// What surrounds a place of a tree.
ghost use Rattle.std.specs.Prelude.{◌≡◌};
ghost use Rattle.rx_elem.specs.Spots.{around_children, at_root};
ghost use Rattle.rx_elem.specs.Trees.{of_boundary};
ghost use Rattle.rx_node.specs.MarkView.{mark_seen};

use rx_node::Mark;
use rx_susp::BoundaryState;
use std::marker::Model;

/// What surrounds a place of a tree: whether it lies outside of all kept primaries, the nearest instance above it, the
/// nearest host above it, and whether a kept primary lies between the place and that host.
#[derive(Clone, Copy)]
pub struct Around {
    visible: bool,
    owner: Option<u64>,
    host: u64,
    concealed: bool,
}

impl Model for Around {
    ghost use Rattle.rx_elem.specs.Spots as spots;

    ghost Value = { spots.Around };

    ghost view = { λ a. record { visible = a.visible; owner = a.owner; host = a.host; concealed = a.concealed } };

    ghost inverse = { λ a. record { visible = a.visible; owner = a.owner; host = a.host; concealed = a.concealed } };
}

impl Around {
    /// What surrounds the root.
    pub fn at_root() -> Around
        ensures { result ≡ at_root }
    {
        Around {
            visible: true,
            owner: None,
            host: 0,
            concealed: false,
        }
    }

    /// What surrounds the children of a node with this mark.
    pub fn below(self, mark: &Mark) -> Around
        ensures { result ≡ around_children self (mark_seen mark.now) }
    {
        match mark {
            Mark::Instance(instance) => Around {
                owner: instance.number,
                ..self
            },
            Mark::Host(Some(number)) => Around {
                host: *number,
                concealed: false,
                ..self
            },
            Mark::Boundary(state) => self.inside(state),
            _ => self,
        }
    }

    // What surrounds the children of a boundary in this state.
    fn inside(self, state: &BoundaryState) -> Around
        ensures { result ≡ around_children self (of_boundary state.now) }
    {
        match state {
            BoundaryState::Shown => self,
            BoundaryState::Hidden(_) => Around {
                visible: false,
                concealed: true,
                ..self
            },
        }
    }

    /// True if the place lies in no kept primary.
    pub fn is_visible(self) -> bool
        ensures { result ≡ self.visible }
    {
        self.visible
    }

    /// The nearest instance above.
    pub fn owner(self) -> Option<u64>
        ensures { result ≡ self.owner }
    {
        self.owner
    }

    /// The nearest host above; 0 is the container.
    pub fn host(self) -> u64
        ensures { result ≡ self.host }
    {
        self.host
    }

    /// True if a kept primary lies between the place and that host.
    pub fn is_concealed(self) -> bool
        ensures { result ≡ self.concealed }
    {
        self.concealed
    }
}
