// What surrounds a place of a tree.
ghost use Rattle.std.specs.Prelude.{◌≡◌};
ghost use Rattle.rx_elem.specs.Spots.{at_root, around_children};
ghost use Rattle.rx_node.specs.MarkView.{mark_seen};
ghost use Rattle.rx_compare.specs.ComparedView.{around_seen};

use rx_node::Mark;
use rx_susp::BoundaryState;

/// What surrounds a place of a tree: whether it lies in no kept primary; the number of the nearest instance above; the number
/// of the nearest host above, which is 0 for the container; and whether a kept primary lies between the place and that host.
#[derive(Clone, Copy, Debug)]
pub struct Around {
    pub visible: bool,
    pub owner: Option<u64>,
    pub host: u64,
    pub concealed: bool,
}

impl Around {
    /// What surrounds the root.
    pub fn root() -> Around
        ensures { around_seen result ≡ at_root }
    {
        Around {
            visible: true,
            owner: None,
            host: 0,
            concealed: false,
        }
    }

    /// What surrounds the children of a node with this mark; of a boundary, its primary.
    pub fn around_children(self, mark: &Mark) -> Around
        ensures { around_seen result ≡ around_children (around_seen self) (mark_seen mark.now) }
    {
        match mark {
            Mark::Instance(instance) => Around {
                owner: instance.number,
                ..self
            },
            Mark::Host(Some(number)) => Around {
                host: *number,
                concealed: false,
                ..self
            },
            Mark::Boundary(BoundaryState::Hidden(_)) => Around {
                visible: false,
                concealed: true,
                ..self
            },
            Mark::Host(None)
            | Mark::Boundary(BoundaryState::Shown)
            | Mark::Catch(_)
            | Mark::Plain => self,
        }
    }
}
