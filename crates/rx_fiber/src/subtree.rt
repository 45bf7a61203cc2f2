// What is at or below a fiber.
ghost use Rattle.std.specs.Prelude.{◌≡◌};
ghost use Rattle.rx_fiber.specs.Fibers.{joined, nothing, own_subtree};
ghost use Rattle.rx_fiber.specs.FiberView.{stage_seen};

use crate::stage::Stage;
use rx_node::Mark;

/// What is at or below a fiber (React: `subtreeFlags`).
#[derive(Clone, Copy)]
pub struct Subtree {
    /// An instance reads a context.
    pub reads: bool,
    /// An instance reads a resource.
    pub uses: bool,
    /// A boundary is hidden.
    pub hides: bool,
    /// There is an instance.
    pub instances: bool,
}

impl Subtree {
    /// Nothing of all this.
    pub fn nothing() -> Subtree
        ensures { result ≡ nothing }
    {
        Subtree {
            reads: false,
            uses: false,
            hides: false,
            instances: false,
        }
    }

    /// What this one or the other one tells.
    pub fn join(self, other: Subtree) -> Subtree
        ensures { result ≡ joined self other }
    {
        Subtree {
            reads: self.reads | other.reads,
            uses: self.uses | other.uses,
            hides: self.hides | other.hides,
            instances: self.instances | other.instances,
        }
    }
}

// What a fiber of this stage tells of itself.
pub(crate) fn own_subtree(stage: &Stage) -> Subtree
    ensures { result ≡ own_subtree (stage_seen stage.now) }
{
    match stage {
        Stage::Begun(Mark::Instance(instance)) => Subtree {
            reads: !instance.parts.reads.is_empty(),
            uses: !instance.parts.versions.is_empty(),
            hides: false,
            instances: true,
        },
        Stage::Begun(Mark::Boundary(state)) => Subtree {
            reads: false,
            uses: false,
            hides: state.hides(),
            instances: false,
        },
        _ => Subtree::nothing(),
    }
}
