// How far a fiber has come.
ghost use Rattle.std.specs.Prelude.{◌≡◌};
ghost use Rattle.rx_fiber.specs.Fibers.{completed_stage, numbered_stage};
ghost use Rattle.rx_fiber.specs.FiberView.{stage_seen};

use crate::subtree::Subtree;
use rx_base::{Awaits, Int};
use rx_catch::CatchState;
use rx_node::Mark;
use rx_susp::BoundaryState;

/// What is known of a fiber beside the current one for which it was made, when it is made.
#[derive(Clone, Copy)]
pub struct Origin {
    /// It is cloned: its element is that of the current fiber, so that nothing above asks for another.
    pub cloned: bool,
    /// The current fiber, if it was made for one, is shown, and stands below providers of the same contexts.
    pub visible: bool,
    /// The generation of its element: 0 if that is of the current tree, else at least 1 and one more with each body that
    /// made it from one of these.
    pub generation: u32,
}

/// How far a fiber has come in the render that made it.
#[derive(Drop)]
pub enum Stage {
    /// It is made for a place that the render has not come to.
    Waiting(Origin),
    /// It is begun: a node with this mark, over its children.
    Begun(Mark),
    /// A boundary whose children are tried, with what is known of its place.
    Trying(Origin),
    /// An error boundary whose children are tried.
    Guarding,
    /// The fallback of the boundary right before it, which keeps its primary content and waits for these resources.
    Fallback(Awaits),
}

/// A change of the stage in place, which takes no memory.
#[derive(Clone, Copy)]
pub enum StageChange {
    /// Its list is done: a boundary whose children were tried is shown, and an error boundary has caught nothing. This is at or
    /// below its children.
    Complete(Subtree),
    /// A boundary begins to try its children; this is known of its place.
    Try(Origin),
    /// A boundary hides its children, which wait for these resources. This is at or below what it keeps.
    Hide(Awaits, Subtree),
    /// An error boundary catches this value. Its children are gone.
    Catch(Int),
    /// An instance or a host gets this number, by which later commits know it.
    Number(u64),
}

impl Stage {
    /// The node is done: a boundary whose children were tried is shown, and an error boundary has caught nothing.
    pub(crate) fn complete(&mut self)
        ensures { stage_seen self.new ≡ completed_stage (stage_seen self.old) }
    {
        match self {
            Stage::Trying(_) => *self = Stage::Begun(Mark::Boundary(BoundaryState::Shown)),
            Stage::Guarding => *self = Stage::Begun(Mark::Catch(CatchState::Fine)),
            _ => {}
        }
    }

    /// The mark of an instance or a host gets this number; nothing else changes.
    pub(crate) fn give_number(&mut self, number: u64)
        ensures { stage_seen self.new ≡ numbered_stage number (stage_seen self.old) }
    {
        match self {
            Stage::Begun(Mark::Instance(instance)) => instance.number = Some(number),
            Stage::Begun(Mark::Host(host)) => *host = Some(number),
            _ => {}
        }
    }
}
