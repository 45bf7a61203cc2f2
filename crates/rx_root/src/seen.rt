// What can be seen of a root, beside its trees and hooks.
ghost use Rattle.std.specs.Prelude.{◌≡◌, if◌then◌else◌, option_map};
ghost use Rattle.rx_ast.specs.Syntax as syntax;
ghost use Rattle.rx_lane.specs.Lanes.{one, union};
ghost use Rattle.rx_model.specs.State.{State};
ghost use Rattle.rx_model.specs.Turns.{choice_of};
ghost use Rattle.rx_root.specs.Seen.{AreExpired, HasExpired, overdue as overdue_of, progress_seen};
ghost use Rattle.rx_root.specs.Stands.{Stands};

use crate::root::Root;
use rx_lane::{Lane, Lanes};
use rx_sched::Choice;

/// A render in progress: its lanes, and the units and bodies that it has used so far.
#[derive(Clone, Copy, Debug, PartialEq, Eq)]
pub struct InProgress {
    pub lanes: Lanes,
    pub units: u64,
    pub bodies: u64,
}

// A set of lanes, with one more if that is so.
fn with_lane(lanes: Lanes, lane: Lane, more: bool) -> Lanes
    ensures { result ≡ (if more then union lanes (one lane) else lanes) }
{
    if more {
        return lanes.union(Lanes::one(lane));
    }
    lanes
}

impl Root {
    // The lanes of the render in progress, if there is one.
    fn lanes_in_progress(&self) -> Option<Lanes>
        ensures { (p : syntax.Program) (s : State) → Stands p s self.entry.now → result ≡ option_map (λ g. g.lanes) s.progress }
    {
        if self.renderer.is_over() {
            None
        } else {
            Some(self.renderer.lanes())
        }
    }

    /// The render in progress, if there is one (react.dev, startTransition: such a render may yield, and go on later).
    pub fn in_progress(&self) -> Option<InProgress>
        ensures { (p : syntax.Program) (s : State) → Stands p s self.entry.now → result ≡ progress_seen s.progress }
    {
        if self.renderer.is_over() {
            None
        } else {
            Some(InProgress {
                lanes: self.renderer.lanes(),
                units: self.renderer.units(),
                bodies: self.renderer.bodies(),
            })
        }
    }

    /// What the next turn does: nothing, go on with the render in progress, or start one. If it does nothing, each lane that
    /// is pending is suspended.
    pub fn next_turn(&self) -> Choice
        ensures { (p : syntax.Program) (s : State) → Stands p s self.entry.now → result ≡ choice_of s }
    {
        self.lanes.next(self.lanes_in_progress())
    }

    // Whether a lane is one of a transition, and a render of it alone is not cut into slices any more.
    fn is_overdue(&self, lane: Lane) -> bool
        ensures { result ≡ overdue_of self.entry.now.schedule self.entry.now.now lane }
    {
        lane.is_transition() && !self.lanes.sliced(Lanes::one(lane), self.now)
    }

    // The lanes that are overdue, by the clock of the root.
    fn overdue(&self) -> Lanes
        ensures { AreExpired self.entry.now.schedule self.entry.now.now result }
    {
        let mut lanes = Lanes::none();
        'lanes: for lane in &Lane::ALL {
            lanes = with_lane(lanes, *lane, self.is_overdue(*lane));
        }
        lanes
    }

    /// The transition lanes that have reached their deadlines: a render of such a lane is not cut into slices any more.
    pub fn expired(&self) -> Lanes
        ensures { (s : State) → Stands self.entry.now.rendering.program s self.entry.now → HasExpired s result }
    {
        self.overdue()
    }

    /// The clock.
    pub fn now(&self) -> u64
        ensures { (s : State) → Stands self.entry.now.rendering.program s self.entry.now → result ≡ s.now }
    {
        self.now
    }
}
