// Time, and the ends of events.
ghost use Rattle.std.specs.Prelude.{◌≡◌, ℕ};
ghost use Rattle.rx_ast.specs.Syntax.{Program};
ghost use Rattle.rx_model.specs.Accepting.{between_events};
ghost use Rattle.rx_model.specs.State.{State};
ghost use Rattle.rx_sched.specs.Deadlines.{later};
ghost use Rattle.rx_sched.specs.Events.{no_event};
ghost use Rattle.rx_plain.specs.Stands.{HasRoomFor, StandsFor};

use crate::plain::Plain;
use rx_sched::Event;

impl Plain {
    /// Time passes, in milliseconds, and an event ends.
    pub fn tick(&mut self, time: u64)
        ensures after { (p : Program) (s : State) → StandsFor p s self.old → StandsFor p (record (between_events s) { now = later s.now time }) self.new }
        ensures changes { self.new ≡ record self.old { now = later self.old.now time; event = no_event } }
        ensures room { (k : ℕ) → HasRoomFor k self.old → HasRoomFor k self.new }
    {
        self.now = self.now.saturating_add(time);
        self.event = Event::new(false);
    }

    /// An event ends (react.dev, startTransition).
    pub fn end_event(&mut self)
        ensures after { (p : Program) (s : State) → StandsFor p s self.old → StandsFor p (between_events s) self.new }
        ensures changes { self.new ≡ record self.old { event = no_event } }
        ensures room { (k : ℕ) → HasRoomFor k self.old → HasRoomFor k self.new }
    {
        self.event = Event::new(false);
    }
}
