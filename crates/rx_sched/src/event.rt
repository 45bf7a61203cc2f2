// The event that goes on.
ghost use Rattle.std.specs.Prelude.{◌≡◌};
ghost use Rattle.rx_sched.specs.Events.{new_event};

use rx_lane::Lane;

/// An event (react.dev, startTransition): the transition lane that it has claimed, if it has one, and whether it began with a
/// start, so that only transitions go on with it.
#[derive(Clone, Copy, Debug, PartialEq, Eq)]
pub struct Event {
    pub lane: Option<Lane>,
    pub started: bool,
}

impl Event {
    /// An event that begins, and has claimed no lane yet.
    pub fn new(started: bool) -> Event
        ensures { result ≡ new_event started }
    {
        Event {
            lane: None,
            started,
        }
    }
}
