// Values of resources.
ghost use Rattle.std.specs.Prelude.{◌≡◌, ◌<◌, ◌≤◌, ◌^◌, ◌+◌, ℕ, true, OnOk, bytes_eq, is_some, length, position};
ghost use Rattle.rx_model.specs.Accepting.{between_events, is_awaited_in, resolved};
ghost use Rattle.rx_model.specs.State.{State};
ghost use Rattle.rx_queue.specs.Journal.{next_version};
ghost use Rattle.rx_resources.specs.Kept.{last_version};
ghost use Rattle.rx_resources.specs.Store.{kept_at, resolved_at};
ghost use Rattle.rx_rules.specs.Names.{resources};
ghost use Rattle.rx_sched.specs.Schedule.{after_resolution};
ghost use Rattle.rx_plain.specs.Doing.{HasDone};
ghost use Rattle.rx_plain.specs.Stands.{HasRoomFor, StandsFor, StandsForSome};

use crate::dispatching::resource_number;
use crate::plain::Plain;
use end_laws::ends_are_not_read;
use rx_base::{Int, Name};
use rx_check::Checked;
use rx_report::Report;
use rx_sched::Event;
use rx_spots::awaited;
use std::alloc::AllocError;

impl Plain {
    // True if a visible boundary waits for the version of a resource that gets its value next.
    fn is_awaited(&self, checked: &Checked, resource: u32) -> bool
        requires { resource < length self.now.resources }
        ensures { (s : State) → StandsFor checked.now s self.entry.now → result ≡ is_awaited_in s resource (next_version s.journal resource) }
    {
        ends_are_not_read();
        checked.program();
        let kept = self.resources.get(resource);
        awaited(self.tree.as_ref()).has(resource) && kept.done() == kept.next()
    }

    // The next version of a resource gets its value, for which a visible boundary may wait.
    fn give(&mut self, resource: u32, value: Int, waits: bool)
        requires within { resource < length self.old.resources }
        requires asked { length (kept_at self.old.resources resource).values ≤ last_version (kept_at self.old.resources resource) }
        requires room { self.old.resolutions < 2 ^ 62 }
        ensures { self.new ≡ record self.old { schedule = after_resolution self.old.schedule resource (length (kept_at self.old.resources resource).values) waits self.old.now; resolutions = self.old.resolutions + 1; resources = resolved_at value resource self.old.resources } }
    {
        let version = self.resources.get(resource).next();
        self.lanes.resolved(resource, version, waits, self.now);
        self.resources.resolve(resource, value);
        self.resolutions += 1;
    }

    /// Gives the next version of a resource its value (react.dev, use), and an event ends; the report gets a line if the last
    /// version that was asked for has its value.
    ///
    /// # Errors
    ///
    /// Only if out of memory; the machine and the report are then of no use.
    pub fn resolve(
        &mut self,
        checked: &Checked,
        name: &Name,
        value: Int,
        log: &mut Report,
    ) -> Result<(), AllocError>
        requires stands { StandsForSome checked.now self.old }
        requires fits { is_some (position (bytes_eq name.now) (resources checked.now)) ≡ true }
        requires room { HasRoomFor 1 self.old }
        ensures ok { OnOk result ((s : State) → StandsFor checked.now s self.old → HasDone checked.now (resolved checked.now (between_events s) name.now value) self.new log.old log.new) }
        ensures left { OnOk result ((k : ℕ) → HasRoomFor (k + 1) self.old → HasRoomFor k self.new) }
    {
        let number = resource_number(checked, name);
        match self.resources.get(number).last_value() {
            Some(known) => {
                self.event = Event::new(false);
                log.already_line(name, known)
            }
            None => {
                let waits = self.is_awaited(checked, number);
                self.give(number, value, waits);
                self.event = Event::new(false);
                Ok(())
            }
        }
    }
}
