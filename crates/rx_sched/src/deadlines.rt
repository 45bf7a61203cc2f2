// The moments at which lanes expire.
ghost use Rattle.std.specs.Prelude.{◌≡◌, not, None, is_none};
ghost use Rattle.rx_lane.specs.Lanes.{lanes_where};
ghost use Rattle.rx_sched.specs.Deadlines.{deadline_from, deadline_of, is_expired, no_deadlines, patience, timed};

use rx_lane::{Lane, Lanes};
use std::marker::Model;

/// Of each lane the moment at which it expires, if it has one.
#[derive(Drop, Debug)]
pub struct Deadlines {
    moments: [Option<u64>; 20],
}

impl Model for Deadlines {
    ghost use Rattle.std.specs.Prelude.{◌≡◌, List, Option, length, ℕ};

    ghost Value = { List (Option ℕ) };

    ghost view = { λ d. d.moments };

    ghost invariant = { λ d. length d.moments ≡ 20 };
}

/// How long a lane may wait (React's expiration times).
fn patience(lane: Lane) -> Option<u64>
    ensures { result ≡ patience lane }
{
    match lane {
        Lane::Sync | Lane::Input => Some(250),
        Lane::Retry => None,
        _ => Some(5000),
    }
}

/// The deadline of a lane that becomes pending now.
fn deadline_from(now: u64, lane: Lane) -> Option<u64>
    ensures { result ≡ deadline_from now lane }
{
    patience(lane).map(|wait| now.saturating_add(wait))
}

impl Deadlines {
    /// No lane has a deadline.
    pub fn none() -> Deadlines
        ensures { result ≡ no_deadlines }
    {
        Deadlines {
            moments: [None; 20],
        }
    }

    /// The deadline of a lane.
    pub fn of(&self, lane: Lane) -> Option<u64>
        ensures { result ≡ deadline_of self.now lane }
    {
        self.moments[lane.priority() as usize]
    }

    /// Lanes get the deadlines of lanes that become pending now.
    pub fn begin(&mut self, lanes: Lanes, now: u64)
        ensures { self.new ≡ timed self.old lanes (deadline_from now) }
    {
        for lane in Lane::ALL {
            if lanes.has(lane) {
                self.moments[lane.priority() as usize] = deadline_from(now, lane);
            }
        }
    }

    /// Lanes have no deadline from now on.
    pub fn end(&mut self, lanes: Lanes)
        ensures { self.new ≡ timed self.old lanes (λ l. None) }
    {
        for lane in Lane::ALL {
            if lanes.has(lane) {
                self.moments[lane.priority() as usize] = None;
            }
        }
    }

    /// True if now has reached a lane's deadline.
    fn is_expired(&self, lane: Lane, now: u64) -> bool
        ensures { result ≡ is_expired self.now now lane }
    {
        match self.of(lane) {
            None => false,
            Some(at) => at <= now,
        }
    }

    /// True if a lane has no deadline.
    fn is_missing(&self, lane: Lane) -> bool
        ensures { result ≡ is_none (deadline_of self.now lane) }
    {
        self.of(lane).is_none()
    }

    /// The lanes without a deadline.
    pub fn missing(&self) -> Lanes
        ensures { result ≡ lanes_where (λ l. is_none (deadline_of self.now l)) }
    {
        let mut found = Lanes::none();
        for lane in Lane::ALL {
            if self.is_missing(lane) {
                found = found.union(Lanes::one(lane));
            }
        }
        found
    }

    /// The lanes that aren't expired.
    pub fn unexpired(&self, now: u64) -> Lanes
        ensures { result ≡ lanes_where (λ l. not (is_expired self.now now l)) }
    {
        let mut found = Lanes::none();
        for lane in Lane::ALL {
            if !self.is_expired(lane, now) {
                found = found.union(Lanes::one(lane));
            }
        }
        found
    }
}
