// Lanes that are rendered together.
ghost use Rattle.std.specs.Prelude.{◌≡◌};
ghost use Rattle.rx_lane.specs.Lanes.{lanes_where};
ghost use Rattle.rx_sched.specs.Links.{is_linked, linked_by, links_among, links_of, no_links, one_link_on, reached};

use rx_lane::{Lane, Lanes};
use std::marker::Model;

/// Of each lane the lanes that are rendered together with it (React's entangled lanes).
#[derive(Drop, Debug)]
pub struct Links {
    sets: [Lanes; 20],
}

impl Model for Links {
    ghost use Rattle.std.specs.Prelude.{◌≡◌, List, length};
    ghost use Rattle.rx_lane.specs.declared.lane.Lane.{Lane};

    ghost Value = { List (List Lane) };

    ghost view = { λ a. a.sets };

    ghost invariant = { λ a. length a.sets ≡ 20 };
}

impl Links {
    /// No lane is linked.
    pub fn none() -> Links
        ensures { result ≡ no_links }
    {
        Links {
            sets: [Lanes::none(); 20],
        }
    }

    /// The lanes that a lane is linked with.
    pub fn of(&self, lane: Lane) -> Lanes
        ensures { result ≡ links_of self.now lane }
    {
        self.sets[lane.priority() as usize]
    }

    /// Links every two lanes of a set.
    pub fn join(&mut self, lanes: Lanes)
        ensures { self.new ≡ linked_by self.old lanes }
    {
        for lane in Lane::ALL {
            if lanes.has(lane) {
                let place = lane.priority() as usize;
                self.sets[place] = self.sets[place].union(lanes);
            }
        }
    }

    /// Drops the links with lanes that aren't pending.
    pub fn keep(&mut self, pending: Lanes)
        ensures { self.new ≡ links_among self.old pending }
    {
        for lane in Lane::ALL {
            let place = lane.priority() as usize;
            if pending.has(lane) {
                self.sets[place] = self.sets[place].intersection(pending);
            } else {
                self.sets[place] = Lanes::none();
            }
        }
    }

    /// The lanes that are linked with some of a set.
    fn linked_with(&self, lanes: Lanes) -> Lanes
        ensures { result ≡ lanes_where (is_linked self.now lanes) }
    {
        let mut found = Lanes::none();
        let mut left = lanes;
        while let Some(lane) = left.highest() {
            found = found.union(self.of(lane));
            left = left.minus(Lanes::one(lane));
        }
        found
    }

    /// A set, and the pending lanes that are linked with one of it.
    fn one_link_on(&self, pending: Lanes, lanes: Lanes) -> Lanes
        ensures { result ≡ one_link_on self.now pending lanes }
    {
        lanes.union(pending.intersection(self.linked_with(lanes)))
    }

    /// All lanes that following links between pending lanes reaches from a set.
    pub fn reached(&self, pending: Lanes, lanes: Lanes) -> Lanes
        ensures { result ≡ reached self.now pending lanes }
    {
        let mut found = lanes;
        for _round in 0..20u32 {
            let more = self.one_link_on(pending, found);
            if more.within(found) {
                return more;
            }
            found = more;
        }
        found
    }
}
