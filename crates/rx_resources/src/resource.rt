// What a root keeps of a resource.
ghost use Rattle.std.specs.Prelude.{◌≡◌, ◌≤◌, ◌<◌, ◌^◌, length, IfOk, OnOk, OnErr};
ghost use Rattle.rx_resources.specs.Kept.{committed, is_included as includes, last_version, opening, refreshed, relinked, resolved, value_of, version_at};

use rx_base::{Cut, Int};
use rx_lane::{Lane, Lanes};
use std::alloc::{AllocError, Global};
use std::marker::Model;

/// A refresh that was accepted and is not done: its number in the journal, and its lane.
#[derive(Clone, Copy, Debug, PartialEq, Eq)]
pub struct Asked {
    pub number: u64,
    pub lane: Lane,
}

/// A resource with its versions. The first is asked for from the start, and each refresh asks for another. Versions get their
/// values in order; there is room for the value of each version that was asked for.
#[derive(Drop)]
pub struct Resource {
    done: u64,
    asked: Vec<Asked>,
    values: Vec<Int>,
    linked: Lanes,
}

impl Model for Resource {
    ghost use Rattle.std.specs.Prelude.{◌+◌, ◌≤◌, ◌<◌, ◌^◌, vec_capacity, vec_len};
    ghost use Rattle.rx_resources.specs.Kept.{Kept};

    ghost Value = { Kept };

    ghost view = { λ r. record { done = r.done; asked = r.asked.items; values = r.values.items; linked = r.linked } };

    ghost invariant = { λ r. (1 + r.done + vec_len r.asked ≤ vec_capacity r.values) × (vec_len r.values ≤ 1 + r.done + vec_len r.asked) × (r.done + vec_len r.asked < 2 ^ 63) };
}

// Whether a render with these lanes at this cut includes a refresh.
fn is_included(lanes: Lanes, cut: Cut, asked: Asked) -> bool
    ensures { result ≡ includes lanes cut asked }
{
    asked.number < cut.updates && lanes.has(asked.lane)
}

impl Resource {
    /// A resource at the start of a root, with room for its first value.
    pub fn new(alloc: Global) -> Result<Resource, AllocError>
        ensures { IfOk result (λ r. r ≡ opening) }
    {
        Ok(Resource {
            done: 0,
            asked: Vec::new(alloc),
            values: Vec::with_capacity(alloc, 1)?,
            linked: Lanes::none(),
        })
    }

    /// Asks for another version, and takes the room for its value. Out of memory leaves it as it was.
    pub fn refresh(&mut self, number: u64, lane: Lane) -> Result<(), AllocError>
        requires { last_version self.old < 2 ^ 62 }
        ensures done { OnOk result (self.new ≡ refreshed (record { number = number; lane = lane }) self.old) }
        ensures same { OnErr result (self.new ≡ self.old) }
    {
        let versions = 1 + self.done as usize + self.asked.len();
        self.values.reserve(versions + 1 - self.values.len())?;
        self.asked.push(Asked { number, lane })?;
        Ok(())
    }

    /// Links the lane of a transition with the lanes that the resource links and that are pending still. Those are all the
    /// lanes that it links from now on.
    pub fn link(&mut self, lane: Lane, pending: Lanes) -> Lanes
        ensures linked { self.new ≡ relinked lane pending self.old }
        ensures lanes { result ≡ self.new.linked }
    {
        self.linked = self.linked.intersection(pending).union(Lanes::one(lane));
        self.linked
    }

    /// The next version gets its value.
    pub fn resolve(&mut self, value: Int)
        requires { length self.old.values ≤ last_version self.old }
        ensures { self.new ≡ resolved value self.old }
    {
        let _room = self.values.push(value);
    }

    /// What a render with these lanes at this cut included is done.
    pub fn commit(&mut self, lanes: Lanes, cut: Cut)
        ensures { self.new ≡ committed lanes cut self.old }
    {
        self.done = self.version(lanes, cut);
        self.asked.retain(|asked| !is_included(lanes, cut, *asked));
    }

    /// The version that a render with these lanes at this cut sees.
    pub fn version(&self, lanes: Lanes, cut: Cut) -> u64
        ensures { result ≡ version_at lanes cut self.now }
    {
        let mut version = self.done;
        for asked in &self.asked {
            if is_included(lanes, cut, *asked) {
                version += 1;
            }
        }
        version
    }

    /// The version that the last commit shows.
    pub fn done(&self) -> u64
        ensures { result ≡ self.now.done }
    {
        self.done
    }

    /// The version that the next resolution gives its value.
    pub fn next(&self) -> u64
        ensures { result ≡ length self.now.values }
    {
        self.values.len() as u64
    }

    /// The value of a version, if it has one.
    pub fn value(&self, version: u64) -> Option<Int>
        ensures { result ≡ value_of self.now version }
    {
        self.values.get(version as usize).copied()
    }

    /// The value of the last version that was asked for, if it has one.
    pub fn last_value(&self) -> Option<Int>
        ensures { result ≡ value_of self.now (last_version self.now) }
    {
        self.value(self.done + self.asked.len() as u64)
    }
}
