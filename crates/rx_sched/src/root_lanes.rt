// What is pending, suspended and linked, and what is rendered next.
ghost use Rattle.std.specs.Prelude.{◌≡◌, IsTrue, slice_index_or};
ghost use Rattle.std.specs.List.{list_any};
ghost use Rattle.rx_queue.specs.Pairs.{in_versions};
ghost use Rattle.rx_lane.specs.Lanes.{is_transition};
ghost use Rattle.rx_sched.specs.Schedule.{StartsAllLinked, after_commit, after_deferral, after_resolution, after_update, become_pending, claimed, first_lanes, goes_on, is_sliced, keep_pending, keeps_on, lanes_to_start, leave_pending, linked, next, next_claim, opening_schedule, wake};

use crate::choice::Choice;
use crate::deadlines::Deadlines;
use crate::links::Links;
use crate::waiting::Waiting;
use rx_base::Awaits;
use rx_lane::{Lane, Lanes};
use std::marker::Model;

/// The lanes of a root: which are pending, which are suspended and what they wait for, which are rendered together,
/// and when each expires (React's root lanes).
#[derive(Drop, Debug)]
pub struct RootLanes {
    pending: Lanes,
    deadlines: Deadlines,
    suspended: Lanes,
    waiting: Waiting,
    links: Links,
    next_transition: Lane,
}

impl Model for RootLanes {
    ghost use Rattle.std.specs.Prelude.{IsTrue};
    ghost use Rattle.rx_lane.specs.Lanes.{is_transition};
    ghost use Rattle.rx_sched.specs.Schedule.{Schedule};

    ghost Value = { Schedule };

    ghost view = { λ a. record { pending = a.pending; deadlines = a.deadlines; suspended = a.suspended; waiting = a.waiting; links = a.links; next_transition = a.next_transition } };

    ghost invariant = { λ a. IsTrue (is_transition a.next_transition) };
}

impl RootLanes {
    /// The scheduler of a root that has rendered nothing: Default is pending, for the first render.
    pub fn new() -> RootLanes
        ensures { result ≡ opening_schedule }
    {
        let mut root = RootLanes {
            pending: Lanes::none(),
            deadlines: Deadlines::none(),
            suspended: Lanes::none(),
            waiting: Waiting::none(),
            links: Links::none(),
            next_transition: Lane::T1,
        };
        root.become_pending(Lanes::one(Lane::Default), 0);
        root
    }

    /// Lanes become pending, and get their deadlines.
    fn become_pending(&mut self, lanes: Lanes, now: u64)
        ensures { self.new ≡ become_pending now lanes self.old }
    {
        self.deadlines.begin(lanes.minus(self.pending), now);
        self.pending = self.pending.union(lanes);
    }

    /// Lanes leave the pending ones, and their deadlines go.
    fn leave_pending(&mut self, lanes: Lanes)
        ensures { self.new ≡ leave_pending lanes self.old }
    {
        self.deadlines.end(lanes);
        self.pending = self.pending.minus(lanes);
    }

    /// Nothing is suspended any more.
    fn wake(&mut self, now: u64)
        ensures { self.new ≡ wake now self.old }
    {
        let woken = self.suspended.intersection(self.pending);
        self.deadlines
            .begin(woken.intersection(self.deadlines.missing()), now);
        self.suspended = Lanes::none();
        self.waiting = Waiting::none();
    }

    /// What isn't pending any more is neither suspended nor linked.
    fn keep_pending(&mut self)
        ensures { self.new ≡ keep_pending self.old }
    {
        self.links.keep(self.pending);
        self.suspended = self.suspended.intersection(self.pending);
        if self.suspended.is_none() {
            self.waiting = Waiting::none();
        }
    }

    /// An update with this lane was accepted.
    pub fn updated(&mut self, lane: Lane, now: u64)
        ensures { self.new ≡ after_update self.old lane now }
    {
        self.wake(now);
        self.become_pending(Lanes::one(lane), now);
    }

    /// These lanes are rendered together from now on, as they have updates of one hook (React's entangled transitions).
    pub fn link(&mut self, lanes: Lanes)
        ensures { self.new ≡ linked self.old lanes }
    {
        self.links.join(lanes);
    }

    /// The transition lane of the next event: T1 to T16 in turn.
    pub fn claim_transition(&mut self) -> Lane
        ensures lane { result ≡ self.old.next_transition }
        ensures transition { IsTrue (is_transition result) }
        ensures after { self.new ≡ claimed self.old }
    {
        let lane = self.next_transition;
        self.next_transition = next_claim(lane);
        lane
    }

    /// A render with these lanes was deferred, and waits for resources, each in the version that `versions` gives by its
    /// number, 0 past its end. None of them got its value in that version since the render began.
    pub fn deferred(&mut self, lanes: Lanes, waits: &Awaits, versions: &[u64], now: u64)
        ensures { self.new ≡ after_deferral self.old lanes (in_versions (λ r. slice_index_or versions.now r 0) waits.now) now }
    {
        self.deadlines
            .end(lanes.intersection(self.deadlines.unexpired(now)));
        self.suspended = self.suspended.union(lanes);
        self.waiting.add(waits, versions);
    }

    /// A version of a resource got its value; `waits` says that a visible boundary waits for it.
    pub fn resolved(&mut self, name: u32, version: u64, waits: bool, now: u64)
        ensures { self.new ≡ after_resolution self.old name version waits now }
    {
        if self.waiting.has(name, version) {
            self.wake(now);
        }
        if waits {
            self.become_pending(Lanes::one(Lane::Retry), now);
        }
    }

    /// A render with these lanes was committed; `still` are the lanes that are pending again, or still: those of
    /// updates that the render didn't see, and Retry if a visible boundary waits for what has its value by now.
    pub fn finished(&mut self, lanes: Lanes, still: Lanes, now: u64)
        ensures { self.new ≡ after_commit self.old lanes still now }
    {
        self.leave_pending(lanes);
        self.become_pending(still, now);
        self.keep_pending();
    }

    /// The lanes that have something to render.
    pub fn pending(&self) -> Lanes
        ensures { result ≡ self.now.pending }
    {
        self.pending
    }

    /// The lanes whose last render was deferred: none begins with them until something is resolved or updated.
    pub fn suspended(&self) -> Lanes
        ensures { result ≡ self.now.suspended }
    {
        self.suspended
    }

    /// True if a render with these lanes is cut into slices: they are transitions and Retry alone, and none is
    /// expired.
    pub fn sliced(&self, lanes: Lanes, now: u64) -> bool
        ensures { result ≡ is_sliced self.now lanes now }
    {
        let unexpired = self.deadlines.unexpired(now);
        let retry = unexpired.intersection(Lanes::one(Lane::Retry));
        lanes.within(unexpired.transitions().union(retry))
    }

    /// The lanes that a new render would begin with: the highest that is pending and not suspended, and with a
    /// transition all such transitions.
    fn first_lanes(&self) -> Lanes
        ensures { result ≡ first_lanes self.now }
    {
        let free = self.pending.minus(self.suspended);
        match free.highest() {
            None => Lanes::none(),
            Some(lane) => {
                if lane.is_transition() {
                    free.transitions()
                } else {
                    Lanes::one(lane)
                }
            }
        }
    }

    /// The lanes of a render that begins with some.
    fn lanes_to_start(&self, first: Lanes) -> Lanes
        ensures { result ≡ lanes_to_start self.now first }
    {
        let with_default = first.has(Lane::Input) && self.pending.has(Lane::Default);
        let lanes = if with_default {
            first.union(Lanes::one(Lane::Default))
        } else {
            first
        };
        self.links.reached(self.pending, lanes)
    }

    /// What a turn does, by the lanes of the render in progress.
    pub fn next(&self, wip: Option<Lanes>) -> Choice
        ensures choice { result ≡ next self.now wip }
        ensures whole { StartsAllLinked self.now result }
    {
        let first = self.first_lanes();
        match first.highest() {
            None => Choice::None,
            Some(lane) => {
                if goes_on(lane, wip) {
                    Choice::Keep
                } else {
                    Choice::Start(self.lanes_to_start(first))
                }
            }
        }
    }
}

/// True if a render in progress goes on, though this lane is the highest to render.
fn goes_on(lane: Lane, wip: Option<Lanes>) -> bool
    ensures { result ≡ goes_on lane wip }
{
    match wip {
        None => false,
        Some(lanes) => keeps_on(lane, lanes),
    }
}

/// True if a render with these lanes goes on, though the lane is the highest to render.
fn keeps_on(lane: Lane, lanes: Lanes) -> bool
    ensures { result ≡ keeps_on lane lanes }
{
    match lanes.highest() {
        None => false,
        Some(rendered) => {
            let is_default = lane.priority() == Lane::Default.priority();
            !lane.is_higher(rendered) || (is_default && has_transition(lanes))
        }
    }
}

/// True if a set has a transition lane.
fn has_transition(lanes: Lanes) -> bool
    ensures { result ≡ list_any is_transition lanes }
{
    !lanes.transitions().is_none()
}

/// The transition lane that is claimed after another.
fn next_claim(lane: Lane) -> Lane
    ensures { result ≡ next_claim lane }
{
    match lane {
        Lane::T1 => Lane::T2,
        Lane::T2 => Lane::T3,
        Lane::T3 => Lane::T4,
        Lane::T4 => Lane::T5,
        Lane::T5 => Lane::T6,
        Lane::T6 => Lane::T7,
        Lane::T7 => Lane::T8,
        Lane::T8 => Lane::T9,
        Lane::T9 => Lane::T10,
        Lane::T10 => Lane::T11,
        Lane::T11 => Lane::T12,
        Lane::T12 => Lane::T13,
        Lane::T13 => Lane::T14,
        Lane::T14 => Lane::T15,
        Lane::T15 => Lane::T16,
        _ => Lane::T1,
    }
}
