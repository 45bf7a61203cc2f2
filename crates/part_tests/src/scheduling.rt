// The scheduler, by example.
use rx_base::Awaits;
use rx_lane::{Lane, Lanes};
use rx_sched::{Choice, RootLanes};

fn set(lanes: &[Lane]) -> Lanes {
    let mut all = Lanes::none();
    for lane in lanes {
        all = all.union(Lanes::one(*lane));
    }
    all
}

fn next_of(pending: &[Lane], suspended: &[Lane], linked: &[Lane], wip: Option<Lanes>) -> Choice {
    let mut root = RootLanes::new();
    root.finished(Lanes::one(Lane::Default), Lanes::none(), 0);
    for lane in pending {
        root.updated(*lane, 0);
    }
    root.link(set(linked));
    root.deferred(set(suspended), &Awaits::one(0), &[], 0);
    root.next(wip)
}

#[test]
fn next_starts_what_is_linked_and_free(rt: HostRuntime) {
    let both = [Lane::T1, Lane::T2];
    let linked = next_of(&both, &[Lane::T1], &both, None);
    assert_eq!(rt; linked, Choice::Start(set(&both)));
    let suspended = next_of(&[Lane::T1], &[Lane::T1], &[], None);
    assert_eq!(rt; suspended, Choice::None);
    let urgent = [Lane::Input, Lane::Default];
    assert_eq!(rt;
        next_of(&urgent, &[], &[], None),
        Choice::Start(set(&urgent))
    );
}

#[test]
fn next_keeps_or_interrupts(rt: HostRuntime) {
    let first = Lanes::one(Lane::T1);
    let beside_default = next_of(&[Lane::T1, Lane::Default], &[], &[], Some(first));
    assert_eq!(rt; beside_default, Choice::Keep);
    let beside_input = next_of(
        &[Lane::T1, Lane::Input, Lane::Default],
        &[],
        &[],
        Some(first),
    );
    assert_eq!(rt;
        beside_input,
        Choice::Start(set(&[Lane::Input, Lane::Default]))
    );
    let beside_sync = next_of(&[Lane::T1, Lane::Sync], &[], &[], Some(first));
    assert_eq!(rt; beside_sync, Choice::Start(Lanes::one(Lane::Sync)));
    let beside_second = next_of(&[Lane::T1, Lane::T2], &[], &[], Some(first));
    assert_eq!(rt; beside_second, Choice::Keep);
    let retry = Lanes::one(Lane::Retry);
    let over_retry = next_of(&[Lane::T1, Lane::Retry], &[], &[], Some(retry));
    assert_eq!(rt; over_retry, Choice::Start(Lanes::one(Lane::T1)));
}

#[test]
fn claims_go_round(rt: HostRuntime) {
    let mut root = RootLanes::new();
    for lane in &Lane::ALL[3..19] {
        assert_eq!(rt; root.claim_transition(), *lane);
    }
    assert_eq!(rt; root.claim_transition(), Lane::T1);
}

// Whether a lane's deadline is at a time: it is cut into slices before it alone.
fn is_due_at(root: &RootLanes, lane: Lane, time: u64) -> bool {
    let lanes = Lanes::one(lane);
    root.sliced(lanes, time.saturating_sub(1)) && !root.sliced(lanes, time)
}

// Whether a lane has no deadline.
fn is_never_due(root: &RootLanes, lane: Lane) -> bool {
    root.sliced(Lanes::one(lane), u64::MAX)
}

#[test]
fn deadlines_follow_the_lanes(rt: HostRuntime) {
    let mut root = RootLanes::new();
    assert!(rt; is_never_due(&root, Lane::T1));
    root.updated(Lane::T1, 10);
    assert!(rt; is_due_at(&root, Lane::T1, 5010));
    root.updated(Lane::T2, u64::MAX - 1);
    assert!(rt; is_due_at(&root, Lane::T2, u64::MAX));
    root.resolved(9, 0, true, 10);
    assert!(rt; is_never_due(&root, Lane::Retry));
    root.finished(Lanes::one(Lane::T1), Lanes::none(), 10);
    assert!(rt; is_never_due(&root, Lane::T1));
}

#[test]
fn a_suspended_lane_loses_its_deadline(rt: HostRuntime) {
    let mut root = RootLanes::new();
    let first = Lanes::one(Lane::T1);
    root.updated(Lane::T1, 0);
    assert!(rt; is_due_at(&root, Lane::T1, 5000));
    root.deferred(first, &Awaits::one(3), &[], 4999);
    assert!(rt; is_never_due(&root, Lane::T1));
    root.resolved(3, 0, false, 6000);
    assert!(rt; is_due_at(&root, Lane::T1, 11000));
    root.deferred(first, &Awaits::one(4), &[], 11000);
    assert!(rt; is_due_at(&root, Lane::T1, 11000));
}

#[test]
fn a_wait_is_for_the_lesser_version(rt: HostRuntime) {
    let mut root = RootLanes::new();
    let first = Lanes::one(Lane::T1);
    let second = Lanes::one(Lane::T2);
    root.updated(Lane::T1, 0);
    root.updated(Lane::T2, 0);
    root.deferred(first, &Awaits::one(1), &[0, 2], 10);
    root.deferred(second, &Awaits::one(1), &[0, 1], 10);
    root.resolved(1, 0, false, 20);
    assert_eq!(rt; root.suspended(), first.union(second));
    root.resolved(1, 1, false, 30);
    assert_eq!(rt; root.suspended(), Lanes::none());
}
