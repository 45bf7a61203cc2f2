// Versions are asked for, get their values in order, and are shown by commits.
use rx_base::{Awaits, Cut, Int};
use rx_lane::{Lane, Lanes};
use rx_resources::*;
use std::test::Fail;

#[test]
fn a_refresh_is_seen_by_its_lane_and_done_with_its_commit(rt: HostRuntime) -> Result<(), Fail> {
    let alloc = rt.alloc();
    let mut resource = Resource::new(alloc)?;
    let cut = Cut {
        updates: 8,
        resolutions: 0,
    };
    resource.refresh(3, Lane::T1)?;
    resource.refresh(9, Lane::T1)?;
    assert_eq!(rt; resource.version(Lanes::one(Lane::T1), cut), 1);
    assert_eq!(rt; resource.version(Lanes::one(Lane::Sync), cut), 0);
    resource.commit(Lanes::one(Lane::T1), cut);
    assert_eq!(rt; resource.done(), 1);
    assert_eq!(rt; resource.version(Lanes::one(Lane::Sync), cut), 1);
    Ok(())
}

#[test]
fn versions_get_their_values_in_order(rt: HostRuntime) -> Result<(), Fail> {
    let alloc = rt.alloc();
    let mut resource = Resource::new(alloc)?;
    resource.refresh(0, Lane::Sync)?;
    assert_eq!(rt; resource.next(), 0);
    resource.resolve(Int::of(5));
    assert!(rt; resource.last_value().is_none());
    resource.resolve(Int::of(7));
    assert_eq!(rt; resource.value(0), Some(Int::of(5)));
    assert_eq!(rt; resource.last_value(), Some(Int::of(7)));
    Ok(())
}

#[test]
fn a_value_is_new_to_a_render_that_waits_for_its_version(rt: HostRuntime) -> Result<(), Fail> {
    let alloc = rt.alloc();
    let mut store = ResourceStore::new(alloc, 2)?;
    let start = Cut {
        updates: 0,
        resolutions: 0,
    };
    store.resolve(0, Int::of(5));
    let seen = store.seen(alloc, Lanes::none(), start)?;
    store.refresh(0, 0, Lane::T1)?;
    store.resolve(0, Int::of(6));
    assert!(rt; !store.is_any_new(&seen));
    store.resolve(1, Int::of(7));
    assert!(rt; store.is_new(&seen, &Awaits::one(1)));
    assert!(rt; !store.is_new(&seen, &Awaits::one(0)));
    Ok(())
}
