// Nodes with numbers in them.
use rx_arena::*;
use std::alloc::AllocError;

#[test]
fn keeps_a_value(rt: HostRuntime) -> Result<(), AllocError> {
    let mut arena = Arena::new(rt.alloc());
    arena.reserve(1)?;
    let id = arena.alloc_linked(5_u32, None, None, None);
    *arena.get_mut(id) = 6;
    assert_eq!(rt; *arena.get(id), 6);
    Ok(())
}

#[test]
fn releases_an_alternate(rt: HostRuntime) -> Result<(), AllocError> {
    let mut arena = Arena::new(rt.alloc());
    arena.reserve(2)?;
    let first = arena.alloc_linked(1_u32, None, None, None);
    let second = arena.alloc_linked(2_u32, None, None, Some(first));
    arena.release(first);
    assert!(rt; arena.alternate_of(second).is_none());
    assert_eq!(rt; arena.live(), 1);
    Ok(())
}
