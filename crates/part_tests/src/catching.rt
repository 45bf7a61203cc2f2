// Boundaries around a place, and what an error boundary catches, by example.
use rx_base::Int;
use rx_catch::{CatchState, Handler, Handlers, after};
use std::test::Fail;

#[test]
fn the_nearest_boundary_of_a_kind_counts(rt: HostRuntime) -> Result<(), Fail> {
    let mut handlers = Handlers::new(rt.alloc());
    handlers.push(Handler::Catch(1))?;
    handlers.push(Handler::Boundary(2))?;
    handlers.push(Handler::Catch(3))?;
    handlers.push(Handler::Boundary(4))?;
    assert_eq!(rt; handlers.nearest_catch(), Some(3));
    assert_eq!(rt; handlers.nearest_boundary(), Some(4));
    assert_eq!(rt; handlers.pop(), Some(Handler::Boundary(4)));
    assert_eq!(rt; handlers.nearest_boundary(), Some(2));
    Ok(())
}

#[test]
fn what_was_caught_stays(rt: HostRuntime) {
    let caught = after(CatchState::Fine, Some(Int::of(7)));
    assert!(rt; caught == CatchState::Caught { value: Int::of(7) });
    assert!(rt; after(caught, Some(Int::of(8))) == caught);
    assert!(rt; after(caught, None) == caught);
}
