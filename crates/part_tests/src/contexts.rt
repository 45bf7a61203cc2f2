// A stack of contexts, by example.
use rx_base::Int;
use rx_ctx::ContextStack;
use std::test::Fail;

#[test]
fn the_nearest_provider_counts(rt: HostRuntime) -> Result<(), Fail> {
    let mut contexts = ContextStack::new(rt.alloc(), &[Int::of(1), Int::of(2)])?;
    assert!(rt; contexts.values().len() == 2);
    contexts.push(1, Int::of(7), true)?;
    assert!(rt; contexts.values().len() == 2);
    assert_eq!(rt; contexts.read(1).value(), 7);
    assert_eq!(rt; contexts.read(0).value(), 1);
    assert!(rt; contexts.has_moved());
    Ok(())
}
