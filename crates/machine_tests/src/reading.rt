// A tree that is numbered, and read in progress and current.
use rx_elem::{Element, ElementKind};
use rx_fiber::{Fiber, Stage};
use rx_links::FiberTree;
use rx_node::Mark;
use rx_read::{Numbers, number_made, read_current, read_in_progress};
use std::alloc::AllocError;

#[test]
fn numbers_and_reads_a_tree(rt: HostRuntime) -> Result<(), AllocError> {
    let alloc = rt.alloc();
    let mut tree = FiberTree::new(alloc);
    let element = Element::new(alloc, ElementKind::List(false, Vec::new(alloc)))?;
    tree.start(Fiber::new(0, element, Stage::Begun(Mark::Host(None))))?;
    let next = Numbers {
        instance: 3,
        host: 5,
    };
    let next = number_made(&mut tree, next);
    assert_eq!(rt; next.instance, 3);
    assert_eq!(rt; next.host, 6);
    let read = read_in_progress(alloc, &tree)?;
    assert!(rt; matches!(read.mark(), Mark::Host(Some(5))));
    tree.swap();
    let current = read_current(alloc, &tree)?;
    assert!(rt; current.is_some());
    Ok(())
}

fn plain(element: &Element) -> Result<Fiber, AllocError> {
    Ok(Fiber::new(0, element.copy()?, Stage::Begun(Mark::Plain)))
}

#[test]
fn a_fiber_that_is_taken_over_stays_the_same(rt: HostRuntime) -> Result<(), AllocError> {
    let alloc = rt.alloc();
    let mut tree = FiberTree::new(alloc);
    let element = Element::new(alloc, ElementKind::List(false, Vec::new(alloc)))?;
    let first = tree.start(plain(&element)?)?;
    let beside = tree.child(first, None, plain(&element)?)?;
    let above = tree.child(first, None, plain(&element)?)?;
    let kept = tree.child(above, None, plain(&element)?)?;
    tree.swap();
    let root = tree.start(plain(&element)?)?;
    let _changed = tree.child(root, Some(beside), plain(&element)?)?;
    let clone = tree.child(root, Some(above), plain(&element)?)?;
    tree.take_over(clone);
    tree.swap();
    let same = tree.first_child(clone).is_some_and(|id| id.same(kept));
    assert!(rt; same);
    Ok(())
}
