// An old list with a place that has no node.
use rx_elem::{Element, ElementKind};
use rx_fiber::{Fiber, Stage, old_children};
use rx_links::FiberTree;
use rx_node::Mark;
use std::alloc::AllocError;

#[test]
fn lists_old_children(rt: HostRuntime) -> Result<(), AllocError> {
    let alloc = rt.alloc();
    let mut tree = FiberTree::new(alloc);
    let element = Element::new(alloc, ElementKind::Null)?;
    let root = tree.start(Fiber::new(2, element, Stage::Begun(Mark::Plain)))?;
    tree.swap();
    let children = old_children(alloc, &tree, Some(root), 1)?;
    assert_eq!(rt; children.elements.len(), 3);
    Ok(())
}
