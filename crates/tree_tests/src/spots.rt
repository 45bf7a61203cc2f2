// A boundary that keeps an instance, read.
use rx_base::{Awaits, Ints};
use rx_elem::{Element, ElementKind};
use rx_node::{Instance, InstanceParts, Mark, Node};
use rx_spots::{awaited, hidden_count, mounted, node_count};
use rx_susp::BoundaryState;
use std::alloc::{AllocError, Global};
use std::rc::Rc;
use std::test::Fail;

fn kept(alloc: Global) -> Result<Node, AllocError> {
    let instance = Instance {
        number: Some(7),
        parts: Rc::new(
            alloc,
            InstanceParts {
                component: 2,
                initials: Rc::new(alloc, Ints::new(Vec::new(alloc)))?,
                reads: Rc::new(alloc, Vec::new(alloc))?,
                versions: Rc::new(alloc, Vec::new(alloc))?,
                effects: Rc::new(alloc, Vec::new(alloc))?,
            },
        )?,
    };
    let element = Element::new(alloc, ElementKind::Null)?;
    let mark = Mark::Instance(instance);
    Node::new(alloc, element, mark, Vec::new(alloc), Vec::new(alloc))
}

#[test]
fn reads_a_hidden_boundary(rt: HostRuntime) -> Result<(), Fail> {
    let alloc = rt.alloc();
    let mut children = Vec::new(alloc);
    children.push(Some(kept(alloc)?))?;
    let element = Element::new(alloc, ElementKind::Null)?;
    let mark = Mark::Boundary(BoundaryState::Hidden(Awaits::one(3)));
    let tree = Node::new(alloc, element, mark, children, Vec::new(alloc))?;
    let found = mounted(alloc, Some(&tree))?;
    assert_eq!(rt; found.len(), 1);
    assert_eq!(rt;
        found.iter().all(|m| m.number() == 7 && !m.is_visible()),
        true
    );
    assert_eq!(rt; node_count(Some(&tree)), 2);
    assert_eq!(rt; hidden_count(Some(&tree)), 1);
    assert_eq!(rt; awaited(Some(&tree)).has(3), true);
    Ok(())
}
