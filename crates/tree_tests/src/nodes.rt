// A node that is made, read and copied.
use rx_base::Ints;
use rx_elem::{Element, ElementKind};
use rx_node::{Instance, InstanceParts, Mark, Node};
use std::alloc::AllocError;
use std::rc::Rc;

#[test]
fn copies_a_mark(rt: HostRuntime) -> Result<(), AllocError> {
    let alloc = rt.alloc();
    let instance = Instance {
        number: Some(7),
        parts: Rc::new(
            alloc,
            InstanceParts {
                component: 0,
                initials: Rc::new(alloc, Ints::new(Vec::new(alloc)))?,
                reads: Rc::new(alloc, Vec::new(alloc))?,
                versions: Rc::new(alloc, Vec::new(alloc))?,
                effects: Rc::new(alloc, Vec::new(alloc))?,
            },
        )?,
    };
    let number = instance.copy()?.number;
    assert_eq!(rt; number, Some(7));
    let copied = Mark::Instance(instance).copy()?;
    assert!(rt; matches!(copied, Mark::Instance(_)));
    Ok(())
}

#[test]
fn reads_a_node(rt: HostRuntime) -> Result<(), AllocError> {
    let alloc = rt.alloc();
    let leaf = Node::new(
        alloc,
        Element::new(alloc, ElementKind::Null)?,
        Mark::Host(Some(3)),
        Vec::new(alloc),
        Vec::new(alloc),
    )?;
    let mut children = Vec::new(alloc);
    children.push(None)?;
    children.push(Some(leaf))?;
    let element = Element::new(alloc, ElementKind::List(false, Vec::new(alloc)))?;
    let node = Node::new(alloc, element, Mark::Plain, children, Vec::new(alloc))?.copy()?;
    assert_eq!(rt; node.children().len(), 2);
    assert!(rt; !node.hides());
    Ok(())
}
