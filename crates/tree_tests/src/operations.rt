// A text that changes, below an element that loses an attribute.
use rx_base::{Int, Name, Str};
use rx_changes::changes_between;
use rx_elem::{Attr, AttrValue, Element, ElementKind};
use rx_host_ops::{hosts, ops_between};
use rx_node::{Mark, Node};
use std::alloc::{AllocError, Global};
use std::test::Fail;

fn text(alloc: Global, text: &str) -> Result<Node, AllocError> {
    let element = Element::new(alloc, ElementKind::Text(Str::new(alloc, text)?))?;
    let mark = Mark::Host(Some(2));
    Node::new(alloc, element, mark, Vec::new(alloc), Vec::new(alloc))
}

fn paragraph(alloc: Global, attrs: Vec<Attr>, below: Node) -> Result<Node, AllocError> {
    let name = Name::new(alloc, "p")?;
    let kind = ElementKind::Host(name, None, attrs, Vec::new(alloc));
    let mut children = Vec::new(alloc);
    children.push(Some(below))?;
    let element = Element::new(alloc, kind)?;
    Node::new(
        alloc,
        element,
        Mark::Host(Some(1)),
        children,
        Vec::new(alloc),
    )
}

#[test]
fn changes_a_text_and_an_attribute(rt: HostRuntime) -> Result<(), Fail> {
    let alloc = rt.alloc();
    let mut attrs = Vec::new(alloc);
    attrs.push(Attr {
        name: Name::new(alloc, "id")?,
        value: AttrValue::Number(Int::of(1)),
    })?;
    let old = paragraph(alloc, attrs, text(alloc, "a")?)?;
    let new = paragraph(alloc, Vec::new(alloc), text(alloc, "b")?)?;
    let before = hosts(alloc, Some(&old))?;
    let after = hosts(alloc, Some(&new))?;
    assert_eq!(rt; before.len(), 2);
    let changes = changes_between(alloc, Some(&old), &new)?;
    assert!(rt; changes.placed.is_empty());
    let ops = ops_between(alloc, &before, &after, &changes.placed)?;
    assert_eq!(rt; ops.len(), 2);
    Ok(())
}
