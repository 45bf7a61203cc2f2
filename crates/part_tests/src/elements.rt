// Elements, by example.
use rx_base::{Int, Name, Str};
use rx_elem::{Attr, AttrValue, Element, ElementKind};
use std::alloc::{AllocError, Global};
use std::test::Fail;

// A paragraph with one attribute, a key and one text in it.
fn paragraph(alloc: Global, text: &str) -> Result<Element, AllocError> {
    let child = Element::new(alloc, ElementKind::Text(Str::new(alloc, text)?))?;
    let attr = Attr {
        name: Name::new(alloc, "id")?,
        value: AttrValue::Number(Int::of(1)),
    };
    let name = Name::new(alloc, "p")?;
    let mut attrs = Vec::new(alloc);
    attrs.push(attr)?;
    let mut children = Vec::new(alloc);
    children.push(child)?;
    Element::new(
        alloc,
        ElementKind::Host(name, Some(Int::of(7)), attrs, children),
    )
}

#[test]
fn equal_elements_are_the_same(rt: HostRuntime) -> Result<(), Fail> {
    let element = paragraph(rt.alloc(), "a")?;
    assert!(rt; element.same(&element.copy()?));
    assert!(rt; !element.same(&paragraph(rt.alloc(), "b")?));
    assert_eq!(rt; element.size(), 2);
    Ok(())
}
