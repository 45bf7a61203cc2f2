// Children of before, by example.
use rx_base::{Int, Ints};
use rx_elem::{Element, ElementKind};
use rx_keys::match_children;
use std::alloc::{AllocError, Global};
use std::test::Fail;

fn keyed(alloc: Global, keys: [i64; 3]) -> Result<Vec<Element>, AllocError> {
    let mut children = Vec::new(alloc);
    for key in keys {
        let props = Ints::new(Vec::new(alloc));
        children.push(Element::new(
            alloc,
            ElementKind::Comp(0, Some(Int::of(key)), props, Vec::new(alloc)),
        )?)?;
    }
    Ok(children)
}

#[test]
fn children_are_found_by_their_keys(rt: HostRuntime) -> Result<(), Fail> {
    let old = keyed(rt.alloc(), [1, 2, 3])?;
    let new = keyed(rt.alloc(), [3, 1, 4])?;
    if old.len() < 100 && new.len() < 100 {
        let matching = match_children(rt.alloc(), &old, &new)?;
        assert_eq!(rt;
            matching.places.as_slice(),
            [Some(2), Some(0), None].as_slice()
        );
        assert_eq!(rt; matching.moved.as_slice(), [false, true, false].as_slice());
        assert_eq!(rt; matching.removed.as_slice(), [1].as_slice());
    }
    Ok(())
}
