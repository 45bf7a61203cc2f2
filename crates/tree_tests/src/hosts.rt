// A tree of hosts that operations change.
use rx_base::{Name, Str};
use rx_elem::AttrValue;
use rx_forest::HostOp;
use rx_host::{HostTree, replay};
use std::test::Fail;

#[test]
fn a_list_is_made(rt: HostRuntime) -> Result<(), Fail> {
    let mut tree = HostTree::new(rt.alloc());
    let ops = [
        HostOp::Create(1, Name::new(rt.alloc(), "ul")?),
        HostOp::Create(2, Name::new(rt.alloc(), "li")?),
        HostOp::CreateText(3, Str::new(rt.alloc(), "a")?),
        HostOp::Place {
            host: 1,
            parent: 0,
            before: None,
        },
        HostOp::Place {
            host: 3,
            parent: 1,
            before: None,
        },
        HostOp::Place {
            host: 2,
            parent: 1,
            before: Some(3),
        },
        HostOp::SetAttr(
            1,
            Name::new(rt.alloc(), "id")?,
            AttrValue::Text(Str::new(rt.alloc(), "x")?),
        ),
        HostOp::Hide(2),
    ];
    replay(rt.alloc(), &mut tree, &ops)?;
    assert_eq!(rt; tree.first_child(0), Some(1));
    assert_eq!(rt; tree.first_child(1), Some(2));
    assert_eq!(rt; tree.next_sibling(2), Some(3));
    assert!(rt; tree.view(2).is_some_and(|v| v.is_hidden()));
    assert!(rt; tree.view(4).is_none());
    Ok(())
}
