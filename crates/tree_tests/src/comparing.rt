// Two children that change places.
use rx_base::Int;
use rx_changes::changes_between;
use rx_compare::{Outcome, outcome_of, pair_nodes};
use rx_elem::{Element, ElementKind};
use rx_lane::Lanes;
use rx_node::{Mark, Node};
use std::alloc::{AllocError, Global};
use std::test::Fail;

fn provider(alloc: Global, key: i64) -> Result<Option<Node>, AllocError> {
    let given = Int::of(0);
    let kind = ElementKind::Provider(0, Some(Int::of(key)), given, Vec::new(alloc));
    let element = Element::new(alloc, kind)?;
    let node = Node::new(
        alloc,
        element,
        Mark::Plain,
        Vec::new(alloc),
        Vec::new(alloc),
    )?;
    Ok(Some(node))
}

fn pair(alloc: Global, keys: [i64; 2]) -> Result<Node, AllocError> {
    let mut children = Vec::new(alloc);
    children.push(provider(alloc, keys[0])?)?;
    children.push(provider(alloc, keys[1])?)?;
    let element = Element::new(alloc, ElementKind::List(false, Vec::new(alloc)))?;
    Node::new(alloc, element, Mark::Plain, children, Vec::new(alloc))
}

#[test]
fn children_are_compared_by_their_keys(rt: HostRuntime) -> Result<(), Fail> {
    let old = pair(rt.alloc(), [1, 2])?;
    let new = pair(rt.alloc(), [2, 3])?;
    let pairing = pair_nodes(rt.alloc(), old.children(), new.children())?;
    assert_eq!(rt; pairing.gone().len(), 1);
    let changes = changes_between(rt.alloc(), Some(&old), &new)?;
    assert_eq!(rt; changes.placed.len(), 0);
    assert!(rt; outcome_of(Lanes::none(), changes.hidden) == Outcome::Commit);
    Ok(())
}
