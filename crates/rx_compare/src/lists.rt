// The lists of a node, old and new.
ghost use Rattle.std.specs.Prelude.{◌≡◌, ◌<◌, ◌^◌, ◌∷◌, [], true, IfOk, length, option_and_then};
ghost use Rattle.std.specs.Option.{option_copied};
ghost use Rattle.rx_elem.specs.Trees.{forest, elements_in, children_if, fallback_if};
ghost use Rattle.rx_elem.specs.Compare.{node_at};
ghost use Rattle.rx_compare.specs.InPlace.{AreInPlace};
ghost use Rattle.rx_compare.specs.Matched.{element_at, IsMatched};

use rx_elem::{Element, ElementKind};
use rx_keys::{Matching, match_children};
use rx_node::Node;
use std::alloc::{AllocError, Global};

/// The children of an old node that may be missing.
pub fn children_if<'a>(old: Option<&'a Node>) -> &'a [Option<Node>]
    ensures { forest result.now ≡ children_if (option_copied old.entry) }
{
    match old {
        Some(node) => node.children(),
        None => &[],
    }
}

/// The fallback of an old node that may be missing.
pub fn fallback_if<'a>(old: Option<&'a Node>) -> &'a [Option<Node>]
    ensures { forest result.now ≡ fallback_if (option_copied old.entry) }
{
    match old {
        Some(node) => node.fallback(),
        None => &[],
    }
}

/// The node at a place of a list.
pub fn node_at(nodes: &[Option<Node>], place: Option<u32>) -> Option<&Node>
    ensures { option_copied result ≡ option_and_then (node_at (forest nodes.now)) place }
{
    nodes.get(place? as usize)?.as_ref()
}

fn element_at(alloc: Global, place: &Option<Node>) -> Result<Element, AllocError>
    ensures { IfOk result (λ e. e ≡ element_at place.now) }
{
    match place {
        Some(node) => node.element().copy(),
        None => Element::new(alloc, ElementKind::Null),
    }
}

/// The elements that a list was rendered from. A list has fewer than 2 ^ 32 places: there is no memory for more.
///
/// # Errors
///
/// Only if out of memory.
pub fn elements_of(alloc: Global, nodes: &[Option<Node>]) -> Result<Vec<Element>, AllocError>
    ensures few { IfOk result (λ es. length es.items < 2 ^ 32) }
    ensures are { IfOk result (λ es. es.items ≡ elements_in (forest nodes.now)) }
{
    if u32::try_from(nodes.len()).is_err() {
        return Err(AllocError);
    }
    let mut elements = Vec::with_capacity(alloc, nodes.len())?;
    for place in nodes {
        elements.push(element_at(alloc, place)?)?;
    }
    Ok(elements)
}

// Whether what stands at a place of the new list is the old node there, or both places are vacant.
fn is_in_place(old: &Option<Node>, new: &Option<Node>) -> bool
    ensures { result ≡ true → AreInPlace (forest (old.now ∷ [])) (forest (new.now ∷ [])) }
{
    match (old, new) {
        (Some(old), Some(new)) => {
            let (was, is) = (old.element(), new.element());
            was.key() == is.key() && is.is_same_kind(was)
        }
        (None, None) => true,
        _ => false,
    }
}

/// Whether each new child is the old one at its place, and none is gone. Then nothing is to be matched.
pub fn are_in_place(old: &[Option<Node>], new: &[Option<Node>]) -> bool
    ensures { result ≡ true → AreInPlace (forest old.now) (forest new.now) }
{
    if old.len() != new.len() {
        return false;
    }
    for place in 0..new.len() {
        if !is_in_place(&old[place], &new[place]) {
            return false;
        }
    }
    true
}

/// Which of the new children is which old one, which of them moved, and which old ones are gone.
///
/// # Errors
///
/// Only if out of memory.
pub fn match_nodes(
    alloc: Global,
    old: &[Option<Node>],
    new: &[Option<Node>],
) -> Result<Matching, AllocError>
    ensures { IfOk result (IsMatched (forest old.now) (elements_in (forest new.now))) }
{
    let old = elements_of(alloc, old)?;
    let new = elements_of(alloc, new)?;
    match_children(alloc, &old, &new)
}
