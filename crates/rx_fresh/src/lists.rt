// Lists of children, old and new.
ghost use Rattle.std.specs.Prelude.{◌≡◌, ◌<◌, ◌^◌, ◌∷◌, [], true, IfOk, length, map};
ghost use Rattle.rx_elem.specs.Elements.{key_of, kind_of, same_kind};
ghost use Rattle.rx_elem.specs.Identity.{old_places};
ghost use Rattle.rx_elem.specs.Trees.{forest, elements_in};
ghost use Rattle.rx_compare.specs.Matched.{element_at};
ghost use Rattle.rx_fresh.specs.Texts.{AreSameTexts, IsTextAt, IsTextOf};

use crate::nodes::is_text_node;
use rx_base::Int;
use rx_compare::elements_of;
use rx_elem::{Element, ElementKind};
use rx_keys::places_of;
use rx_node::Node;
use std::alloc::{AllocError, Global};

// The key of what stands at a place of an old list.
fn key_at(place: &Option<Node>) -> Option<Int>
    ensures { result ≡ key_of (element_at place.now) }
{
    place.as_ref()?.element().key()
}

// Whether the old children have the keys of the new ones, place by place.
fn have_keys_of(old: &[Option<Node>], new: &[Element]) -> bool
    ensures { result ≡ true → map key_of (elements_in (forest old.now)) ≡ map key_of new.now }
{
    if old.len() != new.len() {
        return false;
    }
    for place in 0..new.len() {
        if key_at(&old[place]) != new[place].key() {
            return false;
        }
    }
    true
}

// Whether a node is that of the text that an element is.
fn is_text_of(node: &Node, element: &Element) -> bool
    ensures { result ≡ true → IsTextOf node.now element.now }
{
    match element.kind() {
        ElementKind::Text(text) => is_text_node(node, text),
        _ => false,
    }
}

// Whether an old place has the node of the text that an element is.
fn is_text_at(place: &Option<Node>, element: &Element) -> bool
    ensures { result ≡ true → IsTextAt place.now element.now }
{
    match place {
        Some(node) => is_text_of(node, element),
        None => false,
    }
}

// Whether each old place has the node of the text that stands there anew.
pub(crate) fn same_texts(old: &[Option<Node>], elements: &[Element]) -> bool
    ensures { result ≡ true → AreSameTexts (forest old.now) elements.now }
{
    if old.len() != elements.len() {
        return false;
    }
    for place in 0..elements.len() {
        if !is_text_at(&old[place], &elements[place]) {
            return false;
        }
    }
    true
}

// Whether a new child is of the kind of the old one at its place.
fn is_same_at(place: &Option<Node>, child: &Element) -> bool
    ensures { result ≡ same_kind (kind_of child.now) (kind_of (element_at place.now)) }
{
    match place {
        Some(node) => child.is_same_kind(node.element()),
        None => false,
    }
}

// The places of the old children, if the keys are the same.
fn places_by_kind(
    alloc: Global,
    old: &[Option<Node>],
    new: &[Element],
) -> Result<Vec<Option<u32>>, AllocError>
    requires few { length new.now < 2 ^ 32 }
    requires keys { map key_of (elements_in (forest old.now)) ≡ map key_of new.now }
    ensures { IfOk result (λ v. v.items ≡ old_places (elements_in (forest old.now)) new.now) }
{
    let mut places = Vec::with_capacity(alloc, new.len())?;
    for place in 0..new.len() {
        let is_same = is_same_at(&old[place], &new[place]);
        places.push(is_same.then_some(place as u32))?;
    }
    Ok(places)
}

// For each new child the place of the old child that it is, if it is one. A list has fewer than 2 ^ 32 places: there is no
// memory for more. Where the keys are the same, no element of an old child is taken.
pub(crate) fn old_places(
    alloc: Global,
    old: &[Option<Node>],
    new: &[Element],
) -> Result<Vec<Option<u32>>, AllocError>
    ensures are { IfOk result (λ v. v.items ≡ old_places (elements_in (forest old.now)) new.now) }
    ensures each { IfOk result (λ v. length v.items ≡ length new.now) }
{
    if u32::try_from(new.len()).is_err() {
        return Err(AllocError);
    }
    if have_keys_of(old, new) {
        return places_by_kind(alloc, old, new);
    }
    let old = elements_of(alloc, old)?;
    places_of(alloc, &old, new)
}

fn copy_place(place: &Option<Node>) -> Result<Option<Node>, AllocError>
    ensures { IfOk result (λ p. p ≡ place.now) }
{
    match place {
        Some(node) => Ok(Some(node.copy()?)),
        None => Ok(None),
    }
}

// The same children, by one handle more of each.
pub(crate) fn copy_all(
    alloc: Global,
    nodes: &[Option<Node>],
) -> Result<Vec<Option<Node>>, AllocError>
    ensures { IfOk result (λ v. v.items ≡ nodes.now) }
{
    let mut copies = Vec::with_capacity(alloc, nodes.len())?;
    for place in nodes {
        copies.push_reserved(copy_place(place)?);
    }
    Ok(copies)
}

// A list of one element.
pub(crate) fn single(alloc: Global, element: &Element) -> Result<Vec<Element>, AllocError>
    ensures { IfOk result (λ v. v.items ≡ element.now ∷ []) }
{
    let mut elements = Vec::with_capacity(alloc, 1)?;
    elements.push(element.copy()?)?;
    Ok(elements)
}
