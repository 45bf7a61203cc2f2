// Nodes over what their lists give.
ghost use Rattle.std.specs.Prelude.{◌≡◌, Some, true, IfOk, slice_set};
ghost use Rattle.std.specs.Option.{option_copied};
ghost use Rattle.rx_elem.specs.Elements as elements;
ghost use Rattle.rx_elem.specs.Trees.{node, forest, node_over, old_caught};
ghost use Rattle.rx_meaning.specs.Fresh.{made, old_host, one_waits, over, over_boundary};
ghost use Rattle.rx_node.specs.MarkView.{mark_seen};
ghost use Rattle.rx_fresh.specs.PlaceView.{place_seen, places_seen};
ghost use Rattle.rx_fresh.specs.Texts.{text_node};

use crate::lists::copy_all;
use crate::place::{Place, Places};
use rx_base::{Awaits, Int, Str};
use rx_compare::children_if;
use rx_elem::{Element, ElementKind};
use rx_eval::same_bytes;
use rx_node::{Mark, Node};
use rx_susp::BoundaryState;
use std::alloc::{AllocError, Global};

// The number of an old host.
pub(crate) fn old_host(old: Option<&Node>) -> Option<u64>
    ensures { result ≡ old_host (option_copied old.entry) }
{
    match old?.mark() {
        Mark::Host(number) => *number,
        Mark::Instance(_) | Mark::Boundary(_) | Mark::Catch(_) | Mark::Plain => None,
    }
}

// What an old error boundary had caught.
pub(crate) fn old_caught(old: Option<&Node>) -> Option<Int>
    ensures { result ≡ old_caught (option_copied old.entry) }
{
    old?.mark().caught()
}

// The values of the contexts below a provider.
pub(crate) fn below_provider(
    alloc: Global,
    contexts: &[Int],
    context: u32,
    given: Int,
) -> Result<Vec<Int>, AllocError>
    ensures { IfOk result (λ v. v.items ≡ slice_set contexts.now context given) }
{
    let mut values = Vec::from_slice(alloc, contexts)?;
    if (context as usize) < values.len() {
        values[context as usize] = given;
    }
    Ok(values)
}

// A node with these lists.
pub(crate) fn node_with(
    alloc: Global,
    element: &Element,
    mark: Mark,
    children: Vec<Option<Node>>,
    fallback: Vec<Option<Node>>,
) -> Result<Place, AllocError>
    ensures { IfOk result (λ x. place_seen x ≡ made (node element.now (mark_seen mark) (forest children.items) (forest fallback.items))) }
{
    let element = element.copy()?;
    let node = Node::new(alloc, element, mark, children, fallback)?;
    Ok(Place::Made(node))
}

// Whether an element is this text.
fn has_text(element: &Element, text: &Str) -> bool
    ensures { result ≡ true → element.now ≡ elements.text text.now }
{
    match element.kind() {
        ElementKind::Text(own) => { same_bytes(own.text().as_bytes(), text.text().as_bytes()) }
        _ => false,
    }
}

// Whether an old node is one of this text.
pub(crate) fn is_text_node(node: &Node, text: &Str) -> bool
    ensures { result ≡ true → node.now ≡ text_node text.now (old_host (Some node.now)) }
{
    node.is_text() && has_text(node.element(), text)
}

// A text. Where the old node is the same, it stays.
pub(crate) fn text_place(
    alloc: Global,
    element: &Element,
    text: &Str,
    old: Option<&Node>,
) -> Result<Place, AllocError>
    requires { element.now ≡ elements.text text.now }
    ensures { IfOk result (λ x. place_seen x ≡ made (text_node text.now (old_host (option_copied old.entry)))) }
{
    if let Some(node) = old
        && is_text_node(node, text)
    {
        return Ok(Place::Made(node.copy()?));
    }
    let mark = Mark::Host(old_host(old));
    node_with(alloc, element, mark, Vec::new(alloc), Vec::new(alloc))
}

// A node over its one list: of an error boundary that has caught a value, its fallback.
fn node_over(
    alloc: Global,
    element: &Element,
    mark: Mark,
    nodes: Vec<Option<Node>>,
) -> Result<Place, AllocError>
    ensures { IfOk result (λ x. place_seen x ≡ made (node_over element.now (mark_seen mark) (forest nodes.items))) }
{
    if mark.is_caught() {
        node_with(alloc, element, mark, Vec::new(alloc), nodes)
    } else {
        node_with(alloc, element, mark, nodes, Vec::new(alloc))
    }
}

// A node over its list, if none of that waits or throws.
pub(crate) fn over(
    alloc: Global,
    element: &Element,
    mark: Mark,
    places: Places,
) -> Result<Place, AllocError>
    ensures { IfOk result (λ x. place_seen x ≡ over element.now (mark_seen mark) (places_seen places)) }
{
    match places {
        Places::AllMade(nodes) => node_over(alloc, element, mark, nodes),
        Places::OneWaits(awaits) => Ok(Place::Waits(awaits)),
        Places::OneThrows(value) => Ok(Place::Throws(value)),
    }
}

// A boundary whose children wait: it hides the old ones behind its fallback (react.dev, Suspense). If that waits too, it waits
// outwards for both.
pub(crate) fn hidden(
    alloc: Global,
    element: &Element,
    old: Option<&Node>,
    waits: Awaits,
    places: Places,
) -> Result<Place, AllocError>
    ensures { IfOk result (λ x. place_seen x ≡ over_boundary element.now (option_copied old.entry) (one_waits waits) (places_seen places)) }
{
    match places {
        Places::AllMade(nodes) => {
            let kept = copy_all(alloc, children_if(old))?;
            let mark = Mark::Boundary(BoundaryState::Hidden(waits));
            node_with(alloc, element, mark, kept, nodes)
        }
        Places::OneWaits(awaits) => Ok(Place::Waits(waits.union(awaits))),
        Places::OneThrows(value) => Ok(Place::Throws(value)),
    }
}
