// What an element's fiber begins with.
ghost use Rattle.std.specs.Prelude.{◌≡◌, ◌∷◌, ◌<◌, [], true, length, IfOk, IfSome, OnOk, is_some, option_map};
ghost use Rattle.rx_ctx.specs.Contexts.{same_given, values_at};
ghost use Rattle.rx_fiber.specs.FiberView.{stage_seen};
ghost use Rattle.rx_fiber.specs.Stood.{given_in};
ghost use Rattle.rx_fiber.specs.Surround.{fallback_in};
ghost use Rattle.rx_children.specs.Nodes.{parts_in, begun_stage, begun_children, begun_stack, given_context};
ghost use Rattle.rx_children.specs.PartsView.{parts_seen};

use rx_base::{Int, Ints};
use rx_ctx::ContextStack;
use rx_elem::{Element, ElementKind};
use rx_fiber::{Origin, Stage};
use rx_node::Mark;
use std::alloc::{AllocError, Global};

/// The number, the props and the children of a component's element.
#[derive(Clone, Copy)]
pub struct Parts<'a> {
    /// The number of the component, by its place in the program.
    pub component: u32,
    /// The values of its props, in the order of their declaration.
    pub props: &'a Ints,
    /// The elements that stand for its `children`.
    pub children: &'a [Element],
}

#[tactic(auto, using(crate::proofs::Lists::listed_gathered))]
/// The parts of a component's element, if it is one.
pub fn parts_of(element: &Element) -> Option<Parts>
    ensures { option_map parts_seen result ≡ parts_in element.now }
{
    match element.kind() {
        ElementKind::Comp(component, _, props, children) => Some(Parts {
            component: *component,
            props,
            children,
        }),
        _ => None,
    }
}

/// Whether the element is a component's.
pub fn is_component(element: &Element) -> bool
    ensures { result ≡ is_some (parts_in element.now) }
{
    matches!(element.kind(), ElementKind::Comp(_, _, _, _))
}

/// How far the fiber of another element has come once it is begun, if so much is known of its place.
pub fn begun_stage(element: &Element, origin: Origin, number: Option<u64>) -> Stage
    ensures { stage_seen result ≡ begun_stage element.now origin number }
{
    match element.kind() {
        ElementKind::Null | ElementKind::Comp(_, _, _, _) => Stage::Waiting(origin),
        ElementKind::Text(_) | ElementKind::Host(_, _, _, _) => Stage::Begun(Mark::Host(number)),
        ElementKind::List(_, _) | ElementKind::Provider(_, _, _, _) => Stage::Begun(Mark::Plain),
        ElementKind::Boundary(_, _, _) => Stage::Trying(origin),
        ElementKind::Catch(_, _, _) => Stage::Guarding,
    }
}

#[tactic(auto, using(crate::proofs::Lists::listed_gathered))]
/// The children that it is begun over.
pub fn begun_children(element: &Element) -> &[Element]
    ensures { result.now ≡ begun_children element.now }
{
    match element.kind() {
        ElementKind::Host(_, _, _, children) => children,
        ElementKind::List(_, children) => children,
        ElementKind::Boundary(_, _, children) => children,
        ElementKind::Catch(_, _, children) => children,
        ElementKind::Provider(_, _, _, children) => children,
        _ => &[],
    }
}

/// The fallback of a boundary, of Suspense or of errors, as a list.
///
/// # Errors
///
/// Only if out of memory.
pub fn fallback_list(alloc: Global, element: &Element) -> Result<Vec<Element>, AllocError>
    ensures { IfOk result (λ es. es.items ≡ fallback_in element.now ∷ []) }
{
    let fallback = match element.kind() {
        ElementKind::Boundary(_, fallback, _) | ElementKind::Catch(_, fallback, _) => {
            fallback.copy()?
        }
        _ => Element::new(alloc, ElementKind::Null)?,
    };
    let mut list = Vec::new(alloc);
    list.push(fallback)?;
    Ok(list)
}

/// What a provider's element gives: to which context, and which value.
pub(crate) fn given_in(element: &Element) -> Option<(u32, Int)>
    ensures { result ≡ given_in element.now }
{
    match element.kind() {
        ElementKind::Provider(context, _, value, _) => Some((*context, *value)),
        _ => None,
    }
}

/// Whether both give nothing, or one context the same value.
pub(crate) fn same_given(given: Option<(u32, Int)>, other: Option<(u32, Int)>) -> bool
    ensures { result ≡ same_given given other }
{
    match (given, other) {
        (None, None) => true,
        (Some((context, value)), Some((other_context, other_value))) => {
            context == other_context && value.same(other_value)
        }
        _ => false,
    }
}

/// Gives a provider's value to those below it; any other element leaves the stack as it is. `moves` tells whether it is another
/// value than the provider's old node gave.
///
/// # Errors
///
/// Only if out of memory.
pub fn enter(element: &Element, moves: bool, contexts: &mut ContextStack) -> Result<(), AllocError>
    requires { IfSome (given_context element.now) (λ c. c < length (values_at contexts.old)) }
    ensures { OnOk result (contexts.new ≡ begun_stack element.now moves contexts.old) }
{
    if let ElementKind::Provider(context, _, value, _) = element.kind() {
        contexts.push(*context, *value, moves)?;
    }
    Ok(())
}
