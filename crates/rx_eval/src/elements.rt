// What slots give.
ghost use Rattle.std.specs.Prelude.{◌≡◌, ◌≤◌, IfOk, pos, true};
ghost use Rattle.std.specs.Fmt.{signed_decimal};
ghost use Rattle.rx_ast.specs.Syntax.{slots_of, repeated};
ghost use Rattle.rx_elem.specs.Elements.{text, list, gathered};
ghost use Rattle.rx_meaning.specs.Body.{element_of, elements_of, turns};
ghost use Rattle.rx_eval.specs.Loops.{HasShortLoops, HaveShortLoops};

use crate::arithmetic::is_zero;
use crate::attributes::{attrs_of, element_key, props_of};
use crate::env::Env;
use crate::evaluator::Evaluator;
use itoa::Buffer;
use rx_ast::{Child, ChildKind, Content, Element as Written, For, Slot, SlotKind, Tag};
use rx_base::{Int, Name, Str};
use rx_elem::{Element, ElementKind};
use std::alloc::{AllocError, Global};

/// An integer, shown as a text.
fn number(alloc: Global, value: Int) -> Result<Element, AllocError>
    ensures { IfOk result (λ e. e ≡ text (signed_decimal value)) }
{
    let mut buffer = Buffer::new();
    let text = Str::new(alloc, buffer.format(value.value()))?;
    Element::new(alloc, ElementKind::Text(text))
}

/// The children that a component is given, where it places them (react.dev, Passing JSX as children). They are shared.
fn placed(alloc: Global, children: &[Element]) -> Result<Element, AllocError>
    ensures { IfOk result (λ e. e ≡ list true (gathered children.now)) }
{
    let mut copies = Vec::with_capacity(alloc, children.len())?;
    for child in children {
        copies.push(child.copy()?)?;
    }
    Element::new(alloc, ElementKind::List(true, copies))
}

/// How many turns a `for` makes.
fn turns(bound: Int, limit: u64) -> u64
    ensures { result ≡ turns bound limit }
{
    let bound = bound.value();
    if bound < 0 {
        return 0;
    }
    limit.min(bound as u64)
}

/// The index of an item.
fn index_value(index: u64) -> Int
    requires { index ≤ 1024 }
    ensures { result ≡ pos index }
{
    Int::of(index as i64)
}

/// The element of a slot, with the given children standing for `children`.
#[cycle(element)]
pub(crate) fn element(
    alloc: Global,
    evaluator: &Evaluator,
    children: &[Element],
    env: &Env,
    slot: &Slot,
) -> Result<Element, AllocError>
    requires { HasShortLoops slot.now }
    ensures { IfOk result (λ e. e ≡ element_of evaluator.now children.now env.now slot.now) }
{
    match &slot.kind {
        SlotKind::Null => Element::new(alloc, ElementKind::Null),
        SlotKind::Text(text) => {
            let text = Str::new(alloc, text.text())?;
            Element::new(alloc, ElementKind::Text(text))
        }
        SlotKind::Value(expr) => number(alloc, evaluator.value(env, expr)),
        SlotKind::Children => placed(alloc, children),
        SlotKind::For(repetition) => repetition_of(alloc, evaluator, children, env, repetition),
        SlotKind::Choice {
            test,
            first,
            second,
        } => {
            if is_zero(evaluator.value(env, test)) {
                element(alloc, evaluator, children, env, second)
            } else {
                element(alloc, evaluator, children, env, first)
            }
        }
        SlotKind::Element(written) | SlotKind::Enclosed(written) => written_element(
            alloc, evaluator, children, env, written,
        ),
    }
}

/// The items of a `for` (react.dev, Rendering Lists), each with its index.
#[cycle(element)]
fn repetition_of(
    alloc: Global,
    evaluator: &Evaluator,
    children: &[Element],
    env: &Env,
    repetition: &For,
) -> Result<Element, AllocError>
    requires few { repetition.now.limit ≤ 1024 }
    requires item { HasShortLoops repetition.now.item }
    ensures { IfOk result (λ e. e ≡ element_of evaluator.now children.now env.now (repeated repetition.now.index repetition.now.bound repetition.now.limit repetition.now.item)) }
{
    let count = turns(evaluator.value(env, &repetition.bound), repetition.limit);
    let mut items = Vec::with_capacity(alloc, count as usize)?;
    for index in 0..count {
        let env = (&*env).with(&repetition.index, index_value(index));
        items.push(element(alloc, evaluator, children, &env, &repetition.item)?)?;
    }
    Element::new(alloc, ElementKind::List(false, items))
}

/// An element with what it is given.
#[cycle(element)]
fn written_element(
    alloc: Global,
    evaluator: &Evaluator,
    children: &[Element],
    env: &Env,
    written: &Written,
) -> Result<Element, AllocError>
    requires { HasShortLoops written.now }
    ensures { IfOk result (λ e. e ≡ element_of evaluator.now children.now env.now written.now) }
{
    let inner = match &written.content {
        Content::AtOnce => Vec::new(alloc),
        Content::Children(inner) => elements(alloc, evaluator, children, env, inner)?,
    };
    let key = element_key(evaluator, env, written);
    let kind = match &written.tag {
        Tag::Host { name, attributes } => {
            let attrs = attrs_of(alloc, evaluator, env, attributes)?;
            ElementKind::Host(Name::new(alloc, name.text())?, key, attrs, inner)
        }
        Tag::Component { name, attributes } => {
            let component = evaluator.component(name);
            let props = props_of(alloc, evaluator, env, attributes, component)?;
            ElementKind::Comp(component, key, props, inner)
        }
        Tag::Suspense { fallback, .. } => {
            let fallback = element(alloc, evaluator, children, env, fallback)?;
            ElementKind::Boundary(key, fallback, inner)
        }
        Tag::Catch { fallback, .. } => {
            let fallback = element(alloc, evaluator, children, env, fallback)?;
            ElementKind::Catch(key, fallback, inner)
        }
        Tag::Provider { context, value, .. } => {
            let context = evaluator.context(context);
            ElementKind::Provider(context, key, evaluator.value(env, value), inner)
        }
    };
    Element::new(alloc, kind)
}

/// The element of a place of a child list.
#[cycle(element)]
fn child_element(
    alloc: Global,
    evaluator: &Evaluator,
    children: &[Element],
    env: &Env,
    child: &Child,
) -> Result<Element, AllocError>
    requires { HasShortLoops child.now }
    ensures { IfOk result (λ e. e ≡ element_of evaluator.now children.now env.now child.now) }
{
    match &child.kind {
        ChildKind::Element(written) => written_element(alloc, evaluator, children, env, written),
        ChildKind::Braced(slot) => element(alloc, evaluator, children, env, slot),
    }
}

/// The elements of a child list.
#[cycle(element)]
pub(crate) fn elements(
    alloc: Global,
    evaluator: &Evaluator,
    children: &[Element],
    env: &Env,
    list: &[Child],
) -> Result<Vec<Element>, AllocError>
    requires { HaveShortLoops (slots_of list.now) }
    ensures { IfOk result (λ v. v.items ≡ elements_of evaluator.now children.now env.now (slots_of list.now)) }
{
    let mut elements = Vec::with_capacity(alloc, list.len())?;
    for child in list {
        elements.push(child_element(alloc, evaluator, children, env, child)?)?;
    }
    Ok(elements)
}
