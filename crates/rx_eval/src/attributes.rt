// What elements are given.
ghost use Rattle.std.specs.Prelude.{◌≡◌, IfOk, Option, Some, None, MatchOption, map, filter_map};
ghost use Rattle.rx_ast.specs.Syntax.{slot_key};
ghost use Rattle.rx_rules.specs.Names.{integer_in};
ghost use Rattle.rx_meaning.specs.Expressions.{value_in};
ghost use Rattle.rx_meaning.specs.Body.{attr_in, prop_named, props_of, key_value};

use crate::env::Env;
use crate::evaluator::Evaluator;
use rx_ast::{Attribute, AttributeKind, Element, Expr, Parameter, ParameterKind};
use rx_base::{Int, Ints, Name, Str};
use rx_elem::{Attr, AttrValue};
use rx_names::same_bytes;
use std::alloc::{AllocError, Global};

/// The attribute that a host gets; a key is none.
fn attr_in(
    alloc: Global,
    evaluator: &Evaluator,
    env: &Env,
    attribute: &Attribute,
) -> Result<Option<Attr>, AllocError>
    ensures { IfOk result (λ a. a ≡ attr_in evaluator.now env.now attribute.now) }
{
    match &attribute.kind {
        AttributeKind::Key(_) => Ok(None),
        AttributeKind::Computed { name, value } => {
            let value = AttrValue::Number(evaluator.value(env, value));
            let name = Name::new(alloc, name.text())?;
            Ok(Some(Attr { name, value }))
        }
        AttributeKind::Literal { name, text } => {
            let value = AttrValue::Text(Str::new(alloc, text.text())?);
            let name = Name::new(alloc, name.text())?;
            Ok(Some(Attr { name, value }))
        }
    }
}

/// The attributes that a host gets, in order.
pub(crate) fn attrs_of(
    alloc: Global,
    evaluator: &Evaluator,
    env: &Env,
    attributes: &[Attribute],
) -> Result<Vec<Attr>, AllocError>
    ensures { IfOk result (λ v. v.items ≡ filter_map (attr_in evaluator.now env.now) attributes.now) }
{
    let mut attrs = Vec::new(alloc);
    for attribute in attributes {
        if let Some(attr) = attr_in(alloc, evaluator, env, attribute)? {
            attrs.push(attr)?;
        }
    }
    Ok(attrs)
}

/// What a parameter is given; 0 if no attribute has its name, as in no program that is accepted.
fn prop_named(evaluator: &Evaluator, env: &Env, attributes: &[Attribute], name: &Name) -> Int
    ensures { result ≡ prop_named evaluator.now env.now attributes.now name.now }
{
    for attribute in attributes {
        if let AttributeKind::Computed { name: given, value } = &attribute.kind {
            if same_bytes(given.text().as_bytes(), name.text().as_bytes()) {
                return evaluator.value(env, value);
            }
        }
    }
    Int::of(0)
}

/// What attributes give to each of these parameters that is an integer.
fn props_for(
    alloc: Global,
    evaluator: &Evaluator,
    env: &Env,
    attributes: &[Attribute],
    parameters: &[Parameter],
) -> Result<Ints, AllocError>
    ensures { IfOk result (λ xs. xs ≡ map (prop_named evaluator.now env.now attributes.now) (filter_map integer_in parameters.now)) }
{
    let mut props = Vec::with_capacity(alloc, parameters.len())?;
    for parameter in parameters {
        if let ParameterKind::Integer(name) = &parameter.kind {
            props.push(prop_named(evaluator, env, attributes, name))?;
        }
    }
    Ok(Ints::new(props))
}

/// The props of a component's element, in the order of the component's parameters (react.dev, Passing Props to a Component).
pub(crate) fn props_of(
    alloc: Global,
    evaluator: &Evaluator,
    env: &Env,
    attributes: &[Attribute],
    component: u32,
) -> Result<Ints, AllocError>
    ensures { IfOk result (λ xs. xs ≡ props_of evaluator.now env.now attributes.now component) }
{
    match evaluator.component_at(component) {
        None => Ok(Ints::new(Vec::new(alloc))),
        Some(component) => props_for(alloc, evaluator, env, attributes, component.parameters()),
    }
}

/// The value of a key (react.dev, Rendering Lists).
fn key_value(evaluator: &Evaluator, env: &Env, key: Option<&Expr>) -> Option<Int>
    ensures { MatchOption key.entry (result ≡ None) (λ e. result ≡ Some (value_in evaluator.now env.now e.now)) }
{
    match key {
        None => None,
        Some(key) => Some(evaluator.value(env, key)),
    }
}

/// The value of an element's key.
pub(crate) fn element_key(evaluator: &Evaluator, env: &Env, element: &Element) -> Option<Int>
    ensures { result ≡ key_value evaluator.now env.now (slot_key element.now) }
{
    key_value(evaluator, env, element.key())
}
