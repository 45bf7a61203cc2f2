// A body, by example.
ghost use Rattle.std.specs.Prelude.{◌≡◌};

use rx_ast::{
    Body as Returned, Child, Component, Declaration, Element, Expr, Function, KeyPlace, Link,
    Operator, Program, Slot, Statement, Tag,
};
use rx_base::{Int, Name, Steps};
use rx_check::{Checked, check};
use rx_eval::{Body, Inputs, apply_fn, eval_body, init_hooks};
use std::alloc::{AllocError, Global};
use std::marker::Brand;
use std::sync::ledger::{Blank, Ledger};
use std::test::Fail;

/// `function add(s, a) { return s + a; }`
fn add(alloc: Global) -> Result<Function, AllocError> {
    let mut parameters = Vec::new(alloc);
    parameters.push(Name::new(alloc, "s")?)?;
    parameters.push(Name::new(alloc, "a")?)?;
    let mut links = Vec::new(alloc);
    links.push(Link {
        operator: Operator::Add,
        operand: Expr::variable(Name::new(alloc, "a")?),
    })?;
    let first = Expr::variable(Name::new(alloc, "s")?);
    let sum = Expr::chain(alloc, first, links)?;
    Ok(Function::new(Name::new(alloc, "add")?, parameters, Vec::new(alloc), sum))
}

/// `function App() { const [n, send] = useReducer(add, 3); return <p/>; }`
fn app(alloc: Global) -> Result<Component, AllocError> {
    let mut statements = Vec::new(alloc);
    statements.push(Statement::reducer(
        Name::new(alloc, "n")?,
        Name::new(alloc, "send")?,
        Name::new(alloc, "add")?,
        Expr::number(3),
    ))?;
    let paragraph = Element::ended(Tag::Host {
        name: Name::new(alloc, "p")?,
        attributes: Vec::new(alloc),
    });
    Ok(Component::new(
        Name::new(alloc, "App")?,
        false,
        false,
        Vec::new(alloc),
        statements,
        Returned::slot(Slot::element(paragraph)),
    ))
}

/// A program with a reducer.
fn counter(alloc: Global) -> Result<Program, AllocError> {
    let mut declarations = Vec::new(alloc);
    declarations.push(Declaration::function(add(alloc)?))?;
    declarations.push(Declaration::component(app(alloc)?))?;
    Ok(Program::new(false, declarations))
}

/// How many elements and initial values the root gives at mount.
fn mounted<L: Ledger>(
    alloc: Global,
    checked: &Checked,
    steps: &mut Steps<L>,
) -> Result<usize, AllocError> {
    let inputs = Inputs {
        props: &[],
        children: &[],
        hooks: None,
        contexts: &[],
        versions: &[],
        resources: &[],
    };
    let Some(root) = checked.program().component(0) else {
        return Ok(0);
    };
    if !root.parameters().is_empty() {
        return Ok(0);
    }
    match eval_body(alloc, checked, 0, &inputs, steps)? {
        Body::Wait(..) | Body::Throw(_) => Ok(0),
        Body::Ready { elements, .. } => {
            let initials = init_hooks(alloc, checked, 0, &inputs)?;
            let values = initials.as_slice();
            Ok(if values.len() == 1 { elements.len() } else { 0 })
        }
    }
}

/// The same, counting bodies for a ledger.
fn counted<L: Ledger>(alloc: Global, checked: &Checked, blank: Blank) -> Result<usize, AllocError>
    requires name { blank.name ≡ L.name }
    requires parts { blank.parts ≡ L.parts }
    requires one { blank.parts ≡ 1 }
{
    let mut steps: Steps<L> = Steps::new(blank);
    mounted(alloc, checked, &mut steps)
}

#[test]
fn a_body_is_evaluated(rt: HostRuntime) -> Result<(), Fail> {
    let program = counter(rt.alloc())?;
    let checked = check(rt.alloc(), program)?;
    assert_eq!(rt; counted::<Brand>(rt.alloc(), &checked, Blank::new(1))?, 1);
    assert_eq!(rt; apply_fn(&checked, 0, Int::of(3), Int::of(4)).value(), 7);
    Ok(())
}

/// `function T() { throwIf(0); throwIf(7); return null; }`
fn thrower(alloc: Global) -> Result<Component, AllocError> {
    let mut statements = Vec::new(alloc);
    statements.push(Statement::throw_if(Expr::number(0)))?;
    statements.push(Statement::throw_if(Expr::number(7)))?;
    Ok(Component::new(
        Name::new(alloc, "T")?,
        false,
        false,
        Vec::new(alloc),
        statements,
        Returned::slot(Slot::null()),
    ))
}

/// `function App() { return <Catch fallback={null}><T/></Catch>; }`
fn catcher(alloc: Global) -> Result<Component, AllocError> {
    let mut children = Vec::new(alloc);
    children.push(Child::element(Element::ended(Tag::Component {
        name: Name::new(alloc, "T")?,
        attributes: Vec::new(alloc),
    })))?;
    let tag = Tag::Catch {
        key: KeyPlace::Unkeyed,
        fallback: Box::new(alloc, Slot::null())?,
    };
    Ok(Component::new(
        Name::new(alloc, "App")?,
        false,
        false,
        Vec::new(alloc),
        Vec::new(alloc),
        Returned::slot(Slot::element(Element::filled(tag, children))),
    ))
}

/// A program whose first component throws.
fn throwing(alloc: Global) -> Result<Program, AllocError> {
    let mut declarations = Vec::new(alloc);
    declarations.push(Declaration::component(thrower(alloc)?))?;
    declarations.push(Declaration::component(catcher(alloc)?))?;
    Ok(Program::new(false, declarations))
}

/// What the first component throws at mount, 0 if it throws nothing.
fn thrown<L: Ledger>(
    alloc: Global,
    checked: &Checked,
    steps: &mut Steps<L>,
) -> Result<i64, AllocError> {
    let inputs = Inputs {
        props: &[],
        children: &[],
        hooks: None,
        contexts: &[],
        versions: &[],
        resources: &[],
    };
    let Some(first) = checked.program().component(0) else {
        return Ok(0);
    };
    if !first.parameters().is_empty() {
        return Ok(0);
    }
    match eval_body(alloc, checked, 0, &inputs, steps)? {
        Body::Throw(value) => Ok(value.value()),
        Body::Wait(..) | Body::Ready { .. } => Ok(0),
    }
}

/// The same, counting bodies for a ledger.
fn thrown_in<L: Ledger>(alloc: Global, checked: &Checked, blank: Blank) -> Result<i64, AllocError>
    requires name { blank.name ≡ L.name }
    requires parts { blank.parts ≡ L.parts }
    requires one { blank.parts ≡ 1 }
{
    let mut steps: Steps<L> = Steps::new(blank);
    thrown(alloc, checked, &mut steps)
}

#[test]
fn the_first_value_that_is_not_0_is_thrown(rt: HostRuntime) -> Result<(), Fail> {
    let program = throwing(rt.alloc())?;
    let checked = check(rt.alloc(), program)?;
    assert_eq!(rt; thrown_in::<Brand>(rt.alloc(), &checked, Blank::new(1))?, 7);
    Ok(())
}
