// That the tokens of a program are answered.

use rx_ast::{Body, Component, Declaration, Program, Slot};
use rx_base::Name;
use rx_print::tokens;
use std::alloc::{AllocError, Global};

/// `function App() { return null; }`, by `memo` or not, in version 2 behind `"use 2";`
fn empty_app(alloc: Global, second: bool, memo: bool) -> Result<Program, AllocError> {
    let name = Name::new(alloc, "App")?;
    let body = Body::slot(Slot::null());
    let app = Component::new(name, memo, false, Vec::new(alloc), Vec::new(alloc), body);
    let declarations = Vec::from_array(alloc, [Declaration::component(app)])?;
    Ok(Program::new(second, declarations))
}

/// How many tokens it has.
fn count(alloc: Global, second: bool, memo: bool) -> Result<usize, AllocError> {
    let program = empty_app(alloc, second, memo)?;
    let kinds = tokens(alloc, &program)?;
    Ok(kinds.len())
}

#[test]
fn the_tokens_of_a_program_are_answered(rt: HostRuntime) {
    assert!(rt; count(rt.alloc(), false, false).is_ok_and(|n| n == 9));
    assert!(rt; count(rt.alloc(), true, false).is_ok_and(|n| n == 11));
    assert!(rt; count(rt.alloc(), false, true).is_ok_and(|n| n == 16));
}
