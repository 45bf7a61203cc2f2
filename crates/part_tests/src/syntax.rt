// That the calls which take memory answer a tree.

use rx_ast::{Expr, Prefix, Slot};
use rx_base::Name;
use std::alloc::{AllocError, Global};

/// Whether there is an expression.
fn is_expr(made: Result<Expr, AllocError>) -> bool {
    made.is_ok()
}

/// Whether there is a slot.
fn is_slot(made: Result<Slot, AllocError>) -> bool {
    made.is_ok()
}

/// `for (i < 2, 64) null`
fn repeated(alloc: Global) -> Result<Slot, AllocError> {
    let index = Name::new(alloc, "i")?;
    Slot::repeated(alloc, index, Expr::number(2), 64, Slot::null())
}

#[test]
fn a_group_is_made(rt: HostRuntime) {
    assert!(rt; is_expr(Expr::group(rt.alloc(), Expr::number(1))));
}

#[test]
fn a_negation_is_made(rt: HostRuntime) {
    assert!(rt; is_expr(Expr::prefixed(rt.alloc(), Prefix::Not, Expr::number(1))));
}

#[test]
fn a_chain_is_made(rt: HostRuntime) {
    assert!(rt; is_expr(Expr::chain(rt.alloc(), Expr::number(1), Vec::new(rt.alloc()))));
}

#[test]
fn a_choice_of_expressions_is_made(rt: HostRuntime) {
    assert!(rt;
        is_expr(Expr::choice(
            rt.alloc(),
            Expr::number(1),
            Expr::number(2),
            Expr::number(3)
        ))
    );
}

#[test]
fn a_choice_of_slots_is_made(rt: HostRuntime) {
    assert!(rt; is_slot(Slot::choice(rt.alloc(), Expr::number(1), Slot::null(), Slot::children())));
}

#[test]
fn a_repetition_is_made(rt: HostRuntime) {
    assert!(rt; is_slot(repeated(rt.alloc())));
}
