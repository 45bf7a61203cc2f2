// A program goes through all checks.

use rx_ast::{Body, Component, Declaration, Expr, Program, Slot, Statement};
use rx_base::Name;
use rx_check::{HookKind, check};
use std::alloc::{AllocError, Global};
use std::test::Fail;

/// `function App() { const [n, setN] = useState(0); return null; }`
pub(crate) fn counter(alloc: Global) -> Result<Program, AllocError> {
    let mut statements = Vec::new(alloc);
    statements.push(Statement::state(
        Name::new(alloc, "n")?,
        Name::new(alloc, "setN")?,
        Expr::number(0),
    ))?;
    let app = Component::new(
        Name::new(alloc, "App")?,
        false,
        false,
        Vec::new(alloc),
        statements,
        Body::slot(Slot::null()),
    );
    let mut declarations = Vec::new(alloc);
    declarations.push(Declaration::component(app))?;
    Ok(Program::new(false, declarations))
}

#[test]
fn a_counter_is_accepted(rt: HostRuntime) -> Result<(), Fail> {
    let program = counter(rt.alloc())?;
    let checked = check(rt.alloc(), program)?;
    assert_eq!(rt; checked.bound(), 1);
    assert_eq!(rt; checked.depth(), 1);
    assert_eq!(rt; checked.hook(0, "n"), Some(HookKind::State { number: 0 }));
    Ok(())
}
