// Statements of a component's body.
ghost use Rattle.std.specs.Prelude.{◌≡◌};
ghost use Rattle.rx_ast.specs.Syntax.{state, reducer, transition, context, use_resource, constant, effect, throw_if};

use crate::expr::Expr;
use rx_base::Name;
use std::marker::Model;

/// A statement of a component's body.
pub struct Statement {
    /// What it is, with its parts.
    pub kind: StatementKind,
}

// It is taken apart here alone, once for all crates.
impl Drop for Statement {
    fn drop(self) {
        let Statement { kind: _kind } = self;
    }
}

/// What a statement is, with its parts in the order of the text.
#[derive(Drop)]
pub enum StatementKind {
    /// `const [name, setter] = useState(initial);` (react.dev, useState)
    State {
        name: Name,
        setter: Name,
        initial: Expr,
    },
    /// `const [name, setter] = useReducer(function, initial);` (react.dev, useReducer)
    Reducer {
        name: Name,
        setter: Name,
        function: Name,
        initial: Expr,
    },
    /// `const [name, starter] = useTransition();` (react.dev, useTransition)
    Transition {
        name: Name,
        starter: Name,
    },
    /// `const name = useContext(source);` (react.dev, useContext)
    Context {
        name: Name,
        source: Name,
    },
    /// `const name = use("resource");` (react.dev, use)
    Resource {
        name: Name,
        resource: Name,
    },
    /// `const name = value;`
    Constant {
        name: Name,
        value: Expr,
    },
    /// `useEffect("label", [dependencies]);`, or with `layout` `useLayoutEffect` (react.dev, useEffect).
    Effect {
        layout: bool,
        label: Name,
        dependencies: Vec<Expr>,
    },
    /// `throwIf(value);`, which throws a value that is not 0 to the nearest error boundary.
    Throw {
        value: Expr,
    },
}

impl Model for Statement {
    ghost use Rattle.rx_ast.specs.Syntax as syntax;
    ghost use Rattle.rx_ast.specs.ProgramCodes.{statement_code};

    ghost Value = { syntax.Statement };

    ghost coded = { statement_code };

    ghost use Rattle.rx_ast.specs.ProgramView.{statement_of};

    ghost view = { λ s. statement_of s.kind };
}

impl Statement {
    /// `const [name, setter] = useState(initial);`
    pub fn state(name: Name, setter: Name, initial: Expr) -> Statement
        ensures { result ≡ state name setter initial }
    {
        Statement {
            kind: StatementKind::State {
                name,
                setter,
                initial,
            },
        }
    }

    /// `const [name, setter] = useReducer(function, initial);`
    pub fn reducer(name: Name, setter: Name, function: Name, initial: Expr) -> Statement
        ensures { result ≡ reducer name setter function initial }
    {
        Statement {
            kind: StatementKind::Reducer {
                name,
                setter,
                function,
                initial,
            },
        }
    }

    /// `const [name, starter] = useTransition();`
    pub fn transition(name: Name, starter: Name) -> Statement
        ensures { result ≡ transition name starter }
    {
        Statement {
            kind: StatementKind::Transition { name, starter },
        }
    }

    /// `const name = useContext(source);`
    pub fn context(name: Name, source: Name) -> Statement
        ensures { result ≡ context name source }
    {
        Statement {
            kind: StatementKind::Context { name, source },
        }
    }

    /// `const name = use("resource");`
    pub fn resource(name: Name, resource: Name) -> Statement
        ensures { result ≡ use_resource name resource }
    {
        Statement {
            kind: StatementKind::Resource { name, resource },
        }
    }

    /// `const name = value;`
    pub fn constant(name: Name, value: Expr) -> Statement
        ensures { result ≡ constant name value }
    {
        Statement {
            kind: StatementKind::Constant { name, value },
        }
    }

    /// `useEffect("label", [dependencies]);`, or with `layout` `useLayoutEffect`.
    pub fn effect(layout: bool, label: Name, dependencies: Vec<Expr>) -> Statement
        ensures { result ≡ effect layout label dependencies.items }
    {
        Statement {
            kind: StatementKind::Effect {
                layout,
                label,
                dependencies,
            },
        }
    }

    /// `throwIf(value);`
    pub fn throw_if(value: Expr) -> Statement
        ensures { result ≡ throw_if value }
    {
        Statement {
            kind: StatementKind::Throw { value },
        }
    }
}
