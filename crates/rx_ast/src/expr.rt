// Expressions.
ghost use Rattle.std.specs.Prelude.{◌≡◌, IfOk};
ghost use Rattle.rx_ast.specs.Syntax.{number, variable, grouped, prefixed, chain, chosen, called, exprs_of};
ghost use Rattle.rx_ast.specs.ExprView.{links_of};

use rx_base::Name;
use std::alloc::{AllocError, Global};
use std::marker::Model;

/// An operator before its operand.
#[derive(Clone, Copy, Debug, PartialEq, Eq)]
pub enum Prefix {
    /// `!`: 1 if the operand is 0, else 0.
    Not,
    /// `-`
    Negative,
}

/// An operator between two operands.
#[derive(Clone, Copy, Debug, PartialEq, Eq)]
pub enum Operator {
    Or,
    And,
    Equal,
    NotEqual,
    Less,
    LessOrEqual,
    Greater,
    GreaterOrEqual,
    Add,
    Subtract,
    Multiply,
    Divide,
    Remainder,
}

/// An operator of a chain with the operand behind it.
#[cycle(expr)]
#[derive(Drop)]
pub struct Link {
    pub operator: Operator,
    pub operand: Expr,
}

/// An expression of integers.
#[cycle(expr)]
#[derive(Drop)]
pub struct Expr {
    /// What it is, with its parts.
    pub kind: ExprKind,
}

/// What an expression is, with its parts in the order of the text.
#[cycle(expr)]
#[derive(Drop)]
pub enum ExprKind {
    /// A number as it is written.
    Number(u64),
    Variable(Name),
    /// An expression in parentheses.
    Group(Box<Expr>),
    Prefixed {
        operator: Prefix,
        operand: Box<Expr>,
    },
    /// Operators of one line of the grammar. The value is taken from the left.
    Chain {
        first: Box<Expr>,
        links: Vec<Link>,
    },
    /// `test ? first : second`
    Choice {
        test: Box<Expr>,
        first: Box<Expr>,
        second: Box<Expr>,
    },
    Call(Box<Call>),
}

/// A call of a function.
#[cycle(expr)]
#[derive(Drop)]
pub struct Call {
    pub function: Name,
    pub arguments: Vec<Expr>,
}

impl Model for Expr {
    ghost use Rattle.rx_ast.specs.Syntax as syntax;
    ghost use Rattle.rx_ast.specs.Codes.{expr_code};

    ghost Value = { syntax.Expr };

    ghost coded = { expr_code };

    ghost use Rattle.rx_ast.specs.ExprView.{expr_of};

    ghost view = { λ e. expr_of e.kind };

    ghost use Rattle.rx_ast.specs.Depth.{expr_depth};

    ghost size = { expr_depth };

    ghost use Rattle.rx_ast.specs.ExprFalls.{expr_falls};

    ghost size_decreases = { λ a h. expr_falls a.kind };
}

impl Expr {
    /// A number as it is written.
    pub fn number(value: u64) -> Expr
        ensures { result ≡ number value }
    {
        Expr {
            kind: ExprKind::Number(value),
        }
    }

    /// A variable.
    pub fn variable(name: Name) -> Expr
        ensures { result ≡ variable name }
    {
        Expr {
            kind: ExprKind::Variable(name),
        }
    }

    /// An expression in parentheses.
    ///
    /// # Errors
    ///
    /// Only if out of memory.
    pub fn group(alloc: Global, inner: Expr) -> Result<Expr, AllocError>
        ensures { IfOk result (λ e. e ≡ grouped inner) }
    {
        let inner = Box::new(alloc, inner)?;
        Ok(Expr {
            kind: ExprKind::Group(inner),
        })
    }

    /// An operator before its operand.
    ///
    /// # Errors
    ///
    /// Only if out of memory.
    pub fn prefixed(alloc: Global, operator: Prefix, operand: Expr) -> Result<Expr, AllocError>
        ensures { IfOk result (λ e. e ≡ prefixed operator operand) }
    {
        let operand = Box::new(alloc, operand)?;
        Ok(Expr {
            kind: ExprKind::Prefixed { operator, operand },
        })
    }

    /// Operands of one line of the grammar: the first, and each other with the operator before it.
    ///
    /// # Errors
    ///
    /// Only if out of memory.
    pub fn chain(alloc: Global, first: Expr, links: Vec<Link>) -> Result<Expr, AllocError>
        ensures { IfOk result (λ e. e ≡ chain first (links_of links.items)) }
    {
        let first = Box::new(alloc, first)?;
        Ok(Expr {
            kind: ExprKind::Chain { first, links },
        })
    }

    /// `test ? first : second`
    ///
    /// # Errors
    ///
    /// Only if out of memory.
    pub fn choice(alloc: Global, test: Expr, first: Expr, second: Expr) -> Result<Expr, AllocError>
        ensures { IfOk result (λ e. e ≡ chosen test first second) }
    {
        let test = Box::new(alloc, test)?;
        let first = Box::new(alloc, first)?;
        let second = Box::new(alloc, second)?;
        Ok(Expr {
            kind: ExprKind::Choice {
                test,
                first,
                second,
            },
        })
    }

    /// A call of a function with its arguments.
    ///
    /// # Errors
    ///
    /// Only if out of memory.
    pub fn call(alloc: Global, function: Name, arguments: Vec<Expr>) -> Result<Expr, AllocError>
        ensures { IfOk result (λ e. e ≡ called function (exprs_of arguments.items)) }
    {
        let call = Call {
            function,
            arguments,
        };
        let call = Box::new(alloc, call)?;
        Ok(Expr {
            kind: ExprKind::Call(call),
        })
    }
}
