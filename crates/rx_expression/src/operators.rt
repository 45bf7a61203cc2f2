// The operators of expressions.
ghost use Rattle.std.specs.Prelude.{◌≡◌, ◌<◌, suc, ℕ, List, MatchResult};
ghost use Rattle.rx_lex.specs.Spans.{kinds_of, seen};
ghost use Rattle.rx_print.specs.Printing.{prefix_sign};
ghost use Rattle.rx_print.specs.Levels.{operator_line};
ghost use Rattle.rx_grammar.specs.Steps.{next, taken};
ghost use Rattle.rx_grammar.specs.Reading.{sign_operator, on_line, as_operator, is_operator, chain_of};
ghost use Rattle.rx_expression.specs.Results.{Gives};

use crate::fault::Fault;
use rx_ast::{Expr, Link, Operator, Prefix};
use rx_lex::{Rest, Shape, Sign};
use std::alloc::Global;

/// The sign of an operator before its operand.
pub(crate) fn prefix_sign(operator: Prefix) -> Sign
    ensures { result ≡ prefix_sign operator }
{
    match operator {
        Prefix::Not => Sign::Not,
        Prefix::Negative => Sign::Minus,
    }
}

/// The operator that a sign is between two operands.
fn sign_operator(sign: Sign) -> Option<Operator>
    ensures { result ≡ sign_operator sign }
{
    match sign {
        Sign::Or => Some(Operator::Or),
        Sign::And => Some(Operator::And),
        Sign::Same => Some(Operator::Equal),
        Sign::NotSame => Some(Operator::NotEqual),
        Sign::Less => Some(Operator::Less),
        Sign::LessEqual => Some(Operator::LessOrEqual),
        Sign::Greater => Some(Operator::Greater),
        Sign::GreaterEqual => Some(Operator::GreaterOrEqual),
        Sign::Plus => Some(Operator::Add),
        Sign::Minus => Some(Operator::Subtract),
        Sign::Star => Some(Operator::Multiply),
        Sign::Slash => Some(Operator::Divide),
        Sign::Percent => Some(Operator::Remainder),
        _ => None,
    }
}

/// The line of the grammar that has an operator, counted from the one that binds tightest, 1.
fn line_of(operator: Operator) -> usize
    ensures { result ≡ operator_line operator }
{
    match operator {
        Operator::Multiply | Operator::Divide | Operator::Remainder => 1,
        Operator::Add | Operator::Subtract => 2,
        Operator::Less | Operator::LessOrEqual | Operator::Greater | Operator::GreaterOrEqual => 3,
        Operator::Equal | Operator::NotEqual => 4,
        Operator::And => 5,
        Operator::Or => 6,
    }
}

/// The operator, if its line is the one above this line.
#[tactic(auto, using(crate::proofs::Lines::on_next_line))]
fn on_line(operator: Option<Operator>, below: usize) -> Option<Operator>
    requires { below < 6 }
    ensures { result ≡ on_line (suc below) operator }
{
    match operator {
        Some(found) if line_of(found) == below + 1 => Some(found),
        _ => None,
    }
}

/// The operator that a token is, if its line is the one above this line.
fn as_operator(shape: Shape, below: usize) -> Option<Operator>
    requires { below < 6 }
    ensures { (text : List ℕ) → result ≡ as_operator (suc below) (seen text shape) }
{
    match shape {
        Shape::Mark(sign) => on_line(sign_operator(sign), below),
        _ => None,
    }
}

/// Whether the next token is an operator of the line above this line.
pub(crate) fn next_is_operator(rest: Rest<'_>, below: usize) -> bool
    requires { below < 6 }
    ensures { result ≡ next (is_operator (suc below)) (kinds_of rest.entry) }
{
    match rest.split_first() {
        Some((span, _)) => as_operator(span.shape, below).is_some(),
        None => false,
    }
}

/// An operator of the line above this line.
pub(crate) fn operator(rest: Rest<'_>, below: usize) -> Result<(Operator, Rest<'_>), Fault>
    requires { below < 6 }
    ensures { Gives (λ x. (x.0, kinds_of x.1)) result (taken (as_operator (suc below)) (kinds_of rest.entry)) }
{
    let Some((span, after)) = rest.split_first() else {
        return Err(Fault::Syntax(0));
    };
    match as_operator(span.shape, below) {
        Some(found) => Ok((found, after)),
        None => Err(Fault::Syntax(rest.len())),
    }
}

/// An operand alone, or a chain.
pub(crate) fn chain(alloc: Global, first: Expr, links: Vec<Link>) -> Result<Expr, Fault>
    ensures { MatchResult result (λ e. e ≡ chain_of first links.items) (λ e. e ≡ Fault.OutOfMemory) }
{
    if links.is_empty() {
        return Ok(first);
    }
    Ok(Expr::chain(alloc, first, links)?)
}
