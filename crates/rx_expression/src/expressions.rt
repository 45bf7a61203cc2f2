// Expressions.
ghost use Rattle.std.specs.Prelude.{◌<◌, ◌≤◌, suc};
ghost use Rattle.rx_lex.specs.Spans.{kinds_of};
ghost use Rattle.rx_lex.specs.declared.token.Sign.TheVariants as sign;
ghost use Rattle.rx_grammar.specs.Steps.{is_mark, all_of};
ghost use Rattle.rx_grammar.specs.Reading.{behind_comma, list_to, prefixed_at, group_at, call_at, named_at, is_operator, link_at, line_with, choice_at, inner_at, expr_at, operand_at};
ghost use Rattle.rx_expression.specs.Results.{Gives, in_front};

use crate::fault::Fault;
use crate::lists::push;
use crate::operators::{chain, next_is_operator, operator, prefix_sign};
use crate::steps::{expect, lower, next_is, next_is_lower, number};
use rx_ast::{Expr, Link, Prefix};
use rx_base::Name;
use rx_lex::{Rest, Sign};
use std::alloc::Global;

/// The line of `||`, the loosest one with operators.
pub const OR_LINE: usize = 6;

/// An operator before its operand.
#[cycle(expr)]
fn prefixed<'a>(
    alloc: Global,
    rest: Rest<'a>,
    level: usize,
    operator: Prefix,
) -> Result<(Expr, Rest<'a>), Fault>
    ensures { Gives (λ x. (x.0, kinds_of x.1)) result (prefixed_at (inner_at level) operator (kinds_of rest.entry)) }
{
    if level == 0 {
        return Err(Fault::Syntax(rest.len()));
    }
    let rest = expect(rest, prefix_sign(operator))?;
    let (operand, rest) = operand(alloc, rest, level - 1)?;
    Ok((Expr::prefixed(alloc, operator, operand)?, rest))
}

/// An expression in parentheses.
#[cycle(expr)]
fn group<'a>(alloc: Global, rest: Rest<'a>, level: usize) -> Result<(Expr, Rest<'a>), Fault>
    ensures { Gives (λ x. (x.0, kinds_of x.1)) result (group_at (inner_at level) (kinds_of rest.entry)) }
{
    if level == 0 {
        return Err(Fault::Syntax(rest.len()));
    }
    let rest = expect(rest, Sign::OpenParen)?;
    let (inner, rest) = expr(alloc, rest, level - 1)?;
    let rest = expect(rest, Sign::CloseParen)?;
    Ok((Expr::group(alloc, inner)?, rest))
}

/// A call behind the name of its function.
#[cycle(expr)]
fn call<'a>(
    alloc: Global,
    function: Name,
    rest: Rest<'a>,
    level: usize,
) -> Result<(Expr, Rest<'a>), Fault>
    ensures { Gives (λ x. (x.0, kinds_of x.1)) result (call_at (inner_at level) function (kinds_of rest.entry)) }
{
    if level == 0 {
        return Err(Fault::Syntax(rest.len()));
    }
    let rest = expect(rest, Sign::OpenParen)?;
    let (arguments, rest) = exprs(alloc, rest, level - 1, Sign::CloseParen)?;
    Ok((Expr::call(alloc, function, arguments)?, rest))
}

/// A variable or a call.
#[cycle(expr)]
fn named<'a>(alloc: Global, rest: Rest<'a>, level: usize) -> Result<(Expr, Rest<'a>), Fault>
    ensures { Gives (λ x. (x.0, kinds_of x.1)) result (named_at (inner_at level) (kinds_of rest.entry)) }
{
    let (name, rest) = lower(alloc, rest)?;
    if next_is(rest, Sign::OpenParen) {
        call(alloc, name, rest, level)
    } else {
        Ok((Expr::variable(name), rest))
    }
}

/// An operand.
#[cycle(expr)]
#[tactic(auto, unfolding(rx_grammar::specs::Reading::operand_with))]
fn operand<'a>(alloc: Global, rest: Rest<'a>, level: usize) -> Result<(Expr, Rest<'a>), Fault>
    ensures { Gives (λ x. (x.0, kinds_of x.1)) result (operand_at level (kinds_of rest.entry)) }
{
    if next_is(rest, Sign::Not) {
        return prefixed(alloc, rest, level, Prefix::Not);
    }
    if next_is(rest, Sign::Minus) {
        return prefixed(alloc, rest, level, Prefix::Negative);
    }
    if next_is(rest, Sign::OpenParen) {
        return group(alloc, rest, level);
    }
    if next_is_lower(rest) {
        return named(alloc, rest, level);
    }
    let (number, rest) = number(rest)?;
    Ok((Expr::number(number), rest))
}

/// An operator of the line above this line, with the operand behind it.
#[cycle(expr)]
fn link<'a>(
    alloc: Global,
    rest: Rest<'a>,
    below: usize,
    level: usize,
) -> Result<(Link, Rest<'a>), Fault>
    requires { below < 6 }
    ensures { Gives (λ x. (x.0, kinds_of x.1)) result (link_at (suc below) (line_with below (inner_at level)) (kinds_of rest.entry)) }
{
    let (operator, rest) = operator(rest, below)?;
    let (operand, rest) = line(alloc, rest, below, level)?;
    Ok((Link { operator, operand }, rest))
}

/// The operators of the line above this line, each with the operand behind it.
#[cycle(expr)]
fn links<'a>(
    alloc: Global,
    rest: Rest<'a>,
    below: usize,
    level: usize,
) -> Result<(Vec<Link>, Rest<'a>), Fault>
    requires { below < 6 }
    ensures { Gives (λ x. (x.0.items, kinds_of x.1)) result (all_of (is_operator (suc below)) (link_at (suc below) (line_with below (inner_at level))) (kinds_of rest.entry)) }
{
    let mut links = Vec::new(alloc);
    let mut rest = rest;
    while next_is_operator(rest, below) {
        let (link, after) = link(alloc, rest, below, level)?;
        push(&mut links, link)?;
        rest = after;
    }
    links.shrink_to_fit();
    Ok((links, rest))
}

/// A line of the grammar: operands of the next tighter line with operators between.
#[cycle(expr)]
#[tactic(auto, unfolding(rx_grammar::specs::Reading::line_with))]
pub fn line<'a>(
    alloc: Global,
    rest: Rest<'a>,
    line: usize,
    level: usize,
) -> Result<(Expr, Rest<'a>), Fault>
    requires { line ≤ 6 }
    ensures { Gives (λ x. (x.0, kinds_of x.1)) result (line_with line (inner_at level) (kinds_of rest.entry)) }
{
    if line == 0 {
        return operand(alloc, rest, level);
    }
    let below = line - 1;
    let (first, rest) = self::line(alloc, rest, below, level)?;
    let (links, rest) = links(alloc, rest, below, level)?;
    Ok((chain(alloc, first, links)?, rest))
}

/// The two sides behind a test.
#[cycle(expr)]
fn choice<'a>(
    alloc: Global,
    test: Expr,
    rest: Rest<'a>,
    level: usize,
) -> Result<(Expr, Rest<'a>), Fault>
    ensures { Gives (λ x. (x.0, kinds_of x.1)) result (choice_at (inner_at level) test (kinds_of rest.entry)) }
{
    if level == 0 {
        return Err(Fault::Syntax(rest.len()));
    }
    let rest = expect(rest, Sign::Question)?;
    let (first, rest) = expr(alloc, rest, level - 1)?;
    let rest = expect(rest, Sign::Colon)?;
    let (second, rest) = expr(alloc, rest, level - 1)?;
    Ok((Expr::choice(alloc, test, first, second)?, rest))
}

/// An expression with so many levels left.
#[cycle(expr)]
#[tactic(auto, unfolding(rx_grammar::specs::Reading::expr_with))]
pub fn expr<'a>(alloc: Global, rest: Rest<'a>, level: usize) -> Result<(Expr, Rest<'a>), Fault>
    ensures { Gives (λ x. (x.0, kinds_of x.1)) result (expr_at level (kinds_of rest.entry)) }
{
    let (test, rest) = line(alloc, rest, OR_LINE, level)?;
    if next_is(rest, Sign::Question) {
        choice(alloc, test, rest, level)
    } else {
        Ok((test, rest))
    }
}

/// Further expressions, each behind a comma.
#[cycle(expr)]
fn more_exprs<'a>(
    alloc: Global,
    rest: Rest<'a>,
    level: usize,
    exprs: &mut Vec<Expr>,
) -> Result<Rest<'a>, Fault>
    ensures { Gives (λ x. (exprs.new.items, kinds_of x)) result (in_front exprs.old.items (all_of (is_mark sign.Comma) (behind_comma (expr_at level)) (kinds_of rest.entry))) }
{
    let mut rest = rest;
    while next_is(rest, Sign::Comma) {
        let behind = expect(rest, Sign::Comma)?;
        let (next, after) = expr(alloc, behind, level)?;
        push(exprs, next)?;
        rest = after;
    }
    Ok(rest)
}

/// Expressions with a comma between each two, up to and with the sign that closes them.
#[cycle(expr)]
#[tactic(auto, unfolding(rx_grammar::specs::Reading::list_to))]
pub fn exprs<'a>(
    alloc: Global,
    rest: Rest<'a>,
    level: usize,
    close: Sign,
) -> Result<(Vec<Expr>, Rest<'a>), Fault>
    ensures { Gives (λ x. (x.0.items, kinds_of x.1)) result (list_to close (expr_at level) (kinds_of rest.entry)) }
{
    let mut exprs = Vec::new(alloc);
    if next_is(rest, close) {
        return Ok((exprs, expect(rest, close)?));
    }
    let (first, rest) = expr(alloc, rest, level)?;
    push(&mut exprs, first)?;
    let rest = more_exprs(alloc, rest, level, &mut exprs)?;
    let rest = expect(rest, close)?;
    exprs.shrink_to_fit();
    Ok((exprs, rest))
}
