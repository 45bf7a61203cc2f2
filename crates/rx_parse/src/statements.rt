// Statements of a component's body, and lines of a function.
ghost use Rattle.std.specs.Prelude.{◌≡◌};
ghost use Rattle.rx_lex.specs.Spans.{kinds_of};
ghost use Rattle.rx_grammar.specs.Steps.{next};
ghost use Rattle.rx_grammar.specs.Reading.{argument_at, hook_at, pair_at, value_statement, const_at, effect_at, throw_at, statement_at, is_statement, statements_at, function_line, lines_at};
ghost use Rattle.rx_expression.specs.Results.{Gives};

use rx_ast::{Expr, Line, Statement};
use rx_base::Name;
use rx_expression::beside::closed;
use rx_expression::expressions::{expr, exprs};
use rx_expression::fault::Fault;
use rx_expression::steps::{
    expect, expect_word, lower, next_is, next_is_word, resource, text, upper,
};
use rx_lex::{Keyword, Rest, Sign};
use std::alloc::Global;

/// An expression, and the `);` behind it.
fn argument<'a>(alloc: Global, rest: Rest<'a>, level: usize) -> Result<(Expr, Rest<'a>), Fault>
    ensures { Gives (λ x. (x.0, kinds_of x.1)) result (argument_at level (kinds_of rest.entry)) }
{
    let (value, rest) = expr(alloc, rest, level)?;
    let (value, rest) = closed(value, expect(rest, Sign::CloseParen))?;
    closed(value, expect(rest, Sign::Semicolon))
}

/// A hook with a setter, behind `=`.
#[tactic(auto, unfolding(rx_grammar::specs::Reading::hook_at))]
fn hook<'a>(
    alloc: Global,
    name: Name,
    setter: Name,
    rest: Rest<'a>,
    level: usize,
) -> Result<(Statement, Rest<'a>), Fault>
    ensures { Gives (λ x. (x.0, kinds_of x.1)) result (hook_at level name setter (kinds_of rest.entry)) }
{
    if next_is_word(rest, Keyword::UseState) {
        let rest = expect_word(rest, Keyword::UseState)?;
        let rest = expect(rest, Sign::OpenParen)?;
        let (initial, rest) = argument(alloc, rest, level)?;
        return Ok((Statement::state(name, setter, initial), rest));
    }
    if next_is_word(rest, Keyword::UseTransition) {
        let rest = expect_word(rest, Keyword::UseTransition)?;
        let rest = expect(rest, Sign::OpenParen)?;
        let rest = expect(rest, Sign::CloseParen)?;
        let rest = expect(rest, Sign::Semicolon)?;
        return Ok((Statement::transition(name, setter), rest));
    }
    let rest = expect_word(rest, Keyword::UseReducer)?;
    let rest = expect(rest, Sign::OpenParen)?;
    let (function, rest) = lower(alloc, rest)?;
    let rest = expect(rest, Sign::Comma)?;
    let (initial, rest) = argument(alloc, rest, level)?;
    Ok((Statement::reducer(name, setter, function, initial), rest))
}

/// `[name, setter] =` and a hook.
#[tactic(auto, unfolding(rx_grammar::specs::Reading::pair_at))]
fn pair<'a>(alloc: Global, rest: Rest<'a>, level: usize) -> Result<(Statement, Rest<'a>), Fault>
    ensures { Gives (λ x. (x.0, kinds_of x.1)) result (pair_at level (kinds_of rest.entry)) }
{
    let rest = expect(rest, Sign::OpenBracket)?;
    let (name, rest) = lower(alloc, rest)?;
    let rest = expect(rest, Sign::Comma)?;
    let (setter, rest) = lower(alloc, rest)?;
    let rest = expect(rest, Sign::CloseBracket)?;
    let rest = expect(rest, Sign::Equals)?;
    hook(alloc, name, setter, rest, level)
}

/// What a single name stands for, behind `=`.
#[tactic(auto, unfolding(rx_grammar::specs::Reading::value_statement))]
fn named<'a>(
    alloc: Global,
    name: Name,
    rest: Rest<'a>,
    level: usize,
) -> Result<(Statement, Rest<'a>), Fault>
    ensures { Gives (λ x. (x.0, kinds_of x.1)) result (value_statement level name (kinds_of rest.entry)) }
{
    if next_is_word(rest, Keyword::UseContext) {
        let rest = expect_word(rest, Keyword::UseContext)?;
        let rest = expect(rest, Sign::OpenParen)?;
        let (source, rest) = upper(alloc, rest)?;
        let rest = expect(rest, Sign::CloseParen)?;
        let rest = expect(rest, Sign::Semicolon)?;
        return Ok((Statement::context(name, source), rest));
    }
    if next_is_word(rest, Keyword::Use) {
        let rest = expect_word(rest, Keyword::Use)?;
        let rest = expect(rest, Sign::OpenParen)?;
        let (resource, rest) = resource(alloc, rest)?;
        let rest = expect(rest, Sign::CloseParen)?;
        let rest = expect(rest, Sign::Semicolon)?;
        return Ok((Statement::resource(name, resource), rest));
    }
    let (value, rest) = expr(alloc, rest, level)?;
    let (value, rest) = closed(value, expect(rest, Sign::Semicolon))?;
    Ok((Statement::constant(name, value), rest))
}

/// A statement that begins with `const`.
#[tactic(auto, unfolding(rx_grammar::specs::Reading::const_at))]
fn constant<'a>(alloc: Global, rest: Rest<'a>, level: usize) -> Result<(Statement, Rest<'a>), Fault>
    ensures { Gives (λ x. (x.0, kinds_of x.1)) result (const_at level (kinds_of rest.entry)) }
{
    let rest = expect_word(rest, Keyword::Const)?;
    if next_is(rest, Sign::OpenBracket) {
        return pair(alloc, rest, level);
    }
    let (name, rest) = lower(alloc, rest)?;
    let rest = expect(rest, Sign::Equals)?;
    named(alloc, name, rest, level)
}

/// An effect behind its word.
#[tactic(auto, unfolding(rx_grammar::specs::Reading::effect_at))]
fn effect<'a>(
    alloc: Global,
    layout: bool,
    rest: Rest<'a>,
    level: usize,
) -> Result<(Statement, Rest<'a>), Fault>
    ensures { Gives (λ x. (x.0, kinds_of x.1)) result (effect_at level layout (kinds_of rest.entry)) }
{
    let rest = expect(rest, Sign::OpenParen)?;
    let (label, rest) = text(alloc, rest)?;
    let rest = expect(rest, Sign::Comma)?;
    let rest = expect(rest, Sign::OpenBracket)?;
    let (dependencies, rest) = exprs(alloc, rest, level, Sign::CloseBracket)?;
    let (dependencies, rest) = closed(dependencies, expect(rest, Sign::CloseParen))?;
    let (dependencies, rest) = closed(dependencies, expect(rest, Sign::Semicolon))?;
    Ok((Statement::effect(layout, label, dependencies), rest))
}

/// A statement that throws.
#[tactic(auto, unfolding(rx_grammar::specs::Reading::throw_at))]
fn thrown<'a>(alloc: Global, rest: Rest<'a>, level: usize) -> Result<(Statement, Rest<'a>), Fault>
    ensures { Gives (λ x. (x.0, kinds_of x.1)) result (throw_at level (kinds_of rest.entry)) }
{
    let rest = expect_word(rest, Keyword::ThrowIf)?;
    let rest = expect(rest, Sign::OpenParen)?;
    let (value, rest) = argument(alloc, rest, level)?;
    Ok((Statement::throw_if(value), rest))
}

/// A statement.
#[tactic(auto, unfolding(rx_grammar::specs::Reading::statement_at))]
fn statement<'a>(
    alloc: Global,
    rest: Rest<'a>,
    level: usize,
) -> Result<(Statement, Rest<'a>), Fault>
    ensures { Gives (λ x. (x.0, kinds_of x.1)) result (statement_at level (kinds_of rest.entry)) }
{
    if next_is_word(rest, Keyword::Const) {
        return constant(alloc, rest, level);
    }
    if next_is_word(rest, Keyword::ThrowIf) {
        return thrown(alloc, rest, level);
    }
    if next_is_word(rest, Keyword::UseEffect) {
        let rest = expect_word(rest, Keyword::UseEffect)?;
        return effect(alloc, false, rest, level);
    }
    let rest = expect_word(rest, Keyword::UseLayoutEffect)?;
    effect(alloc, true, rest, level)
}

/// Whether the next token begins a statement.
#[tactic(auto, using(crate::proofs::Texts::statement_next))]
fn next_is_statement(rest: Rest<'_>) -> bool
    ensures { result ≡ next is_statement (kinds_of rest.entry) }
{
    next_is_word(rest, Keyword::Const)
        || (next_is_word(rest, Keyword::ThrowIf)
            || (next_is_word(rest, Keyword::UseEffect)
                || next_is_word(rest, Keyword::UseLayoutEffect)))
}

/// The statements before `return`.
pub(crate) fn statements<'a>(
    alloc: Global,
    rest: Rest<'a>,
    level: usize,
) -> Result<(Vec<Statement>, Rest<'a>), Fault>
    ensures { Gives (λ x. (x.0.items, kinds_of x.1)) result (statements_at level (kinds_of rest.entry)) }
{
    let mut statements = Vec::new(alloc);
    let mut rest = rest;
    while next_is_statement(rest) {
        let (statement, after) = statement(alloc, rest, level)?;
        statements.push(statement)?;
        rest = after;
    }
    Ok((statements, rest))
}

/// A line of a function.
#[tactic(auto, unfolding(rx_grammar::specs::Reading::function_line))]
fn function_line<'a>(alloc: Global, rest: Rest<'a>, level: usize) -> Result<(Line, Rest<'a>), Fault>
    ensures { Gives (λ x. (x.0, kinds_of x.1)) result (function_line level (kinds_of rest.entry)) }
{
    let rest = expect_word(rest, Keyword::Const)?;
    let (name, rest) = lower(alloc, rest)?;
    let rest = expect(rest, Sign::Equals)?;
    let (value, rest) = expr(alloc, rest, level)?;
    let (value, rest) = closed(value, expect(rest, Sign::Semicolon))?;
    Ok((Line::new(name, value), rest))
}

/// The lines of a function before `return`.
pub(crate) fn lines<'a>(
    alloc: Global,
    rest: Rest<'a>,
    level: usize,
) -> Result<(Vec<Line>, Rest<'a>), Fault>
    ensures { Gives (λ x. (x.0.items, kinds_of x.1)) result (lines_at level (kinds_of rest.entry)) }
{
    let mut lines = Vec::new(alloc);
    let mut rest = rest;
    while next_is_word(rest, Keyword::Const) {
        let (line, after) = function_line(alloc, rest, level)?;
        lines.push(line)?;
        rest = after;
    }
    Ok((lines, rest))
}
