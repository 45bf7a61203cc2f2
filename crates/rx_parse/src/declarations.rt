// Declarations.
ghost use Rattle.std.specs.Prelude.{◌≡◌};
ghost use Rattle.rx_lex.specs.Spans.{kinds_of};
ghost use Rattle.rx_lex.specs.declared.token.Sign.TheVariants as sign;
ghost use Rattle.rx_grammar.specs.Steps.{next, is_mark, all_of, taken, as_lower};
ghost use Rattle.rx_grammar.specs.Reading.{behind_comma, list_to, default_at, context_at, answer_at, function_at, parameter_at, parameters_at, result_at, component_at, memo_at, named_declaration, declaration_at, is_declaration, declarations_at};
ghost use Rattle.rx_expression.specs.Results.{Gives, in_front};

use crate::statements::{lines, statements};
use rx_ast::{Body, Component, Context, Declaration, Expr, Function, Parameter};
use rx_base::Name;
use rx_expression::beside::{beside, closed};
use rx_expression::expressions::expr;
use rx_expression::fault::Fault;
use rx_expression::steps::{
    expect, expect_upper, expect_word, lower, next_is, next_is_lower, next_is_word, number, upper,
};
use rx_lex::{Keyword, Rest, Sign};
use rx_slots::body;
use std::alloc::Global;

/// The number of a context's default, with whether `-` stands before it.
fn default_number(rest: Rest<'_>) -> Result<((bool, u64), Rest<'_>), Fault>
    ensures { Gives (λ x. (x.0, kinds_of x.1)) result (default_at (kinds_of rest.entry)) }
{
    if next_is(rest, Sign::Minus) {
        let rest = expect(rest, Sign::Minus)?;
        let (number, rest) = number(rest)?;
        return Ok(((true, number), rest));
    }
    let (number, rest) = number(rest)?;
    Ok(((false, number), rest))
}

/// A context behind its name and `=`.
#[tactic(auto, unfolding(rx_grammar::specs::Reading::context_at))]
fn context(name: Name, rest: Rest<'_>) -> Result<(Declaration, Rest<'_>), Fault>
    ensures { Gives (λ x. (x.0, kinds_of x.1)) result (context_at name (kinds_of rest.entry)) }
{
    let rest = expect_word(rest, Keyword::CreateContext)?;
    let rest = expect(rest, Sign::OpenParen)?;
    let ((negative, number), rest) = default_number(rest)?;
    let rest = expect(rest, Sign::CloseParen)?;
    let rest = expect(rest, Sign::Semicolon)?;
    Ok((
        Declaration::context(Context::new(name, negative, number)),
        rest,
    ))
}

/// Further names, each behind a comma.
fn more_names<'a>(alloc: Global, rest: Rest<'a>, names: &mut Vec<Name>) -> Result<Rest<'a>, Fault>
    ensures { Gives (λ x. (names.new.items, kinds_of x)) result (in_front names.old.items (all_of (is_mark sign.Comma) (behind_comma (taken as_lower)) (kinds_of rest.entry))) }
{
    let mut rest = rest;
    while next_is(rest, Sign::Comma) {
        let behind = expect(rest, Sign::Comma)?;
        let (next, after) = lower(alloc, behind)?;
        names.push(next)?;
        rest = after;
    }
    Ok(rest)
}

/// The parameters of a function, up to and with `)`.
#[tactic(auto, unfolding(rx_grammar::specs::Reading::list_to))]
fn names<'a>(alloc: Global, rest: Rest<'a>) -> Result<(Vec<Name>, Rest<'a>), Fault>
    ensures { Gives (λ x. (x.0.items, kinds_of x.1)) result (list_to sign.CloseParen (taken as_lower) (kinds_of rest.entry)) }
{
    let mut names = Vec::new(alloc);
    if next_is(rest, Sign::CloseParen) {
        return Ok((names, expect(rest, Sign::CloseParen)?));
    }
    let (first, rest) = lower(alloc, rest)?;
    names.push(first)?;
    let rest = more_names(alloc, rest, &mut names)?;
    let rest = expect(rest, Sign::CloseParen)?;
    Ok((names, rest))
}

/// `return`, an expression and `;}`.
fn answer<'a>(alloc: Global, rest: Rest<'a>, level: usize) -> Result<(Expr, Rest<'a>), Fault>
    ensures { Gives (λ x. (x.0, kinds_of x.1)) result (answer_at level (kinds_of rest.entry)) }
{
    let rest = expect_word(rest, Keyword::Return)?;
    let (answer, rest) = expr(alloc, rest, level)?;
    let (answer, rest) = closed(answer, expect(rest, Sign::Semicolon))?;
    closed(answer, expect(rest, Sign::CloseBrace))
}

/// A function behind its name.
#[tactic(auto, unfolding(rx_grammar::specs::Reading::function_at))]
fn function<'a>(
    alloc: Global,
    name: Name,
    rest: Rest<'a>,
    level: usize,
) -> Result<(Declaration, Rest<'a>), Fault>
    ensures { Gives (λ x. (x.0, kinds_of x.1)) result (function_at level name (kinds_of rest.entry)) }
{
    let rest = expect(rest, Sign::OpenParen)?;
    let (parameters, rest) = names(alloc, rest)?;
    let rest = expect(rest, Sign::OpenBrace)?;
    let (lines, rest) = lines(alloc, rest, level)?;
    let (lines, answer, rest) = beside(lines, answer(alloc, rest, level))?;
    Ok((
        Declaration::function(Function::new(name, parameters, lines, answer)),
        rest,
    ))
}

/// A parameter of a component.
#[tactic(auto, unfolding(rx_grammar::specs::Reading::parameter_at))]
fn parameter<'a>(alloc: Global, rest: Rest<'a>) -> Result<(Parameter, Rest<'a>), Fault>
    ensures { Gives (λ x. (x.0, kinds_of x.1)) result (parameter_at (kinds_of rest.entry)) }
{
    if next_is_word(rest, Keyword::Children) {
        let rest = expect_word(rest, Keyword::Children)?;
        return Ok((Parameter::children(), rest));
    }
    let (name, rest) = lower(alloc, rest)?;
    Ok((Parameter::integer(name), rest))
}

/// Further parameters of a component, each behind a comma.
fn more_parameters<'a>(
    alloc: Global,
    rest: Rest<'a>,
    parameters: &mut Vec<Parameter>,
) -> Result<Rest<'a>, Fault>
    ensures { Gives (λ x. (parameters.new.items, kinds_of x)) result (in_front parameters.old.items (all_of (is_mark sign.Comma) (behind_comma parameter_at) (kinds_of rest.entry))) }
{
    let mut rest = rest;
    while next_is(rest, Sign::Comma) {
        let behind = expect(rest, Sign::Comma)?;
        let (next, after) = parameter(alloc, behind)?;
        parameters.push(next)?;
        rest = after;
    }
    Ok(rest)
}

/// The parameters of a component in braces, up to and with `}`.
#[tactic(auto, unfolding(rx_grammar::specs::Reading::list_to))]
fn braced_parameters<'a>(alloc: Global, rest: Rest<'a>) -> Result<(Vec<Parameter>, Rest<'a>), Fault>
    ensures { Gives (λ x. (x.0.items, kinds_of x.1)) result (list_to sign.CloseBrace parameter_at (kinds_of rest.entry)) }
{
    let mut parameters = Vec::new(alloc);
    if next_is(rest, Sign::CloseBrace) {
        return Ok((parameters, expect(rest, Sign::CloseBrace)?));
    }
    let (first, rest) = parameter(alloc, rest)?;
    parameters.push(first)?;
    let rest = more_parameters(alloc, rest, &mut parameters)?;
    let rest = expect(rest, Sign::CloseBrace)?;
    Ok((parameters, rest))
}

/// The parameters of a component, up to and with `)`, and whether they stand in braces.
#[tactic(auto, unfolding(rx_grammar::specs::Reading::parameters_at))]
fn parameters<'a>(alloc: Global, rest: Rest<'a>) -> Result<(bool, Vec<Parameter>, Rest<'a>), Fault>
    ensures { Gives (λ x. ((x.0, x.1.items), kinds_of x.2)) result (parameters_at (kinds_of rest.entry)) }
{
    if next_is(rest, Sign::CloseParen) {
        let rest = expect(rest, Sign::CloseParen)?;
        return Ok((false, Vec::new(alloc), rest));
    }
    let rest = expect(rest, Sign::OpenBrace)?;
    let (parameters, rest) = braced_parameters(alloc, rest)?;
    let (parameters, rest) = closed(parameters, expect(rest, Sign::CloseParen))?;
    Ok((true, parameters, rest))
}

/// `return`, a body and `;}`.
fn returned<'a>(alloc: Global, rest: Rest<'a>, level: usize) -> Result<(Body, Rest<'a>), Fault>
    ensures { Gives (λ x. (x.0, kinds_of x.1)) result (result_at level (kinds_of rest.entry)) }
{
    let rest = expect_word(rest, Keyword::Return)?;
    let (body, rest) = body(alloc, rest, level)?;
    let (body, rest) = closed(body, expect(rest, Sign::Semicolon))?;
    closed(body, expect(rest, Sign::CloseBrace))
}

/// A component behind its name.
#[tactic(auto, unfolding(rx_grammar::specs::Reading::component_at))]
fn component<'a>(
    alloc: Global,
    memo: bool,
    name: Name,
    rest: Rest<'a>,
    level: usize,
) -> Result<(Declaration, Rest<'a>), Fault>
    ensures { Gives (λ x. (x.0, kinds_of x.1)) result (component_at level memo name (kinds_of rest.entry)) }
{
    let rest = expect(rest, Sign::OpenParen)?;
    let (braces, parameters, rest) = parameters(alloc, rest)?;
    let (parameters, rest) = closed(parameters, expect(rest, Sign::OpenBrace))?;
    let (parameters, statements, rest) = beside(parameters, statements(alloc, rest, level))?;
    let (statements, body, rest) = beside(statements, returned(alloc, rest, level))?;
    let component = Component::new(name, memo, braces, parameters, statements, body);
    Ok((Declaration::component(component), rest))
}

/// A component that is declared by `memo`, behind its name and `=`. The function's name repeats it.
#[tactic(auto, unfolding(rx_grammar::specs::Reading::memo_at))]
fn memo<'a>(
    alloc: Global,
    name: Name,
    rest: Rest<'a>,
    level: usize,
) -> Result<(Declaration, Rest<'a>), Fault>
    ensures { Gives (λ x. (x.0, kinds_of x.1)) result (memo_at level name (kinds_of rest.entry)) }
{
    let rest = expect_word(rest, Keyword::Memo)?;
    let rest = expect(rest, Sign::OpenParen)?;
    let rest = expect_word(rest, Keyword::Function)?;
    let rest = expect_upper(rest, name.text())?;
    let (declaration, rest) = component(alloc, true, name, rest, level)?;
    let (declaration, rest) = closed(declaration, expect(rest, Sign::CloseParen))?;
    closed(declaration, expect(rest, Sign::Semicolon))
}

/// A declaration that begins with `const`.
#[tactic(auto, unfolding(rx_grammar::specs::Reading::named_declaration))]
fn named<'a>(alloc: Global, rest: Rest<'a>, level: usize) -> Result<(Declaration, Rest<'a>), Fault>
    ensures { Gives (λ x. (x.0, kinds_of x.1)) result (named_declaration level (kinds_of rest.entry)) }
{
    let rest = expect_word(rest, Keyword::Const)?;
    let (name, rest) = upper(alloc, rest)?;
    let rest = expect(rest, Sign::Equals)?;
    if next_is_word(rest, Keyword::Memo) {
        return memo(alloc, name, rest, level);
    }
    context(name, rest)
}

/// A declaration.
#[tactic(auto, unfolding(rx_grammar::specs::Reading::declaration_at))]
fn declaration<'a>(
    alloc: Global,
    rest: Rest<'a>,
    level: usize,
) -> Result<(Declaration, Rest<'a>), Fault>
    ensures { Gives (λ x. (x.0, kinds_of x.1)) result (declaration_at level (kinds_of rest.entry)) }
{
    if next_is_word(rest, Keyword::Const) {
        return named(alloc, rest, level);
    }
    let rest = expect_word(rest, Keyword::Function)?;
    if next_is_lower(rest) {
        let (name, rest) = lower(alloc, rest)?;
        return function(alloc, name, rest, level);
    }
    let (name, rest) = upper(alloc, rest)?;
    component(alloc, false, name, rest, level)
}

/// Whether the next token begins a declaration.
#[tactic(auto, using(crate::proofs::Texts::declaration_next))]
fn next_is_declaration(rest: Rest<'_>) -> bool
    ensures { result ≡ next is_declaration (kinds_of rest.entry) }
{
    next_is_word(rest, Keyword::Const) || next_is_word(rest, Keyword::Function)
}

/// The declarations of a program.
pub(crate) fn declarations<'a>(
    alloc: Global,
    rest: Rest<'a>,
    level: usize,
) -> Result<(Vec<Declaration>, Rest<'a>), Fault>
    ensures { Gives (λ x. (x.0.items, kinds_of x.1)) result (declarations_at level (kinds_of rest.entry)) }
{
    let mut declarations = Vec::new(alloc);
    let mut rest = rest;
    while next_is_declaration(rest) {
        let (declaration, after) = declaration(alloc, rest, level)?;
        declarations.push(declaration)?;
        rest = after;
    }
    Ok((declarations, rest))
}
