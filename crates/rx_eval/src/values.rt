// What expressions are worth.
ghost use Rattle.std.specs.Prelude.{◌≡◌, ◌<◌, ◌≤◌, ◌-◌, ◌++◌, MatchOption, Some, None, Contains, length, take};
ghost use Rattle.std.specs.List.{zip};
ghost use Rattle.rx_ast.specs.Syntax.{exprs_of, functions};
ghost use Rattle.rx_ast.specs.ExprView.{links_of};
ghost use Rattle.rx_rules.specs.Names.{function_named};
ghost use Rattle.rx_rules.specs.Versions.{width};
ghost use Rattle.rx_meaning.specs.Expressions.{value as worth, values, chained, nested_calls, after_lines};

use crate::arithmetic::{before_operand, between_operands, is_zero};
use crate::env::Env;
use rx_ast::{Expr, ExprKind, Function, Line, Link};
use rx_base::{Int, Name};
use rx_check::Checked;

/// The function of a name.
fn function_named<'a>(checked: &'a Checked, name: &Name) -> Option<&'a Function>
    ensures { MatchOption result (function_named checked.now name.now ≡ None) (λ f. function_named checked.now name.now ≡ Some f.now) }
{
    match checked.function(name.text()) {
        None => None,
        Some(number) => checked.function_at(number),
    }
}

/// What an expression is worth, if calls nest at most so deep.
#[cycle(value)]
pub(crate) fn value(checked: &Checked, nesting: usize, env: &Env, expr: &Expr) -> Int
    ensures { result ≡ worth (width checked.now) (nested_calls nesting checked.now) env.now expr.now }
{
    match &expr.kind {
        ExprKind::Number(number) => Int::literal(checked.width(), *number),
        ExprKind::Variable(name) => env.value(name),
        ExprKind::Group(inner) => value(checked, nesting, env, inner),
        ExprKind::Prefixed { operator, operand } => {
            let operand = value_at_once(checked, nesting, env, operand);
            before_operand(checked.width(), *operator, operand)
        }
        ExprKind::Chain { first, links } => {
            let first = value_at_once(checked, nesting, env, first);
            chained(checked, nesting, env, first, links)
        }
        ExprKind::Choice {
            test,
            first,
            second,
        } => {
            if is_zero(value_at_once(checked, nesting, env, test)) {
                value(checked, nesting, env, second)
            } else {
                value(checked, nesting, env, first)
            }
        }
        ExprKind::Call(made) => call(checked, nesting, env, &made.function, &made.arguments),
    }
}

/// What an expression is worth, as `value` tells it. Most operands, arguments and tests are numbers or variables: these are
/// told at once, without a frame of `value`.
#[cycle(value)]
pub(crate) fn value_at_once(checked: &Checked, nesting: usize, env: &Env, expr: &Expr) -> Int
    ensures { result ≡ worth (width checked.now) (nested_calls nesting checked.now) env.now expr.now }
{
    match &expr.kind {
        ExprKind::Number(number) => Int::literal(checked.width(), *number),
        ExprKind::Variable(name) => env.value(name),
        _ => value(checked, nesting, env, expr),
    }
}

/// The value of a chain, from the value of what stands before these operands.
#[cycle(value)]
fn chained(checked: &Checked, nesting: usize, env: &Env, first: Int, links: &[Link]) -> Int
    ensures { result ≡ chained (width checked.now) (nested_calls nesting checked.now) env.now first (links_of links.now) }
{
    let mut so_far = first;
    for link in links {
        let operand = value_at_once(checked, nesting, env, &link.operand);
        so_far = between_operands(checked.width(), link.operator, so_far, operand);
    }
    so_far
}

/// What a call answers: 0 if calls nest too deep or the function is missing, as no call of a program that is accepted does.
#[cycle(value)]
fn call(checked: &Checked, nesting: usize, env: &Env, name: &Name, arguments: &[Expr]) -> Int
    ensures { result ≡ nested_calls nesting checked.now name.now (values (width checked.now) (nested_calls nesting checked.now) env.now (exprs_of arguments.now)) }
{
    if nesting == 0 {
        return Int::of(0);
    }
    match function_named(checked, name) {
        None => Int::of(0),
        Some(function) => {
            let count = function.parameters().len().min(arguments.len());
            with_arguments(
                checked,
                nesting,
                env,
                function,
                &arguments[..count],
                &Env::new(),
            )
        }
    }
}

/// What a function answers, if these parameters have values and those before them have the arguments' values.
#[cycle(value)]
fn with_arguments(
    checked: &Checked,
    nesting: usize,
    env: &Env,
    function: &Function,
    arguments: &[Expr],
    bound: &Env,
) -> Int
    requires nests { 0 < nesting }
    requires declared { Contains (functions checked.now) function.now }
    requires within { length arguments.now ≤ length function.now.parameters }
    ensures { result ≡ worth (width checked.now) (nested_calls (nesting - 1) checked.now) (after_lines (width checked.now) (nested_calls (nesting - 1) checked.now) (zip (take (length arguments.now) function.now.parameters) (values (width checked.now) (nested_calls nesting checked.now) env.now (exprs_of arguments.now)) ++ bound.now) function.now.lines) function.now.answer }
{
    match arguments.split_last() {
        None => after_lines(
            checked,
            nesting - 1,
            bound,
            function.lines(),
            function.answer(),
        ),
        Some((argument, before)) => {
            let argument = value_at_once(checked, nesting, env, argument);
            let bound = (&*bound).with(&function.parameters()[before.len()], argument);
            with_arguments(checked, nesting, env, function, before, &bound)
        }
    }
}

/// What an expression is worth behind these lines of its function.
#[cycle(value)]
pub(crate) fn after_lines(
    checked: &Checked,
    nesting: usize,
    env: &Env,
    lines: &[Line],
    answer: &Expr,
) -> Int
    ensures { result ≡ worth (width checked.now) (nested_calls nesting checked.now) (after_lines (width checked.now) (nested_calls nesting checked.now) env.now lines.now) answer.now }
{
    match lines.split_first() {
        None => value(checked, nesting, env, answer),
        Some((line, rest)) => {
            let named = value(checked, nesting, env, line.value());
            let env = (&*env).with(line.name(), named);
            after_lines(checked, nesting, &env, rest, answer)
        }
    }
}
