// What a program's functions answer, and what its names stand for.
ghost use Rattle.std.specs.Prelude.{◌≡◌, MatchOption, None, Some, ◌∷◌, [], slice_get};
ghost use Rattle.rx_ast.specs.Syntax.{components};
ghost use Rattle.rx_rules.specs.Names.{component_number, context_number, resource_number};
ghost use Rattle.rx_rules.specs.Versions.{width};
ghost use Rattle.rx_meaning.specs.Expressions.{calls_of, value_in, answer, answers_of, after_lines};

use crate::env::Env;
use crate::values::{after_lines, value_at_once};
use rx_ast::{Component, Expr, Function};
use rx_base::{Int, Name};
use rx_check::Checked;
use rx_queue::{Fold, Op};
use std::marker::Model;

/// A program whose functions are called and whose bodies are evaluated. It borrows the program and takes no memory.
/// Contracts see it as the program.
#[derive(Drop)]
pub struct Evaluator<'a> {
    checked: &'a Checked,
    /// How deep calls may nest: no function reaches itself, so as many as there are functions.
    nesting: usize,
}

impl<'a> Model for Evaluator<'a> {
    ghost use Rattle.std.specs.Prelude.{◌≡◌, length};
    ghost use Rattle.rx_ast.specs.Syntax as syntax;
    ghost use Rattle.rx_ast.specs.ProgramCodes.{program_code};

    ghost Value = { syntax.Program };

    ghost coded = { program_code };

    ghost view = { λ e. e.checked.now };

    ghost invariant = { λ e. e.nesting ≡ length (syntax.functions e.checked.now) };
}

impl<'a> Evaluator<'a> {
    /// What evaluates this program.
    pub fn new(checked: &'a Checked) -> Evaluator<'a>
        ensures { result ≡ checked.now }
    {
        let nesting = checked.function_count();
        Evaluator { checked, nesting }
    }

    /// The component of this number, in the order of the text.
    pub(crate) fn component_at(&self, number: u32) -> Option<&Component>
        ensures { MatchOption result (slice_get (components self.now) number ≡ None) (λ c. slice_get (components self.now) number ≡ Some c.now) }
    {
        self.checked.component_at(number)
    }

    /// What an expression is worth.
    pub(crate) fn value(&self, env: &Env, expr: &Expr) -> Int
        ensures { result ≡ value_in self.now env.now expr.now }
    {
        value_at_once(self.checked, self.nesting, env, expr)
    }

    /// The number of a component; 0 if there is none, for which no program that is accepted asks.
    pub(crate) fn component(&self, name: &Name) -> u32
        ensures { result ≡ component_number self.now name.now }
    {
        self.checked.component(name.text()).unwrap_or(0)
    }

    /// The number of a context; 0 if there is none, for which no program that is accepted asks.
    pub(crate) fn context(&self, name: &Name) -> u32
        ensures { result ≡ context_number self.now name.now }
    {
        self.checked.context(name.text()).unwrap_or(0)
    }

    /// The number of a resource.
    pub(crate) fn resource(&self, name: &Name) -> u32
        ensures { result ≡ resource_number self.now name.now }
    {
        self.checked.resource(name.text()).unwrap_or(0)
    }

    /// What a function, given by its number, makes of the state of a hook and an argument; 0 if there is none.
    pub fn apply(&self, function: u32, state: Int, argument: Int) -> Int
        ensures { result ≡ answers_of self.now function state argument }
    {
        match self.checked.function_at(function) {
            None => Int::of(0),
            Some(function) => self.answer(function, state, argument),
        }
    }

    /// What a function answers for two arguments.
    fn answer(&self, function: &Function, state: Int, argument: Int) -> Int
        ensures { result ≡ answer (width self.now) (calls_of self.now) (Some function.now) (state ∷ argument ∷ []) }
    {
        let none = Env::new();
        match function.parameters() {
            [] => self.behind(function, &none),
            [first] => self.behind(function, &none.with(first, state)),
            [first, second, ..] => {
                let bound = none.with(second, argument);
                self.behind(function, &bound.with(first, state))
            }
        }
    }

    /// What a function answers if its parameters have these values.
    fn behind(&self, function: &Function, env: &Env) -> Int
        ensures { result ≡ value_in self.now (after_lines (width self.now) (calls_of self.now) env.now function.now.lines) function.now.answer }
    {
        after_lines(
            self.checked,
            self.nesting,
            env,
            function.lines(),
            function.answer(),
        )
    }
}

/// What a program makes of the states of its hooks.
impl<'a> Fold for Evaluator<'a> {
    ghost use Rattle.rx_meaning.specs.Expressions.{answers_of};

    ghost answers = { answers_of };

    fn apply(&self, op: &Op, state: Int) -> Int {
        match *op {
            Op::Set(value) => value,
            Op::Call(function, argument) => Evaluator::apply(self, function, state, argument),
            Op::Refresh => state,
        }
    }
}

/// What a function, given by its number in the order of the text, makes of the state of a hook and an argument (react.dev,
/// useReducer): the value of its `return` behind its lines. 0 if there is no such function.
pub fn apply_fn(checked: &Checked, function: u32, state: Int, argument: Int) -> Int
    ensures { result ≡ answers_of checked.now function state argument }
{
    Evaluator::new(checked).apply(function, state, argument)
}
