// What operators give.
ghost use Rattle.std.specs.Prelude.{◌≡◌};
ghost use Rattle.rx_base.specs.Arithmetic.{is_zero, truth};
ghost use Rattle.rx_base.specs.Widths.{width_of};
ghost use Rattle.rx_meaning.specs.Expressions.{before_operand, between_operands};

use rx_ast::{Operator, Prefix};
use rx_base::{Int, Width};

/// Whether an integer is 0: a test fails there.
pub(crate) fn is_zero(x: Int) -> bool
    ensures { result ≡ is_zero x }
{
    x.value() == 0
}

/// What a test answers: 1 if it holds, else 0.
fn truth(holds: bool) -> Int
    ensures { result ≡ truth holds }
{
    if holds { Int::of(1) } else { Int::of(0) }
}

/// What an operator before an operand gives.
pub(crate) fn before_operand(width: Width, operator: Prefix, x: Int) -> Int
    ensures { result ≡ before_operand (width_of width) operator x }
{
    match operator {
        Prefix::Not => truth(is_zero(x)),
        Prefix::Negative => Int::neg(width, x),
    }
}

/// What an operator between two operands gives. `||` and `&&` give one of them, as in JavaScript.
pub(crate) fn between_operands(width: Width, operator: Operator, x: Int, y: Int) -> Int
    ensures { result ≡ between_operands (width_of width) operator x y }
{
    match operator {
        Operator::Or => { if is_zero(x) { y } else { x } }
        Operator::And => { if is_zero(x) { x } else { y } }
        Operator::Equal => truth(x.same(y)),
        Operator::NotEqual => truth(!x.same(y)),
        Operator::Less => truth(x.less(y)),
        Operator::LessOrEqual => truth(!y.less(x)),
        Operator::Greater => truth(y.less(x)),
        Operator::GreaterOrEqual => truth(!x.less(y)),
        Operator::Add => Int::add(width, x, y),
        Operator::Subtract => Int::sub(width, x, y),
        Operator::Multiply => Int::mul(width, x, y),
        Operator::Divide => Int::div(width, x, y),
        Operator::Remainder => Int::rem(width, x, y),
    }
}
