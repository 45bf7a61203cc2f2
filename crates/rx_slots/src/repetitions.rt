// How often an item of a list is repeated.
ghost use Rattle.rx_lex.specs.Spans.{kinds_of};
ghost use Rattle.rx_grammar.specs.Reading.{expr_at};
ghost use Rattle.rx_slots.specs.Parts.{repetition_at};
ghost use Rattle.rx_expression.specs.Results.{Gives};

use rx_ast::Expr;
use rx_base::Name;
use rx_expression::beside::{beside, closed};
use rx_expression::expressions::expr;
use rx_expression::fault::Fault;
use rx_expression::steps::{expect, expect_word, lower, number};
use rx_lex::{Keyword, Rest, Sign};
use std::alloc::Global;

/// `for (index < bound, limit)`
#[tactic(auto, unfolding(crate::specs::Parts::repetition_at))]
pub(crate) fn repetition<'a>(
    alloc: Global,
    rest: Rest<'a>,
    level: usize,
) -> Result<(Name, Expr, u64, Rest<'a>), Fault>
    ensures { Gives (λ x. ((x.0, (x.1, x.2)), kinds_of x.3)) result (repetition_at (expr_at level) (kinds_of rest.entry)) }
{
    let rest = expect_word(rest, Keyword::For)?;
    let rest = expect(rest, Sign::OpenParen)?;
    let (index, rest) = lower(alloc, rest)?;
    let rest = expect(rest, Sign::Less)?;
    let (bound, rest) = expr(alloc, rest, level)?;
    let (bound, rest) = closed(bound, expect(rest, Sign::Comma))?;
    let (bound, limit, rest) = beside(bound, number(rest))?;
    let (bound, rest) = closed(bound, expect(rest, Sign::CloseParen))?;
    Ok((index, bound, limit, rest))
}
