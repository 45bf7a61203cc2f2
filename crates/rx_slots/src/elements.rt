// Parts of slots that are put together, and how an element ends.
ghost use Rattle.std.specs.Prelude.{◌≡◌, IfOk, IfErr, MatchResult, Err};
ghost use Rattle.rx_lex.specs.Spans.{kinds_of};
ghost use Rattle.rx_ast.specs.Syntax.{choice, slots_of};
ghost use Rattle.rx_ast.specs.SlotView.{key_place_of};
ghost use Rattle.rx_grammar.specs.Openings.{boundary_tag, catcher_tag, opening_of};
ghost use Rattle.rx_grammar.specs.Reading.{closing_name_at};
ghost use Rattle.rx_slots.specs.Parts.{ended_at, filled_at};
ghost use Rattle.rx_expression.specs.Results.{Gives};

use rx_ast::{Child, Element, Expr, KeyPlace, Slot, Tag};
use rx_expression::beside::closed;
use rx_expression::fault::Fault;
use rx_expression::steps::{expect, expect_lower, expect_upper, expect_word};
use rx_lex::{Keyword, Rest, Sign};
use std::alloc::Global;

/// The tag of a boundary.
pub(crate) fn boundary(alloc: Global, key: KeyPlace, fallback: Slot) -> Result<Tag, Fault>
    ensures { MatchResult result (λ t. opening_of t ≡ boundary_tag (key_place_of key) fallback) (λ e. e ≡ Fault.OutOfMemory) }
{
    let fallback = Box::new(alloc, fallback)?;
    Ok(Tag::Suspense { key, fallback })
}

/// The tag of an error boundary.
pub(crate) fn catcher(alloc: Global, key: KeyPlace, fallback: Slot) -> Result<Tag, Fault>
    ensures { MatchResult result (λ t. opening_of t ≡ catcher_tag (key_place_of key) fallback) (λ e. e ≡ Fault.OutOfMemory) }
{
    let fallback = Box::new(alloc, fallback)?;
    Ok(Tag::Catch { key, fallback })
}

/// A choice of the two sides, if both are read.
pub(crate) fn choice<'a>(
    alloc: Global,
    test: Expr,
    sides: Result<(Slot, Slot, Rest<'a>), Fault>,
) -> Result<(Slot, Rest<'a>), Fault>
    ensures ok { IfOk sides.entry (λ x. MatchResult result (λ y. (y.0 ≡ choice test x.0 x.1) × (y.1 ≡ x.2)) (λ e. e ≡ Fault.OutOfMemory)) }
    ensures err { IfErr sides.entry (λ e. result ≡ Err e) }
{
    match sides {
        Ok((first, second, rest)) => Ok((Slot::choice(alloc, test, first, second)?, rest)),
        Err(fault) => Err(fault),
    }
}

/// An element that ends at once, by `/>`.
pub(crate) fn ended<'a>(tag: Tag, rest: Rest<'a>) -> Result<(Element, Rest<'a>), Fault>
    ensures { Gives (λ x. (x.0, kinds_of x.1)) result (ended_at (opening_of tag) (kinds_of rest.entry)) }
{
    let (tag, rest) = closed(tag, expect(rest, Sign::Slash))?;
    let (tag, rest) = closed(tag, expect(rest, Sign::Greater))?;
    Ok((Element::ended(tag), rest))
}

/// What follows the name of the closing tag that is wanted.
fn closing_name<'a>(tag: &Tag, rest: Rest<'a>) -> Result<Rest<'a>, Fault>
    ensures { Gives (λ r. (tt, kinds_of r)) result (closing_name_at (opening_of tag.now) (kinds_of rest.entry)) }
{
    match tag {
        Tag::Host { name, .. } => expect_lower(rest, name.text()),
        Tag::Component { name, .. } => expect_upper(rest, name.text()),
        Tag::Suspense { .. } => expect_word(rest, Keyword::Suspense),
        Tag::Catch { .. } => expect_word(rest, Keyword::Catch),
        Tag::Provider { context, .. } => {
            let rest = expect_upper(rest, context.text())?;
            let rest = expect(rest, Sign::Dot)?;
            expect_word(rest, Keyword::Provider)
        }
    }
}

/// An element with its children, if the name of its closing tag and `>` stand next.
pub(crate) fn filled<'a>(
    tag: Tag,
    children: Vec<Child>,
    rest: Rest<'a>,
) -> Result<(Element, Rest<'a>), Fault>
    ensures { Gives (λ x. (x.0, kinds_of x.1)) result (filled_at (opening_of tag) (slots_of children.items) (kinds_of rest.entry)) }
{
    let name = closing_name(&tag, rest);
    let (filled, rest) = closed(Element::filled(tag, children), name)?;
    closed(filled, expect(rest, Sign::Greater))
}
