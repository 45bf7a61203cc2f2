// Slots, elements and child lists.
ghost use Rattle.rx_lex.specs.Spans.{kinds_of};
ghost use Rattle.rx_ast.specs.SlotView.{key_place_of};
ghost use Rattle.rx_grammar.specs.Openings.{opening_of};
ghost use Rattle.rx_grammar.specs.Reading.{keyed_at, braced_slot, fallback_at, tag_at, end_or_element, child_at, element_at, enclosed_at, repeated_at, shown_at, plain_with, slot_with, slot_inner, slot_at, children_at, element_behind};
ghost use Rattle.rx_slots.specs.Parts.{sides_at};
ghost use Rattle.rx_expression.specs.Results.{Gives};

use crate::attributes::{host_tag, key, last_key, upper_tag};
use crate::elements::{boundary, catcher, choice, ended, filled};
use crate::repetitions::repetition;
use rx_ast::{Child, Element, KeyPlace, Slot, Tag};
use rx_expression::beside::{beside, closed};
use rx_expression::expressions::{OR_LINE, line};
use rx_expression::fault::Fault;
use rx_expression::lists::push;
use rx_expression::steps::{
    expect, expect_lower, expect_word, next_are, next_is, next_is_lower, next_is_text,
    next_is_word, text,
};
use rx_lex::{Keyword, Rest, Sign};
use std::alloc::Global;

/// A slot in braces.
#[cycle(slot)]
fn braced_slot<'a>(alloc: Global, rest: Rest<'a>, level: usize) -> Result<(Slot, Rest<'a>), Fault>
    ensures { Gives (λ x. (x.0, kinds_of x.1)) result (braced_slot (slot_at level) (kinds_of rest.entry)) }
{
    let rest = expect(rest, Sign::OpenBrace)?;
    let (slot, rest) = slot(alloc, rest, level)?;
    closed(slot, expect(rest, Sign::CloseBrace))
}

/// The fallback of a boundary, of Suspense or of errors.
#[cycle(slot)]
fn fallback<'a>(alloc: Global, rest: Rest<'a>, level: usize) -> Result<(Slot, Rest<'a>), Fault>
    ensures { Gives (λ x. (x.0, kinds_of x.1)) result (fallback_at (slot_at level) (kinds_of rest.entry)) }
{
    let rest = expect_lower(rest, "fallback")?;
    let rest = expect(rest, Sign::Equals)?;
    braced_slot(alloc, rest, level)
}

/// The fallback of a boundary, of Suspense or of errors, with its key in its place.
#[cycle(slot)]
fn keyed_fallback<'a>(
    alloc: Global,
    rest: Rest<'a>,
    level: usize,
) -> Result<(KeyPlace, Slot, Rest<'a>), Fault>
    ensures { Gives (λ x. ((key_place_of x.0, x.1), kinds_of x.2)) result (keyed_at level (fallback_at (slot_at level)) (kinds_of rest.entry)) }
{
    if next_is_word(rest, Keyword::Key) {
        let (key, rest) = key(alloc, rest, level)?;
        let (key, fallback, rest) = beside(key, fallback(alloc, rest, level))?;
        return Ok((KeyPlace::First(Box::new(alloc, key)?), fallback, rest));
    }
    let (fallback, rest) = fallback(alloc, rest, level)?;
    let (fallback, key, rest) = beside(fallback, last_key(alloc, rest, level))?;
    Ok((key, fallback, rest))
}

/// An opening tag behind its `<`.
#[cycle(slot)]
#[tactic(auto, unfolding(rx_grammar::specs::Reading::tag_at))]
fn tag<'a>(alloc: Global, rest: Rest<'a>, level: usize) -> Result<(Tag, Rest<'a>), Fault>
    ensures { Gives (λ x. (opening_of x.0, kinds_of x.1)) result (tag_at (slot_at level) level (kinds_of rest.entry)) }
{
    if next_is_word(rest, Keyword::Suspense) {
        let rest = expect_word(rest, Keyword::Suspense)?;
        let (key, fallback, rest) = keyed_fallback(alloc, rest, level)?;
        return Ok((boundary(alloc, key, fallback)?, rest));
    }
    if next_is_word(rest, Keyword::Catch) {
        let rest = expect_word(rest, Keyword::Catch)?;
        let (key, fallback, rest) = keyed_fallback(alloc, rest, level)?;
        return Ok((catcher(alloc, key, fallback)?, rest));
    }
    if next_is_lower(rest) {
        return host_tag(alloc, rest, level);
    }
    upper_tag(alloc, rest, level)
}

/// Behind the `<` of a child list: an element, or none if the list ends.
#[cycle(slot)]
fn end_or_element<'a>(
    alloc: Global,
    rest: Rest<'a>,
    level: usize,
) -> Result<(Option<Child>, Rest<'a>), Fault>
    ensures { Gives (λ x. (x.0, kinds_of x.1)) result (end_or_element (slot_inner level) (kinds_of rest.entry)) }
{
    if next_is(rest, Sign::Slash) {
        let rest = expect(rest, Sign::Slash)?;
        return Ok((None, rest));
    }
    if level == 0 {
        return Err(Fault::Syntax(rest.len()));
    }
    let (element, rest) = behind_less(alloc, rest, level - 1)?;
    Ok((Some(Child::element(element)), rest))
}

/// A child, or none if the child list ends.
#[cycle(slot)]
#[tactic(auto, unfolding(rx_grammar::specs::Reading::child_at))]
fn child<'a>(
    alloc: Global,
    rest: Rest<'a>,
    level: usize,
) -> Result<(Option<Child>, Rest<'a>), Fault>
    ensures { Gives (λ x. (x.0, kinds_of x.1)) result (child_at (slot_inner level) (slot_at level) (kinds_of rest.entry)) }
{
    if next_is(rest, Sign::OpenBrace) {
        let (slot, rest) = braced_slot(alloc, rest, level)?;
        return Ok((Some(Child::braced(slot)), rest));
    }
    let rest = expect(rest, Sign::Less)?;
    end_or_element(alloc, rest, level)
}

/// Children up to and with the `</` that ends them.
#[cycle(slot)]
pub(crate) fn children<'a>(
    alloc: Global,
    rest: Rest<'a>,
    level: usize,
) -> Result<(Vec<Child>, Rest<'a>), Fault>
    ensures { Gives (λ x. (x.0.items, kinds_of x.1)) result (children_at level (kinds_of rest.entry)) }
{
    let mut children = Vec::new(alloc);
    let mut rest = rest;
    loop {
        let (child, after) = child(alloc, rest, level)?;
        rest = after;
        let Some(child) = child else {
            children.shrink_to_fit();
            return Ok((children, rest));
        };
        push(&mut children, child)?;
    }
}

/// An element behind its `<`, with so many levels left in it.
#[cycle(slot)]
#[tactic(auto, unfolding(rx_grammar::specs::Reading::element_with, rx_grammar::specs::Reading::content_at))]
pub(crate) fn behind_less<'a>(
    alloc: Global,
    rest: Rest<'a>,
    level: usize,
) -> Result<(Element, Rest<'a>), Fault>
    ensures { Gives (λ x. (x.0, kinds_of x.1)) result (element_behind level (kinds_of rest.entry)) }
{
    let (tag, rest) = tag(alloc, rest, level)?;
    if next_is(rest, Sign::Slash) {
        return ended(tag, rest);
    }
    let (tag, rest) = closed(tag, expect(rest, Sign::Greater))?;
    let (tag, children, rest) = beside(tag, children(alloc, rest, level))?;
    filled(tag, children, rest)
}

/// An element.
#[cycle(slot)]
fn element<'a>(alloc: Global, rest: Rest<'a>, level: usize) -> Result<(Element, Rest<'a>), Fault>
    ensures { Gives (λ x. (x.0, kinds_of x.1)) result (element_at (slot_inner level) (kinds_of rest.entry)) }
{
    if level == 0 {
        return Err(Fault::Syntax(rest.len()));
    }
    let rest = expect(rest, Sign::Less)?;
    behind_less(alloc, rest, level - 1)
}

/// An element in parentheses.
#[cycle(slot)]
fn enclosed<'a>(alloc: Global, rest: Rest<'a>, level: usize) -> Result<(Slot, Rest<'a>), Fault>
    ensures { Gives (λ x. (x.0, kinds_of x.1)) result (enclosed_at (slot_inner level) (kinds_of rest.entry)) }
{
    if level == 0 {
        return Err(Fault::Syntax(rest.len()));
    }
    let rest = expect(rest, Sign::OpenParen)?;
    let (element, rest) = element(alloc, rest, level - 1)?;
    let (element, rest) = closed(element, expect(rest, Sign::CloseParen))?;
    Ok((Slot::enclosed(element), rest))
}

/// `for (index < bound, limit) item`
#[cycle(slot)]
fn repeated<'a>(alloc: Global, rest: Rest<'a>, level: usize) -> Result<(Slot, Rest<'a>), Fault>
    ensures { Gives (λ x. (x.0, kinds_of x.1)) result (repeated_at (slot_inner level) (kinds_of rest.entry)) }
{
    if level == 0 {
        return Err(Fault::Syntax(rest.len()));
    }
    let (index, bound, limit, rest) = repetition(alloc, rest, level - 1)?;
    let (bound, item, rest) = beside(bound, slot(alloc, rest, level - 1))?;
    Ok((Slot::repeated(alloc, index, bound, limit, item)?, rest))
}

/// The two sides of a choice behind its test.
#[cycle(slot)]
fn sides<'a>(alloc: Global, rest: Rest<'a>, level: usize) -> Result<(Slot, Slot, Rest<'a>), Fault>
    ensures { Gives (λ x. ((x.0, x.1), kinds_of x.2)) result (sides_at (slot_inner level) (kinds_of rest.entry)) }
{
    if level == 0 {
        return Err(Fault::Syntax(rest.len()));
    }
    let rest = expect(rest, Sign::Question)?;
    let (first, rest) = slot(alloc, rest, level - 1)?;
    let (first, rest) = closed(first, expect(rest, Sign::Colon))?;
    beside(first, slot(alloc, rest, level - 1))
}

/// An integer, or a choice.
#[cycle(slot)]
fn shown<'a>(alloc: Global, rest: Rest<'a>, level: usize) -> Result<(Slot, Rest<'a>), Fault>
    ensures { Gives (λ x. (x.0, kinds_of x.1)) result (shown_at (slot_inner level) level (kinds_of rest.entry)) }
{
    let (test, rest) = line(alloc, rest, OR_LINE, level)?;
    if next_is(rest, Sign::Question) {
        return choice(alloc, test, sides(alloc, rest, level));
    }
    Ok((Slot::value(test), rest))
}

/// A slot that is no element.
#[cycle(slot)]
#[tactic(auto, unfolding(rx_grammar::specs::Reading::plain_with))]
pub(crate) fn plain<'a>(
    alloc: Global,
    rest: Rest<'a>,
    level: usize,
) -> Result<(Slot, Rest<'a>), Fault>
    ensures { Gives (λ x. (x.0, kinds_of x.1)) result (plain_with (slot_inner level) level (kinds_of rest.entry)) }
{
    if next_is_word(rest, Keyword::Null) {
        let rest = expect_word(rest, Keyword::Null)?;
        return Ok((Slot::null(), rest));
    }
    if next_is_text(rest) {
        let (text, rest) = text(alloc, rest)?;
        return Ok((Slot::text(text), rest));
    }
    if next_is_word(rest, Keyword::Children) {
        let rest = expect_word(rest, Keyword::Children)?;
        return Ok((Slot::children(), rest));
    }
    if next_is_word(rest, Keyword::For) {
        return repeated(alloc, rest, level);
    }
    shown(alloc, rest, level)
}

/// A slot with so many levels left.
#[cycle(slot)]
#[tactic(auto, unfolding(rx_grammar::specs::Reading::slot_with))]
fn slot<'a>(alloc: Global, rest: Rest<'a>, level: usize) -> Result<(Slot, Rest<'a>), Fault>
    ensures { Gives (λ x. (x.0, kinds_of x.1)) result (slot_at level (kinds_of rest.entry)) }
{
    if next_is(rest, Sign::Less) {
        let (element, rest) = element(alloc, rest, level)?;
        return Ok((Slot::element(element), rest));
    }
    if next_are(rest, Sign::OpenParen, Sign::Less) {
        return enclosed(alloc, rest, level);
    }
    plain(alloc, rest, level)
}
