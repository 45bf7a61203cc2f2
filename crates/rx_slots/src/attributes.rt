// What an element is given in its opening tag.
ghost use Rattle.std.specs.Prelude.{◌≡◌};
ghost use Rattle.rx_lex.specs.Spans.{kinds_of};
ghost use Rattle.rx_ast.specs.SlotView.{key_place_of};
ghost use Rattle.rx_grammar.specs.Steps.{next};
ghost use Rattle.rx_grammar.specs.Openings.{opening_of};
ghost use Rattle.rx_grammar.specs.Reading.{braced_at, key_at, given_at, is_attribute, attribute_at, attributes_at, last_key_at, keyed_at, value_at, provider_at, upper_tag_at};
ghost use Rattle.rx_slots.specs.Parts.{host_tag_at};
ghost use Rattle.rx_expression.specs.Results.{Gives};

use rx_ast::{Attribute, Expr, KeyPlace, Tag};
use rx_base::Name;
use rx_expression::beside::{beside, closed};
use rx_expression::expressions::expr;
use rx_expression::fault::Fault;
use rx_expression::lists::push;
use rx_expression::steps::{
    expect, expect_lower, expect_word, lower, next_is, next_is_lower, next_is_text, next_is_word,
    text, upper,
};
use rx_lex::{Keyword, Rest, Sign};
use std::alloc::Global;

/// An expression in braces.
fn braced<'a>(alloc: Global, rest: Rest<'a>, level: usize) -> Result<(Expr, Rest<'a>), Fault>
    ensures { Gives (λ x. (x.0, kinds_of x.1)) result (braced_at level (kinds_of rest.entry)) }
{
    let rest = expect(rest, Sign::OpenBrace)?;
    let (value, rest) = expr(alloc, rest, level)?;
    closed(value, expect(rest, Sign::CloseBrace))
}

/// A key.
pub(crate) fn key<'a>(
    alloc: Global,
    rest: Rest<'a>,
    level: usize,
) -> Result<(Expr, Rest<'a>), Fault>
    ensures { Gives (λ x. (x.0, kinds_of x.1)) result (key_at level (kinds_of rest.entry)) }
{
    let rest = expect_word(rest, Keyword::Key)?;
    let rest = expect(rest, Sign::Equals)?;
    braced(alloc, rest, level)
}

/// What an attribute of this name is given behind `=`: an expression in braces, or at an element of the host a text.
fn given<'a>(
    alloc: Global,
    name: Name,
    rest: Rest<'a>,
    level: usize,
    host: bool,
) -> Result<(Attribute, Rest<'a>), Fault>
    ensures { Gives (λ x. (x.0, kinds_of x.1)) result (given_at host level name (kinds_of rest.entry)) }
{
    if host {
        if next_is_text(rest) {
            let (text, rest) = text(alloc, rest)?;
            return Ok((Attribute::literal(name, text), rest));
        }
    }
    let (value, rest) = braced(alloc, rest, level)?;
    Ok((Attribute::computed(name, value), rest))
}

/// An attribute.
#[tactic(auto, unfolding(rx_grammar::specs::Reading::attribute_at))]
fn attribute<'a>(
    alloc: Global,
    rest: Rest<'a>,
    level: usize,
    host: bool,
) -> Result<(Attribute, Rest<'a>), Fault>
    ensures { Gives (λ x. (x.0, kinds_of x.1)) result (attribute_at host level (kinds_of rest.entry)) }
{
    if next_is_word(rest, Keyword::Key) {
        let (value, rest) = key(alloc, rest, level)?;
        return Ok((Attribute::key(value), rest));
    }
    let (name, rest) = lower(alloc, rest)?;
    let rest = expect(rest, Sign::Equals)?;
    given(alloc, name, rest, level, host)
}

/// Whether the next token begins an attribute.
#[tactic(auto, using(crate::proofs::Texts::attribute_next))]
fn next_is_attribute(rest: Rest<'_>) -> bool
    ensures { result ≡ next is_attribute (kinds_of rest.entry) }
{
    next_is_word(rest, Keyword::Key) || next_is_lower(rest)
}

/// The attributes of an element of the host, where texts stand, or of a component.
pub(crate) fn attributes<'a>(
    alloc: Global,
    rest: Rest<'a>,
    level: usize,
    host: bool,
) -> Result<(Vec<Attribute>, Rest<'a>), Fault>
    ensures { Gives (λ x. (x.0.items, kinds_of x.1)) result (attributes_at host level (kinds_of rest.entry)) }
{
    let mut attributes = Vec::new(alloc);
    let mut rest = rest;
    while next_is_attribute(rest) {
        let (attribute, after) = attribute(alloc, rest, level, host)?;
        push(&mut attributes, attribute)?;
        rest = after;
    }
    attributes.shrink_to_fit();
    Ok((attributes, rest))
}

/// A key behind what else is given, or none.
pub(crate) fn last_key<'a>(
    alloc: Global,
    rest: Rest<'a>,
    level: usize,
) -> Result<(KeyPlace, Rest<'a>), Fault>
    ensures { Gives (λ x. (key_place_of x.0, kinds_of x.1)) result (last_key_at level (kinds_of rest.entry)) }
{
    if next_is_word(rest, Keyword::Key) {
        let (key, rest) = key(alloc, rest, level)?;
        return Ok((KeyPlace::Last(Box::new(alloc, key)?), rest));
    }
    Ok((KeyPlace::Unkeyed, rest))
}

/// The value of a provider.
fn value<'a>(alloc: Global, rest: Rest<'a>, level: usize) -> Result<(Expr, Rest<'a>), Fault>
    ensures { Gives (λ x. (x.0, kinds_of x.1)) result (value_at level (kinds_of rest.entry)) }
{
    let rest = expect_lower(rest, "value")?;
    let rest = expect(rest, Sign::Equals)?;
    braced(alloc, rest, level)
}

/// The value of a provider with its key in its place.
fn keyed_value<'a>(
    alloc: Global,
    rest: Rest<'a>,
    level: usize,
) -> Result<(KeyPlace, Expr, Rest<'a>), Fault>
    ensures { Gives (λ x. ((key_place_of x.0, x.1), kinds_of x.2)) result (keyed_at level (value_at level) (kinds_of rest.entry)) }
{
    if next_is_word(rest, Keyword::Key) {
        let (key, rest) = key(alloc, rest, level)?;
        let (key, value, rest) = beside(key, value(alloc, rest, level))?;
        return Ok((KeyPlace::First(Box::new(alloc, key)?), value, rest));
    }
    let (value, rest) = value(alloc, rest, level)?;
    let (value, key, rest) = beside(value, last_key(alloc, rest, level))?;
    Ok((key, value, rest))
}

/// The tag of a provider behind its context.
fn provider<'a>(
    alloc: Global,
    context: Name,
    rest: Rest<'a>,
    level: usize,
) -> Result<(Tag, Rest<'a>), Fault>
    ensures { Gives (λ x. (opening_of x.0, kinds_of x.1)) result (provider_at level context (kinds_of rest.entry)) }
{
    let rest = expect(rest, Sign::Dot)?;
    let rest = expect_word(rest, Keyword::Provider)?;
    let (key, value, rest) = keyed_value(alloc, rest, level)?;
    let value = Box::new(alloc, value)?;
    Ok((
        Tag::Provider {
            context,
            key,
            value,
        },
        rest,
    ))
}

/// The tag of an element of the host.
pub(crate) fn host_tag<'a>(
    alloc: Global,
    rest: Rest<'a>,
    level: usize,
) -> Result<(Tag, Rest<'a>), Fault>
    ensures { Gives (λ x. (opening_of x.0, kinds_of x.1)) result (host_tag_at level (kinds_of rest.entry)) }
{
    let (name, rest) = lower(alloc, rest)?;
    let (attributes, rest) = attributes(alloc, rest, level, true)?;
    Ok((Tag::Host { name, attributes }, rest))
}

/// The tag of a component or a provider.
pub(crate) fn upper_tag<'a>(
    alloc: Global,
    rest: Rest<'a>,
    level: usize,
) -> Result<(Tag, Rest<'a>), Fault>
    ensures { Gives (λ x. (opening_of x.0, kinds_of x.1)) result (upper_tag_at level (kinds_of rest.entry)) }
{
    let (name, rest) = upper(alloc, rest)?;
    if next_is(rest, Sign::Dot) {
        return provider(alloc, name, rest, level);
    }
    let (attributes, rest) = attributes(alloc, rest, level, false)?;
    Ok((Tag::Component { name, attributes }, rest))
}
