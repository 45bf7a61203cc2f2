// What a component returns.
ghost use Rattle.std.specs.Prelude.{◌≡◌};
ghost use Rattle.rx_lex.specs.Spans.{kinds_of};
ghost use Rattle.rx_grammar.specs.Reading.{fragment_at, opened_body, enclosed_body_of, enclosed_body, body_at, slot_inner, children_at};
ghost use Rattle.rx_slots.specs.Jsx.{alone};
ghost use Rattle.rx_expression.specs.Results.{Gives};

use crate::slots::{behind_less, children, plain};
use rx_ast::{Body, Child, Element, Fragment, Slot};
use rx_expression::beside::closed;
use rx_expression::fault::Fault;
use rx_expression::steps::{expect, next_are, next_is};
use rx_lex::{Rest, Sign};
use std::alloc::Global;

/// What begins with `<`.
#[derive(Drop)]
enum Jsx {
    Element(Element),
    /// A fragment, by its children.
    Fragment(Vec<Child>),
}

impl Jsx {
    /// A body of it alone.
    fn alone(self) -> Body
        ensures { result ≡ alone self }
    {
        match self {
            Jsx::Element(element) => Body::slot(Slot::element(element)),
            Jsx::Fragment(children) => Body::fragment(Fragment::new(children)),
        }
    }

    /// A body of it in parentheses.
    fn enclosed(self) -> Body
        ensures { result ≡ enclosed_body_of (alone self) }
    {
        match self {
            Jsx::Element(element) => Body::slot(Slot::enclosed(element)),
            Jsx::Fragment(children) => Body::enclosed(Fragment::new(children)),
        }
    }
}

/// The children of a fragment behind its `<`, with so many levels left in it.
fn fragment<'a>(
    alloc: Global,
    rest: Rest<'a>,
    level: usize,
) -> Result<(Vec<Child>, Rest<'a>), Fault>
    ensures { Gives (λ x. (x.0.items, kinds_of x.1)) result (fragment_at (children_at level) (kinds_of rest.entry)) }
{
    let rest = expect(rest, Sign::Greater)?;
    let (children, rest) = children(alloc, rest, level)?;
    closed(children, expect(rest, Sign::Greater))
}

/// An element or a fragment.
fn opened<'a>(alloc: Global, rest: Rest<'a>, level: usize) -> Result<(Jsx, Rest<'a>), Fault>
    ensures { Gives (λ x. (alone x.0, kinds_of x.1)) result (opened_body (slot_inner level) (kinds_of rest.entry)) }
{
    if level == 0 {
        return Err(Fault::Syntax(rest.len()));
    }
    let rest = expect(rest, Sign::Less)?;
    if next_is(rest, Sign::Greater) {
        let (children, rest) = fragment(alloc, rest, level - 1)?;
        return Ok((Jsx::Fragment(children), rest));
    }
    let (element, rest) = behind_less(alloc, rest, level - 1)?;
    Ok((Jsx::Element(element), rest))
}

/// An element or a fragment in parentheses.
fn enclosed<'a>(alloc: Global, rest: Rest<'a>, level: usize) -> Result<(Body, Rest<'a>), Fault>
    ensures { Gives (λ x. (x.0, kinds_of x.1)) result (enclosed_body level (kinds_of rest.entry)) }
{
    if level == 0 {
        return Err(Fault::Syntax(rest.len()));
    }
    let rest = expect(rest, Sign::OpenParen)?;
    let (opened, rest) = opened(alloc, rest, level - 1)?;
    let (opened, rest) = closed(opened, expect(rest, Sign::CloseParen))?;
    Ok((opened.enclosed(), rest))
}

/// What a component returns.
#[tactic(auto, unfolding(rx_grammar::specs::Reading::body_at))]
pub fn body<'a>(alloc: Global, rest: Rest<'a>, level: usize) -> Result<(Body, Rest<'a>), Fault>
    ensures { Gives (λ x. (x.0, kinds_of x.1)) result (body_at level (kinds_of rest.entry)) }
{
    if next_is(rest, Sign::Less) {
        let (opened, rest) = opened(alloc, rest, level)?;
        return Ok((opened.alone(), rest));
    }
    if next_are(rest, Sign::OpenParen, Sign::Less) {
        return enclosed(alloc, rest, level);
    }
    let (slot, rest) = plain(alloc, rest, level)?;
    Ok((Body::slot(slot), rest))
}
