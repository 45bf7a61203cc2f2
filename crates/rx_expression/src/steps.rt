// The next token.
ghost use Rattle.std.specs.Prelude.{◌≡◌, drop};
ghost use Rattle.std.specs.List.{list_all};
ghost use Rattle.rx_lex.specs.Tokens.{is_text_of, is_word_byte};
ghost use Rattle.rx_lex.specs.Spans.{kinds_of};
ghost use Rattle.rx_grammar.specs.Steps.{next, taken, is_mark, is_word, is_lower, is_text, as_word, as_lower, as_upper, as_number, as_text, as_lower_name, as_upper_name, as_end};
ghost use Rattle.rx_grammar.specs.Reading.{sign_at, is_resource, as_resource, as_this_text, next_two};
ghost use Rattle.rx_expression.specs.Results.{Gives};

use crate::fault::Fault;
use rx_base::Name;
use rx_lex::{Keyword, Rest, Shape, Sign};
use std::alloc::Global;

/// Whether the next token is this sign.
pub fn next_is(rest: Rest<'_>, sign: Sign) -> bool
    ensures { result ≡ next (is_mark sign) (kinds_of rest.entry) }
{
    match rest.split_first() {
        Some((span, _)) => match span.shape {
            Shape::Mark(found) => found.is(sign),
            _ => false,
        },
        None => false,
    }
}

/// Whether the next token is this reserved word.
pub fn next_is_word(rest: Rest<'_>, word: Keyword) -> bool
    ensures { result ≡ next (is_word word) (kinds_of rest.entry) }
{
    match rest.split_first() {
        Some((span, _)) => match span.shape {
            Shape::Word(found) => found.is(word),
            _ => false,
        },
        None => false,
    }
}

/// Whether the next token is a name that does not begin with a capital letter.
pub fn next_is_lower(rest: Rest<'_>) -> bool
    ensures { result ≡ next is_lower (kinds_of rest.entry) }
{
    match rest.split_first() {
        Some((span, _)) => matches!(span.shape, Shape::Lower(_)),
        None => false,
    }
}

/// Whether the next token is a string.
pub fn next_is_text(rest: Rest<'_>) -> bool
    ensures { result ≡ next is_text (kinds_of rest.entry) }
{
    match rest.split_first() {
        Some((span, _)) => matches!(span.shape, Shape::Text(_)),
        None => false,
    }
}

/// Whether the next token is the string with this between its quotes.
pub fn next_is_content(rest: Rest<'_>, content: &str) -> bool
    ensures { result ≡ next (is_text_of content.now) (kinds_of rest.entry) }
{
    match rest.split_first() {
        Some((span, _)) => match span.shape {
            Shape::Text(len) => rest.content(span.place, len) == content,
            _ => false,
        },
        None => false,
    }
}

/// What follows the next token.
fn behind(rest: Rest<'_>) -> Rest<'_>
    ensures { kinds_of result ≡ drop 1 (kinds_of rest.entry) }
{
    match rest.split_first() {
        Some((_, behind)) => behind,
        None => rest,
    }
}

/// Whether these two signs stand next.
pub fn next_are(rest: Rest<'_>, first: Sign, second: Sign) -> bool
    ensures { result ≡ next_two first second (kinds_of rest.entry) }
{
    next_is(rest, first) && next_is(behind(rest), second)
}

/// What follows the sign that is wanted.
pub fn expect(rest: Rest<'_>, sign: Sign) -> Result<Rest<'_>, Fault>
    ensures { Gives (λ r. (tt, kinds_of r)) result (sign_at sign (kinds_of rest.entry)) }
{
    let Some((span, after)) = rest.split_first() else {
        return Err(Fault::Syntax(0));
    };
    match span.shape {
        Shape::Mark(found) if found.is(sign) => Ok(after),
        _ => Err(Fault::Syntax(rest.len())),
    }
}

/// What follows the reserved word that is wanted.
pub fn expect_word(rest: Rest<'_>, word: Keyword) -> Result<Rest<'_>, Fault>
    ensures { Gives (λ r. (tt, kinds_of r)) result (taken (as_word word) (kinds_of rest.entry)) }
{
    let Some((span, after)) = rest.split_first() else {
        return Err(Fault::Syntax(0));
    };
    match span.shape {
        Shape::Word(found) if found.is(word) => Ok(after),
        _ => Err(Fault::Syntax(rest.len())),
    }
}

/// What follows the name that is wanted, which does not begin with a capital letter.
pub fn expect_lower<'a>(rest: Rest<'a>, name: &str) -> Result<Rest<'a>, Fault>
    ensures { Gives (λ r. (tt, kinds_of r)) result (taken (as_lower_name name.now) (kinds_of rest.entry)) }
{
    let Some((span, after)) = rest.split_first() else {
        return Err(Fault::Syntax(0));
    };
    match span.shape {
        Shape::Lower(len) if rest.name(span.place, len) == name => Ok(after),
        _ => Err(Fault::Syntax(rest.len())),
    }
}

/// What follows the name that is wanted, which begins with a capital letter.
pub fn expect_upper<'a>(rest: Rest<'a>, name: &str) -> Result<Rest<'a>, Fault>
    ensures { Gives (λ r. (tt, kinds_of r)) result (taken (as_upper_name name.now) (kinds_of rest.entry)) }
{
    let Some((span, after)) = rest.split_first() else {
        return Err(Fault::Syntax(0));
    };
    match span.shape {
        Shape::Upper(len) if rest.name(span.place, len) == name => Ok(after),
        _ => Err(Fault::Syntax(rest.len())),
    }
}

/// What follows the string that is wanted, with this between its quotes.
pub fn expect_content<'a>(rest: Rest<'a>, content: &str) -> Result<Rest<'a>, Fault>
    ensures { Gives (λ r. (tt, kinds_of r)) result (taken (as_this_text content.now) (kinds_of rest.entry)) }
{
    let Some((span, after)) = rest.split_first() else {
        return Err(Fault::Syntax(0));
    };
    match span.shape {
        Shape::Text(len) if rest.content(span.place, len) == content => Ok(after),
        _ => Err(Fault::Syntax(rest.len())),
    }
}

/// A name that does not begin with a capital letter.
pub fn lower<'a>(alloc: Global, rest: Rest<'a>) -> Result<(Name, Rest<'a>), Fault>
    ensures { Gives (λ x. (x.0, kinds_of x.1)) result (taken as_lower (kinds_of rest.entry)) }
{
    let Some((span, after)) = rest.split_first() else {
        return Err(Fault::Syntax(0));
    };
    match span.shape {
        Shape::Lower(len) => Ok((Name::new(alloc, rest.name(span.place, len))?, after)),
        _ => Err(Fault::Syntax(rest.len())),
    }
}

/// A name that begins with a capital letter.
pub fn upper<'a>(alloc: Global, rest: Rest<'a>) -> Result<(Name, Rest<'a>), Fault>
    ensures { Gives (λ x. (x.0, kinds_of x.1)) result (taken as_upper (kinds_of rest.entry)) }
{
    let Some((span, after)) = rest.split_first() else {
        return Err(Fault::Syntax(0));
    };
    match span.shape {
        Shape::Upper(len) => Ok((Name::new(alloc, rest.name(span.place, len))?, after)),
        _ => Err(Fault::Syntax(rest.len())),
    }
}

/// A string, as what stands between its quotes.
pub fn text<'a>(alloc: Global, rest: Rest<'a>) -> Result<(Name, Rest<'a>), Fault>
    ensures { Gives (λ x. (x.0, kinds_of x.1)) result (taken as_text (kinds_of rest.entry)) }
{
    let Some((span, after)) = rest.split_first() else {
        return Err(Fault::Syntax(0));
    };
    match span.shape {
        Shape::Text(len) => Ok((Name::new(alloc, rest.content(span.place, len))?, after)),
        _ => Err(Fault::Syntax(rest.len())),
    }
}

/// A number.
pub fn number(rest: Rest<'_>) -> Result<(u64, Rest<'_>), Fault>
    ensures { Gives (λ x. (x.0, kinds_of x.1)) result (taken as_number (kinds_of rest.entry)) }
{
    let Some((span, after)) = rest.split_first() else {
        return Err(Fault::Syntax(0));
    };
    match span.shape {
        Shape::Number(len) => Ok((rest.number(span.place, len), after)),
        _ => Err(Fault::Syntax(rest.len())),
    }
}

/// Whether a byte is a letter, a digit, `_` or `$`.
fn is_word_byte(byte: u8) -> bool
    ensures { result ≡ is_word_byte byte }
{
    byte.is_ascii_alphanumeric() || byte == b'_' || byte == b'$'
}

/// Whether each byte is a letter, a digit, `_` or `$`.
fn are_word_bytes(bytes: &[u8]) -> bool
    ensures { result ≡ list_all is_word_byte bytes.now }
{
    bytes.iter().all(|byte| is_word_byte(*byte))
}

/// Whether a text names a resource: one or more letters, digits, `_` and `$`.
#[tactic(auto, using(crate::proofs::Texts::resource_is))]
fn is_resource(text: &str) -> bool
    ensures { result ≡ is_resource text.now }
{
    let bytes = text.as_bytes();
    if bytes.is_empty() {
        return false;
    }
    are_word_bytes(bytes)
}

/// The name of a resource, as what stands between the quotes.
pub fn resource<'a>(alloc: Global, rest: Rest<'a>) -> Result<(Name, Rest<'a>), Fault>
    ensures { Gives (λ x. (x.0, kinds_of x.1)) result (taken as_resource (kinds_of rest.entry)) }
{
    let Some((span, after)) = rest.split_first() else {
        return Err(Fault::Syntax(0));
    };
    match span.shape {
        Shape::Text(len) => {
            let content = rest.content(span.place, len);
            if !is_resource(content) {
                return Err(Fault::Syntax(rest.len()));
            }
            Ok((Name::new(alloc, content)?, after))
        }
        _ => Err(Fault::Syntax(rest.len())),
    }
}

/// What follows the end mark.
pub fn expect_end(rest: Rest<'_>) -> Result<Rest<'_>, Fault>
    ensures { Gives (λ r. (tt, kinds_of r)) result (taken as_end (kinds_of rest.entry)) }
{
    let Some((span, after)) = rest.split_first() else {
        return Err(Fault::Syntax(0));
    };
    match span.shape {
        Shape::End => Ok(after),
        _ => Err(Fault::Syntax(rest.len())),
    }
}
