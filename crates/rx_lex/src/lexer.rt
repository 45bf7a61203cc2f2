// From a text to its tokens.

ghost use Rattle.std.specs.Prelude.{◌≡◌, ◌≢◌, ◌++◌, ◌∷◌, [], List, ℕ, All, IfOk, IfErr, OnOk, MatchResult, length};
ghost use Rattle.rx_lex.specs.Tokens.{AreTokensOf, IsUncovered, Piece, StandsFirst, end_mark, greatest_in, is_sign, is_text_of, kind_of, kinds, opens_second, second_text};
ghost use Rattle.rx_lex.specs.Spans.{kind_in, seen_if, span_at, tokens_in, tokens_of};
ghost use Rattle.rx_lex.specs.Faults.{IsFault};
ghost use Rattle.rx_lex.specs.declared.token.Kind.TheVariants.{End};
ghost use Rattle.rx_lex.specs.declared.token.Sign.TheVariants as sign;
ghost use Rattle.rx_lex.specs.declared.token.Token.{Token};

use crate::error::LexError;
use crate::gaps::after_gap;
use crate::signs::split_sign;
use crate::spans::{Shape, Span, Tokens, bytes_at};
use crate::strings::split_string;
use crate::token::Sign;
use crate::words::{Fault, brief, split_word, word_shape};
use std::alloc::Global;

/// The greatest number that a program of version 1 writes.
const GREATEST_OF_FIRST: u64 = 2_147_483_648;

/// The greatest number that a program of version 2 writes.
const GREATEST_OF_SECOND: u64 = 9_223_372_036_854_775_808;

/// Whether the token is the text with which a program of version 2 begins.
fn is_second_text(text: &str, token: Span) -> bool
    ensures { result ≡ is_text_of second_text (kind_in text.now token) }
{
    match token.shape {
        Shape::Text(len) => {
            let content = bytes_at(text.as_bytes(), token.place as usize + 1, len as usize);
            content == b"use 2".as_slice()
        }
        _ => false,
    }
}

/// Whether the token is `;`.
fn is_semicolon(token: Span) -> bool
    ensures { (text : List ℕ) → result ≡ is_sign sign.Semicolon (kind_in text token) }
{
    match token.shape {
        Shape::Mark(sign) => sign.is(Sign::Semicolon),
        _ => false,
    }
}

/// Whether the first two tokens are those of version 2.
fn opens_second(text: &str, tokens: &[Span]) -> bool
    ensures { result ≡ opens_second (kinds (tokens_in text.now tokens.now)) }
{
    let Some((first, behind)) = tokens.split_first() else {
        return false;
    };
    let Some((second, _)) = behind.split_first() else {
        return false;
    };
    is_second_text(text, *first) && is_semicolon(*second)
}

/// The greatest number that a text with these tokens writes.
fn greatest_in(text: &str, tokens: &[Span]) -> u64
    ensures { result ≡ greatest_in (tokens_in text.now tokens.now) }
{
    if opens_second(text, tokens) {
        GREATEST_OF_SECOND
    } else {
        GREATEST_OF_FIRST
    }
}

/// What stands at the front of a text: a token, or a gap if there is none, and the rest.
fn front(text: &str, greatest: u64) -> Result<(Option<Shape>, &str), Fault>
    ensures found { IfOk result (λ x. (p : Piece) × StandsFirst greatest p text.now x.1.now × (kind_of p ≡ seen_if text.now x.0)) }
    ensures none { IfErr result (λ e. e ≡ Fault.Uncovered → IsUncovered greatest text.now) }
{
    if let Some(rest) = after_gap(text) {
        return Ok((None, rest));
    }
    if let Some((content, rest)) = split_string(text) {
        let len = brief(content.len())?;
        return Ok((Some(Shape::Text(len)), rest));
    }
    if let Some((sign, rest)) = split_sign(text) {
        return Ok((Some(Shape::Mark(sign)), rest));
    }
    let (word, rest) = split_word(text);
    if word.is_empty() {
        return Err(Fault::Uncovered);
    }
    match word_shape(word, greatest) {
        Ok(shape) => Ok((Some(shape), rest)),
        Err(fault) => Err(fault),
    }
}

/// The token, if one was found.
fn push_found(spans: &mut Vec<Span>, found: Option<Shape>, place: usize) -> Result<(), LexError>
    ensures ok { OnOk result (spans.new.items ≡ spans.old.items ++ span_at place found) }
    ensures err { IfErr result (λ e. e ≡ LexError.OutOfMemory) }
{
    let Some(shape) = found else {
        return Ok(());
    };
    let Ok(place) = brief(place) else {
        return Err(LexError::OutOfMemory);
    };
    spans.push(Span { shape, place })?;
    Ok(())
}

/// The tokens of a program's text with their places in bytes, and an end mark at the text's length.
///
/// At each place the longest token is taken. Between tokens stand blanks and comments. The first two tokens tell the version,
/// and the version tells which numbers are tokens.
///
/// # Errors
///
/// `Lex` exactly if no tokens cover the text, with the first place that none covers, and `OutOfMemory` if out of memory, which is
/// always so for a text of 4 GiB or more.
pub fn lex(alloc: Global, text: &str) -> Result<Tokens<'_>, LexError>
    // The tokens cover the text, and the last one is the only end mark.
    ensures tokens { IfOk result (λ v. (ts : List Token) × AreTokensOf ts text.now
        × (tokens_of v ≡ ts ++ end_mark (length text.now) ∷ []) × All (λ k. k ≢ End) (kinds ts)) }
    // No others do, and if some do they are answered, unless memory runs out.
    ensures only { (ts : List Token) → AreTokensOf ts text.now → MatchResult result
        (λ v. tokens_of v ≡ ts ++ end_mark (length text.now) ∷ []) (λ e. e ≡ LexError.OutOfMemory) }
    // The place is the first that none covers.
    ensures fault { IfErr result (λ e. IsFault e text.now) }
{
    let mut spans = Vec::new(alloc);
    let mut rest = text;
    while !rest.is_empty() {
        let place = text.len() - rest.len();
        match front(rest, greatest_in(text, &spans)) {
            Ok((found, after)) => {
                push_found(&mut spans, found, place)?;
                rest = after;
            }
            Err(Fault::Uncovered) => return Err(LexError::Lex { at: place }),
            Err(Fault::OutOfMemory) => return Err(LexError::OutOfMemory),
        }
    }
    push_found(&mut spans, Some(Shape::End), text.len())?;
    Ok(Tokens { text, spans })
}
