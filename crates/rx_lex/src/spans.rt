// Tokens as a list keeps them: each by its place in the text, with a length instead of what it holds.

ghost use Rattle.std.specs.Prelude.{◌≡◌, ◌∷◌, ◌<◌, [], length, drop, get_or, IfSome, IfNone};
ghost use Rattle.rx_lex.specs.Spans.{as_text, bytes_at, cut, kind_in, kinds_of, number_in, tokens_of, tokens_left};
ghost use Rattle.rx_lex.specs.declared.token.Token.{Token};

use crate::token::{Keyword, Sign};
use crate::words::number_in;
use std::str;

/// What a token is, with the length of the name, the number or the string that it holds.
#[derive(Clone, Copy, Debug)]
pub enum Shape {
    /// A name of so many bytes that begins with a capital letter.
    Upper(u32),
    /// Any other name of so many bytes.
    Lower(u32),
    /// A number of so many digits.
    Number(u32),
    /// A string with so many bytes between its quotes.
    Text(u32),
    /// A reserved word.
    Word(Keyword),
    /// A sign.
    Mark(Sign),
    /// The end of the text.
    End,
}

/// A token by the place of its first byte in the text. It takes 12 bytes, and what it holds is read from the text.
#[derive(Clone, Copy, Debug)]
pub struct Span {
    pub shape: Shape,
    pub place: u32,
}

/// The tokens of a text, beside the text. Contracts see them as a list (`tokens_of`).
#[derive(Drop)]
pub struct Tokens<'a> {
    pub(crate) text: &'a str,
    pub(crate) spans: Vec<Span>,
}

/// The tokens of a text from one on. Contracts see what they are as a list (`kinds_of`).
#[derive(Clone, Copy)]
pub struct Rest<'a> {
    pub(crate) text: &'a str,
    pub(crate) spans: &'a [Span],
}

/// So many bytes from a place on, or as many as there are.
pub(crate) fn bytes_at(bytes: &[u8], place: usize, len: usize) -> &[u8]
    ensures { result.now ≡ bytes_at len place bytes.now }
{
    if bytes.len() < place {
        return &[];
    }
    let behind = &bytes[place..];
    if behind.len() < len {
        return behind;
    }
    &behind[..len]
}

/// The text in these bytes, and nothing if they are not UTF-8.
fn text_in(bytes: &[u8]) -> &str
    ensures { result.now ≡ as_text bytes.now }
{
    match str::from_utf8(bytes) {
        Ok(text) => text,
        Err(_) => "",
    }
}

impl Tokens<'_> {
    /// All of them.
    pub fn rest(&self) -> Rest<'_>
        ensures { tokens_left result ≡ tokens_of self.now }
    {
        Rest {
            text: self.text,
            spans: &self.spans,
        }
    }

    /// The place of the token that stands there in the list.
    pub fn place(&self, index: usize) -> usize
        requires { index < length (tokens_of self.now) }
        ensures { (other : Token) → result ≡ (get_or (tokens_of self.now) index other).place }
    {
        self.spans[index].place as usize
    }
}

impl<'a> Rest<'a> {
    /// How many they are.
    pub fn len(self) -> usize
        ensures { result ≡ length (kinds_of self.entry) }
    {
        self.spans.len()
    }

    /// The first one, and those behind it.
    pub fn split_first(self) -> Option<(Span, Rest<'a>)>
        ensures some { IfSome result (λ x. kinds_of self.entry ≡ kind_in self.entry.text.now x.0 ∷ kinds_of x.1) }
        ensures none { IfNone result (kinds_of self.entry ≡ []) }
    {
        let (span, behind) = self.spans.split_first()?;
        let rest = Rest {
            text: self.text,
            spans: behind,
        };
        Some((*span, rest))
    }

    /// The name at this place, of this length.
    pub fn name(self, place: u32, len: u32) -> &'a str
        ensures { result.now ≡ cut len (drop place self.entry.text.now) }
    {
        text_in(bytes_at(self.text.as_bytes(), place as usize, len as usize))
    }

    /// The number at this place, of this length.
    pub fn number(self, place: u32, len: u32) -> u64
        ensures { result ≡ number_in (cut len (drop place self.entry.text.now)) }
    {
        number_in(self.name(place, len))
    }

    /// What stands between the quotes of the string at this place, of this length.
    pub fn content(self, place: u32, len: u32) -> &'a str
        ensures { result.now ≡ cut len (drop 1 (drop place self.entry.text.now)) }
    {
        text_in(bytes_at(self.text.as_bytes(), place as usize + 1, len as usize))
    }
}
