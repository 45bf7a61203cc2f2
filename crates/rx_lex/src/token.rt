// What a program's text is made of.

ghost use Rattle.std.specs.Prelude.{◌≡◌};
ghost use Rattle.rx_lex.specs.Tokens.{same_keyword, same_sign};

use rx_base::Name;

/// A reserved word. It is a token of its own and no name.
#[derive(Clone, Copy, Debug, PartialEq, Eq)]
pub enum Keyword {
    Const,
    Function,
    Return,
    Null,
    For,
    Children,
    Key,
    CreateContext,
    UseState,
    UseReducer,
    UseContext,
    UseEffect,
    UseLayoutEffect,
    Use,
    UseTransition,
    Memo,
    ThrowIf,
    Suspense,
    Provider,
    Catch,
}

impl Keyword {
    /// Whether it is this reserved word.
    pub fn is(self, other: Keyword) -> bool
        ensures { result ≡ same_keyword self other }
    {
        self == other
    }
}

/// A sign: of one byte, or a longer one if that stands there.
#[derive(Clone, Copy, Debug, PartialEq, Eq)]
pub enum Sign {
    OpenParen,
    CloseParen,
    OpenBrace,
    CloseBrace,
    OpenBracket,
    CloseBracket,
    Less,
    LessEqual,
    Greater,
    GreaterEqual,
    Comma,
    Semicolon,
    Colon,
    Question,
    Dot,
    Equals,
    Same,
    Not,
    NotSame,
    And,
    Or,
    Plus,
    Minus,
    Star,
    Slash,
    Percent,
}

impl Sign {
    /// Whether it is this sign.
    pub fn is(self, other: Sign) -> bool
        ensures { result ≡ same_sign self other }
    {
        self == other
    }
}

/// What a token is, with its content.
#[derive(Debug, Drop)]
pub enum Kind {
    /// A name that begins with a capital letter.
    Upper(Name),
    /// Any other name.
    Lower(Name),
    /// A number in decimal digits.
    Number(u64),
    /// A string, as what stands between its quotes.
    Text(Name),
    /// A reserved word.
    Word(Keyword),
    /// A sign.
    Mark(Sign),
    /// The end of the text. No text of a program has it.
    End,
}

/// A token, and the place of its first byte in the text, counted from 0. Contracts speak of these; a list of tokens keeps
/// a `Span` for each.
#[derive(Debug, Drop)]
pub struct Token {
    pub kind: Kind,
    pub place: usize,
}
