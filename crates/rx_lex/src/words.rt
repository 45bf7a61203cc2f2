// Words: names, reserved words and numbers.

ghost use Rattle.std.specs.Prelude.{◌≡◌, ◌≢◌, ◌<◌, ◌≤◌, ◌++◌, ℕ, List, IfSome, IfNone, IfOk, IfErr, length};
ghost use Rattle.std.specs.List.{prefix_len, list_all};
ghost use Rattle.std.specs.Char.{is_ascii_digit};
ghost use Rattle.std.specs.Fmt.{decimal};
ghost use Rattle.rx_lex.specs.Tokens.{is_word_byte, keyword_text, spelling, IsRun, IsRunEnd, IsWordKind};
ghost use Rattle.rx_lex.specs.Spans.{number_in, seen};
ghost use Rattle.rx_lex.specs.declared.token.Keyword.{Keyword};
ghost use Rattle.rx_lex.specs.declared.token.Kind.{Kind};

use crate::spans::Shape;
use crate::token::Keyword;

/// Why no token is answered.
#[derive(Clone, Copy, Debug, PartialEq, Eq)]
pub(crate) enum Fault {
    Uncovered,
    OutOfMemory,
}

/// A length or a place in 4 bytes. A text that is too long for that counts as out of memory.
pub(crate) fn brief(n: usize) -> Result<u32, Fault>
    ensures ok { IfOk result (λ m. m ≡ n) }
    ensures err { IfErr result (λ e. e ≡ Fault.OutOfMemory) }
{
    match u32::try_from(n) {
        Ok(n) => Ok(n),
        Err(_) => Err(Fault::OutOfMemory),
    }
}

fn is_word_byte(b: u8) -> bool
    ensures { result ≡ is_word_byte b }
{
    b.is_ascii_alphanumeric() || b == b'_' || b == b'$'
}

fn word_len(bytes: &[u8]) -> usize
    ensures { result ≡ prefix_len is_word_byte bytes.now }
{
    bytes.iter().take_while(|b| is_word_byte(**b)).count()
}

/// The longest run of word bytes at the front, and the rest.
pub(crate) fn split_word(text: &str) -> (&str, &str)
    ensures split { text.now ≡ result.0.now ++ result.1.now }
    ensures run { IsRun is_word_byte result.0.now }
    ensures end { IsRunEnd is_word_byte result.1.now }
{
    text.split_at(word_len(text.as_bytes()))
}

impl Keyword {
    /// The reserved word that is written so.
    fn from_text(word: &str) -> Option<Keyword>
        ensures found { IfSome result (λ k. word.now ≡ keyword_text k) }
        ensures none { IfNone result ((k : Keyword) → word.now ≢ keyword_text k) }
    {
        match word {
            "const" => Some(Keyword::Const),
            "function" => Some(Keyword::Function),
            "return" => Some(Keyword::Return),
            "null" => Some(Keyword::Null),
            "for" => Some(Keyword::For),
            "children" => Some(Keyword::Children),
            "key" => Some(Keyword::Key),
            "createContext" => Some(Keyword::CreateContext),
            "useState" => Some(Keyword::UseState),
            "useReducer" => Some(Keyword::UseReducer),
            "useContext" => Some(Keyword::UseContext),
            "useEffect" => Some(Keyword::UseEffect),
            "useLayoutEffect" => Some(Keyword::UseLayoutEffect),
            "use" => Some(Keyword::Use),
            "useTransition" => Some(Keyword::UseTransition),
            "memo" => Some(Keyword::Memo),
            "throwIf" => Some(Keyword::ThrowIf),
            "Suspense" => Some(Keyword::Suspense),
            "Provider" => Some(Keyword::Provider),
            "Catch" => Some(Keyword::Catch),
            _ => None,
        }
    }
}

fn is_digits(bytes: &[u8]) -> bool
    ensures { result ≡ list_all is_ascii_digit bytes.now }
{
    bytes.iter().all(|b| b.is_ascii_digit())
}

/// The number that is written so, up to the greatest.
fn number(word: &str, greatest: u64) -> Option<u64>
    ensures found { IfSome result (λ n. (word.now ≡ decimal n) × (n ≤ greatest)) }
    ensures none { IfNone result ((n : ℕ) → n ≤ greatest → word.now ≢ decimal n) }
{
    let bytes = word.as_bytes();
    if !is_digits(bytes) {
        return None;
    }
    if bytes.len() > 1 && bytes[0] == b'0' {
        return None;
    }
    match word.parse::<u64>() {
        Ok(n) if n <= greatest => Some(n),
        _ => None,
    }
}

/// The number that digits write; 0 for what is no number of 64 bits.
pub(crate) fn number_in(word: &str) -> u64
    ensures { result ≡ number_in word.now }
{
    if !is_digits(word.as_bytes()) {
        return 0;
    }
    match word.parse::<u64>() {
        Ok(n) => n,
        Err(_) => 0,
    }
}

/// What a word is: a number, a reserved word or a name.
pub(crate) fn word_shape(word: &str, greatest: u64) -> Result<Shape, Fault>
    requires some { 0 < length word.now }
    requires run { IsRun is_word_byte word.now }
    ensures found { IfOk result (λ s. (after : List ℕ) → (word.now ≡ spelling (seen (word.now ++ after) s)) × IsWordKind greatest (seen (word.now ++ after) s)) }
    ensures none { IfErr result (λ e. e ≡ Fault.Uncovered → (k : Kind) → word.now ≡ spelling k → IsWordKind greatest k → ⊥) }
{
    let first = word.as_bytes()[0];
    if first.is_ascii_digit() {
        return match number(word, greatest) {
            Some(_) => Ok(Shape::Number(brief(word.len())?)),
            None => Err(Fault::Uncovered),
        };
    }
    if let Some(keyword) = Keyword::from_text(word) {
        return Ok(Shape::Word(keyword));
    }
    let len = brief(word.len())?;
    if first.is_ascii_uppercase() {
        Ok(Shape::Upper(len))
    } else {
        Ok(Shape::Lower(len))
    }
}
