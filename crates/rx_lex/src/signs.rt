// Signs.

ghost use Rattle.std.specs.Prelude.{◌≡◌, ◌++◌, List, ℕ, IfSome, IfNone, length, drop};
ghost use Rattle.rx_lex.specs.Tokens.{sign_text, SignEnds};
ghost use Rattle.rx_lex.specs.declared.token.Sign.{Sign};

use crate::token::Sign;

impl Sign {
    /// How many bytes the sign has.
    fn len(self) -> usize
        ensures { result ≡ length (sign_text self) }
    {
        match self {
            Sign::LessEqual | Sign::GreaterEqual | Sign::And | Sign::Or => 2,
            Sign::Same | Sign::NotSame => 3,
            _ => 1,
        }
    }

    /// The sign at the front of a text, the longest one.
    fn at_front(bytes: &[u8]) -> Option<Sign>
        ensures found { IfSome result (λ s. bytes.now ≡ sign_text s ++ drop (length (sign_text s)) bytes.now) }
        ensures ends { IfSome result (λ s. SignEnds s (drop (length (sign_text s)) bytes.now)) }
        ensures none { IfNone result ((s : Sign) (rest : List ℕ) → bytes.now ≡ sign_text s ++ rest → SignEnds s rest → ⊥) }
    {
        match bytes {
            [b'(', ..] => Some(Sign::OpenParen),
            [b')', ..] => Some(Sign::CloseParen),
            [b'{', ..] => Some(Sign::OpenBrace),
            [b'}', ..] => Some(Sign::CloseBrace),
            [b'[', ..] => Some(Sign::OpenBracket),
            [b']', ..] => Some(Sign::CloseBracket),
            [b'<', b'=', ..] => Some(Sign::LessEqual),
            [b'<', ..] => Some(Sign::Less),
            [b'>', b'=', ..] => Some(Sign::GreaterEqual),
            [b'>', ..] => Some(Sign::Greater),
            [b',', ..] => Some(Sign::Comma),
            [b';', ..] => Some(Sign::Semicolon),
            [b':', ..] => Some(Sign::Colon),
            [b'?', ..] => Some(Sign::Question),
            [b'.', ..] => Some(Sign::Dot),
            [b'=', b'=', b'=', ..] => Some(Sign::Same),
            [b'=', ..] => Some(Sign::Equals),
            [b'!', b'=', b'=', ..] => Some(Sign::NotSame),
            [b'!', ..] => Some(Sign::Not),
            [b'&', b'&', ..] => Some(Sign::And),
            [b'|', b'|', ..] => Some(Sign::Or),
            [b'+', ..] => Some(Sign::Plus),
            [b'-', ..] => Some(Sign::Minus),
            [b'*', ..] => Some(Sign::Star),
            [b'/', b'/' | b'*', ..] => None,
            [b'/', ..] => Some(Sign::Slash),
            [b'%', ..] => Some(Sign::Percent),
            _ => None,
        }
    }
}

/// The sign at the front, and the rest.
pub(crate) fn split_sign(text: &str) -> Option<(Sign, &str)>
    ensures found { IfSome result (λ x. (text.now ≡ sign_text x.0 ++ x.1.now) × SignEnds x.0 x.1.now) }
    ensures none { IfNone result ((s : Sign) (rest : List ℕ) → text.now ≡ sign_text s ++ rest → SignEnds s rest → ⊥) }
{
    match Sign::at_front(text.as_bytes()) {
        Some(sign) => Some((sign, text.split_at(sign.len()).1)),
        None => None,
    }
}
