// Strings in quotes.

ghost use Rattle.std.specs.Prelude.{◌≡◌, ◌++◌, ◌∷◌, [], List, ℕ, IfSome, IfNone};
ghost use Rattle.std.specs.List.{list_all};
ghost use Rattle.rx_lex.specs.Tokens.{is_inside, IsRun};

fn is_inside(b: u8) -> bool
    ensures { result ≡ is_inside b }
{
    b >= 32 && b != b'"' && b != b'\\'
}

fn are_inside(bytes: &[u8]) -> bool
    ensures { result ≡ list_all is_inside bytes.now }
{
    bytes.iter().all(|b| is_inside(*b))
}

/// The content of the string at the front, and the rest.
pub(crate) fn split_string(text: &str) -> Option<(&str, &str)>
    ensures found { IfSome result (λ x. (text.now ≡ (34 ∷ (x.0.now ++ 34 ∷ [])) ++ x.1.now) × IsRun is_inside x.0.now) }
    ensures none { IfNone result ((s rest : List ℕ) → text.now ≡ (34 ∷ (s ++ 34 ∷ [])) ++ rest → IsRun is_inside s → ⊥) }
{
    let Some(body) = text.strip_prefix('"') else {
        return None;
    };
    let Some((content, rest)) = body.split_once('"') else {
        return None;
    };
    if are_inside(content.as_bytes()) {
        Some((content, rest))
    } else {
        None
    }
}
