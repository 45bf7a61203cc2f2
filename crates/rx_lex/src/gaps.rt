// Blanks and comments, which stand between tokens.

ghost use Rattle.std.specs.Prelude.{◌≡◌, ◌≢◌, ◌++◌, List, ℕ, IfSome, IfNone, codes};
ghost use Rattle.std.specs.List.{prefix_len};
ghost use Rattle.rx_lex.specs.Tokens.{is_blank, is_in_line, IsRun, IsRunEnd, IsClosedFirst, IsGap, Gap, gap_text};

fn is_blank(b: u8) -> bool
    ensures { result ≡ is_blank b }
{
    matches!(b, b' ' | b'\t' | b'\n' | b'\r')
}

fn line_len(bytes: &[u8]) -> usize
    ensures { result ≡ prefix_len is_in_line bytes.now }
{
    bytes.iter().take_while(|b| **b != b'\n').count()
}

/// What follows the line, with the line's end.
fn after_line(text: &str) -> &str
    ensures { (line : List ℕ) × (text.now ≡ line ++ result.now) × IsRun is_in_line line × IsRunEnd is_in_line result.now }
{
    text.split_at(line_len(text.as_bytes())).1
}

/// What follows the first `*/`.
fn after_close(text: &str) -> Option<&str>
    ensures found { IfSome result (λ rest. (body : List ℕ) × (text.now ≡ body ++ (codes "*/" ++ rest.now)) × IsClosedFirst body) }
    ensures none { IfNone result ((body rest : List ℕ) → text.now ≢ body ++ (codes "*/" ++ rest)) }
{
    match text.split_once("*/") {
        Some((_, rest)) => Some(rest),
        None => None,
    }
}

/// What follows the blank or the comment at the front.
pub(crate) fn after_gap(text: &str) -> Option<&str>
    ensures found { IfSome result (λ rest. (g : Gap) × (text.now ≡ gap_text g ++ rest.now) × IsGap g rest.now) }
    ensures none { IfNone result ((g : Gap) (rest : List ℕ) → text.now ≡ gap_text g ++ rest → IsGap g rest → ⊥) }
{
    if let Some(body) = text.strip_prefix("//") {
        return Some(after_line(body));
    }
    if let Some(body) = text.strip_prefix("/*") {
        return after_close(body);
    }
    let (first, _) = text.as_bytes().split_first()?;
    if is_blank(*first) {
        return Some(text.split_at(1).1);
    }
    None
}
