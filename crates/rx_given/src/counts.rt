// The counts that a line tells.
ghost use Rattle.std.specs.Prelude.{◌≡◌, ℕ, ◌<◌, ◌^◌, ◌++◌, ◌∷◌, [], List, IfNone, IfSome, bytes_eq, decimal, true};
ghost use Rattle.rx_lines.specs.Lines.{counts_text};
ghost use Rattle.rx_given.specs.Lines.{HasNo};

use itoa::Buffer;
use std::str;

/// How many units a render took, and how many bodies it evaluated.
#[derive(Clone, Copy)]
pub struct Counts {
    pub units: u64,
    pub bodies: u64,
}

// The bytes before the first of these, and those behind it.
fn before(bytes: &[u8], end: u8) -> Option<(&[u8], &[u8])>
    ensures found { IfSome result (λ r. (bytes.now ≡ r.0.now ++ end ∷ r.1.now) × HasNo end r.0.now) }
    ensures none { IfNone result (HasNo end bytes.now) }
{
    'bytes: for at in 0..bytes.len() {
        if bytes[at] == end {
            return Some((&bytes[..at], &bytes[at + 1..]));
        }
    }
    None
}

// True for the decimal digits of a number.
fn is_decimal_of(number: u64, word: &str) -> bool
    ensures { result ≡ bytes_eq word.now (decimal number) }
{
    let mut buffer = Buffer::new();
    word == buffer.format(number)
}

// The number whose decimal digits come first, up to this byte, which is no digit, and what comes behind.
fn number_before(bytes: &[u8], end: u8) -> Option<(u64, &[u8])>
    requires { end < 48 }
    ensures found { IfSome result (λ r. bytes.now ≡ decimal r.0 ++ end ∷ r.1.now) }
    ensures small { IfSome result (λ r. r.0 < 2 ^ 64) }
    ensures none { IfNone result ((n : ℕ) (more : List ℕ) → n < 2 ^ 64 → bytes.now ≡ decimal n ++ end ∷ more → ⊥) }
{
    let (digits, behind) = before(bytes, end)?;
    let Ok(word) = str::from_utf8(digits) else {
        return None;
    };
    match word.parse::<u64>() {
        Ok(number) if is_decimal_of(number, word) => Some((number, behind)),
        _ => None,
    }
}

/// The counts that a line tells behind this text, up to its end.
pub fn counts_behind(line: &[u8], text: &[u8]) -> Option<Counts>
    ensures found { IfSome result (λ c. line.now ≡ text.now ++ counts_text true (record { units = c.units; bodies = c.bodies }) ++ 10 ∷ []) }
    ensures none { IfNone result ((units bodies : ℕ) → units < 2 ^ 64 → bodies < 2 ^ 64
        → line.now ≡ text.now ++ counts_text true (record { units = units; bodies = bodies }) ++ 10 ∷ [] → ⊥) }
{
    let behind = line.strip_prefix(text)?.strip_prefix(b" units ")?;
    let (units, behind) = number_before(behind, b' ')?;
    let behind = behind.strip_prefix(b"bodies ")?;
    let (bodies, behind) = number_before(behind, b'\n')?;
    if !behind.is_empty() {
        return None;
    }
    Some(Counts { units, bodies })
}
