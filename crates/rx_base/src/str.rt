// A text of a program.
ghost use Rattle.std.specs.Prelude.{◌≡◌, IfOk, string_bytes};
ghost use Rattle.rx_base.specs.Values.{in_quotes};

use std::alloc::{AllocError, Global};
use std::marker::Model;

/// A text: what stands between the quotes of a string, or the decimal of a number. Contracts see it as its bytes.
#[derive(Debug)]
pub struct Str {
    text: String,
}

impl Model for Str {
    ghost use Rattle.std.specs.Prelude.{ℕ, List, string_bytes};

    ghost Value = { List ℕ };

    ghost view = { λ s. string_bytes s.text };
}

// It is taken apart here alone, once for all crates.
impl Drop for Str {
    fn drop(self) {
        let Str { text: _text } = self;
    }
}

impl Str {
    /// The text of these characters.
    ///
    /// # Errors
    ///
    /// Only if out of memory.
    pub fn new(alloc: Global, text: &str) -> Result<Str, AllocError>
        ensures { IfOk result (λ s. s ≡ text.now) }
    {
        let text = String::from_str(alloc, text)?;
        Ok(Str { text })
    }

    /// The text that a string holds.
    pub fn from_string(text: String) -> Str
        ensures { result ≡ string_bytes text }
    {
        Str { text }
    }

    /// Its characters.
    pub fn text(&self) -> &str
        ensures { result.now ≡ self.now }
    {
        self.text.as_str()
    }
}

/// A text between quotes, as a report writes it: nothing inside is changed.
///
/// # Errors
///
/// Only if out of memory.
pub fn quote(alloc: Global, text: &str) -> Result<Str, AllocError>
    ensures { IfOk result (λ s. s ≡ in_quotes text.now) }
{
    let mut quoted = String::from_str(alloc, "\"")?;
    quoted.push_str(text)?;
    quoted.push_str("\"")?;
    Ok(Str::from_string(quoted))
}
