// A name of a program.
ghost use Rattle.std.specs.Prelude.{◌≡◌, IfOk};

use std::alloc::{AllocError, Global};
use std::marker::Model;

/// A name of a program: of a component, a host, a hook or a variable. Contracts see it as its bytes.
#[derive(Debug)]
pub struct Name {
    text: String,
}

impl Model for Name {
    ghost use Rattle.std.specs.Prelude.{ℕ, List, string_bytes};

    ghost Value = { List ℕ };

    ghost view = { λ n. string_bytes n.text };
}

// It is taken apart here alone, once for all crates.
impl Drop for Name {
    fn drop(self) {
        let Name { text: _text } = self;
    }
}

impl Name {
    /// The name with this text.
    ///
    /// # Errors
    ///
    /// Only if out of memory.
    pub fn new(alloc: Global, text: &str) -> Result<Name, AllocError>
        ensures { IfOk result (λ n. n ≡ text.now) }
    {
        let text = String::from_str(alloc, text)?;
        Ok(Name { text })
    }

    /// Its text.
    pub fn text(&self) -> &str
        ensures { result.now ≡ self.now }
    {
        self.text.as_str()
    }
}
