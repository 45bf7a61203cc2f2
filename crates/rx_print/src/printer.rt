// A list of tokens that grows at its end.
ghost use Rattle.std.specs.Prelude.{◌≡◌, List, [], ◌∷◌, ◌++◌, OnOk};

use rx_base::Name;
use rx_lex::{Keyword, Kind, Sign};
use std::alloc::{AllocError, Global};
use std::marker::Model;

/// The tokens that are written so far.
#[derive(Drop)]
pub struct Printer {
    alloc: Global,
    kinds: Vec<Kind>,
}

impl Model for Printer {
    ghost use Rattle.std.specs.Prelude.{List};
    ghost use Rattle.rx_lex.specs.declared.token.Kind.{Kind};

    ghost Value = { List Kind };

    ghost view = { λ p. p.kinds.items };
}

impl Printer {
    /// No token yet.
    pub fn new(alloc: Global) -> Printer
        ensures { result ≡ [] }
    {
        Printer {
            alloc,
            kinds: Vec::new(alloc),
        }
    }

    /// The tokens.
    pub fn into_kinds(self) -> Vec<Kind>
        ensures { result.items ≡ self }
    {
        self.kinds
    }

    /// Writes a token.
    pub fn token(&mut self, kind: Kind) -> Result<(), AllocError>
        ensures { OnOk result (self.new ≡ self.old ++ kind ∷ []) }
    {
        self.kinds.push(kind)?;
        Ok(())
    }

    /// Writes a sign.
    pub fn sign(&mut self, sign: Sign) -> Result<(), AllocError>
        ensures { OnOk result (self.new ≡ self.old ++ Kind.Mark sign ∷ []) }
    {
        self.token(Kind::Mark(sign))
    }

    /// Writes a reserved word.
    pub fn word(&mut self, word: Keyword) -> Result<(), AllocError>
        ensures { OnOk result (self.new ≡ self.old ++ Kind.Word word ∷ []) }
    {
        self.token(Kind::Word(word))
    }

    /// Writes a name that does not begin with a capital letter.
    pub fn lower(&mut self, name: &Name) -> Result<(), AllocError>
        ensures { OnOk result (self.new ≡ self.old ++ Kind.Lower name.now ∷ []) }
    {
        let name = Name::new(self.alloc, name.text())?;
        self.token(Kind::Lower(name))
    }

    /// Writes a name that begins with a capital letter.
    pub fn upper(&mut self, name: &Name) -> Result<(), AllocError>
        ensures { OnOk result (self.new ≡ self.old ++ Kind.Upper name.now ∷ []) }
    {
        let name = Name::new(self.alloc, name.text())?;
        self.token(Kind::Upper(name))
    }

    /// Writes a name of the language that is no reserved word.
    pub fn name(&mut self, name: &str) -> Result<(), AllocError>
        ensures { OnOk result (self.new ≡ self.old ++ Kind.Lower name.now ∷ []) }
    {
        let name = Name::new(self.alloc, name)?;
        self.token(Kind::Lower(name))
    }

    /// Writes a text.
    pub fn text(&mut self, text: &Name) -> Result<(), AllocError>
        ensures { OnOk result (self.new ≡ self.old ++ Kind.Text text.now ∷ []) }
    {
        self.content(text.text())
    }

    /// Writes a text with this between its quotes.
    pub fn content(&mut self, content: &str) -> Result<(), AllocError>
        ensures { OnOk result (self.new ≡ self.old ++ Kind.Text content.now ∷ []) }
    {
        let content = Name::new(self.alloc, content)?;
        self.token(Kind::Text(content))
    }
}
