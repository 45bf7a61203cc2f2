// What a component returns.
ghost use Rattle.std.specs.Prelude.{◌≡◌};
ghost use Rattle.rx_ast.specs.Syntax.{slots_of, slots, single, fragment, enclosed_fragment};

use crate::slot::{Child, Slot};
use std::marker::Model;

/// A fragment, `<>` and its children and `</>`.
#[derive(Drop)]
pub struct Fragment {
    children: Vec<Child>,
}

impl Model for Fragment {
    ghost use Rattle.rx_ast.specs.Syntax as syntax;
    ghost use Rattle.rx_ast.specs.SlotCodes.{slots_code};

    ghost Value = { syntax.Slots };

    ghost coded = { slots_code };

    ghost view = { λ f. syntax.slots_of f.children.items };
}

impl Fragment {
    /// A fragment of these children.
    pub fn new(children: Vec<Child>) -> Fragment
        ensures { result ≡ slots_of children.items }
    {
        Fragment { children }
    }

    /// Its children in order.
    pub fn children(&self) -> &[Child]
        ensures { result.now ≡ slots self.now }
    {
        &self.children
    }
}

/// What a component returns.
pub struct Body {
    /// What it is, with its part.
    pub kind: BodyKind,
}

// It is taken apart here alone, once for all crates.
impl Drop for Body {
    fn drop(self) {
        let Body { kind: _kind } = self;
    }
}

/// What a component returns: one slot, or a fragment.
#[derive(Drop)]
pub enum BodyKind {
    Slot(Slot),
    Fragment(Fragment),
    /// A fragment in parentheses.
    Enclosed(Fragment),
}

impl Model for Body {
    ghost use Rattle.rx_ast.specs.Syntax as syntax;
    ghost use Rattle.rx_ast.specs.ProgramCodes.{body_code};

    ghost Value = { syntax.Body };

    ghost coded = { body_code };

    ghost use Rattle.rx_ast.specs.ProgramView.{body_of};

    ghost view = { λ b. body_of b.kind };
}

impl Body {
    /// One slot.
    pub fn slot(slot: Slot) -> Body
        ensures { result ≡ single slot }
    {
        Body {
            kind: BodyKind::Slot(slot),
        }
    }

    /// A fragment.
    pub fn fragment(children: Fragment) -> Body
        ensures { result ≡ fragment children }
    {
        Body {
            kind: BodyKind::Fragment(children),
        }
    }

    /// A fragment in parentheses.
    pub fn enclosed(children: Fragment) -> Body
        ensures { result ≡ enclosed_fragment children }
    {
        Body {
            kind: BodyKind::Enclosed(children),
        }
    }
}
