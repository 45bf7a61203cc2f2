// What an element is given.
ghost use Rattle.std.specs.Prelude.{◌≡◌, MatchOption, Some, None};
ghost use Rattle.rx_ast.specs.Syntax.{key, computed, literal, key_in, key_of};

use crate::expr::Expr;
use rx_base::Name;
use std::marker::Model;

/// An attribute of an element. `key` stands among the others, in its place.
#[derive(Drop)]
pub struct Attribute {
    /// What it is, with its parts.
    pub kind: AttributeKind,
}

/// What an attribute is, with its parts in the order of the text.
#[derive(Drop)]
pub enum AttributeKind {
    /// `key={value}`, by which React tells siblings apart (react.dev, Rendering Lists).
    Key(Expr),
    /// `name={value}`
    Computed { name: Name, value: Expr },
    /// `name="text"`
    Literal { name: Name, text: Name },
}

/// The key of a boundary or a provider, and where it stands.
#[derive(Drop)]
pub enum KeyPlace {
    Unkeyed,
    /// Before what else is given there.
    First(Box<Expr>),
    /// Behind what else is given there.
    Last(Box<Expr>),
}

impl Model for Attribute {
    ghost use Rattle.rx_ast.specs.Syntax as syntax;
    ghost use Rattle.rx_ast.specs.SlotCodes.{attribute_code};

    ghost Value = { syntax.Attribute };

    ghost coded = { attribute_code };

    ghost use Rattle.rx_ast.specs.SlotView.{attribute_of};

    ghost view = { λ a. attribute_of a.kind };
}

impl Attribute {
    /// `key={value}`
    pub fn key(value: Expr) -> Attribute
        ensures { result ≡ key value }
    {
        Attribute {
            kind: AttributeKind::Key(value),
        }
    }

    /// `name={value}`
    pub fn computed(name: Name, value: Expr) -> Attribute
        ensures { result ≡ computed name value }
    {
        Attribute {
            kind: AttributeKind::Computed { name, value },
        }
    }

    /// `name="text"`
    pub fn literal(name: Name, text: Name) -> Attribute
        ensures { result ≡ literal name text }
    {
        Attribute {
            kind: AttributeKind::Literal { name, text },
        }
    }
}

/// The key among attributes, the first if there are more.
pub fn key_among(attributes: &[Attribute]) -> Option<&Expr>
    ensures { MatchOption result (key_of attributes.now ≡ None) (λ e. key_of attributes.now ≡ Some e.now) }
{
    for attribute in attributes {
        if let AttributeKind::Key(value) = &attribute.kind {
            return Some(value);
        }
    }
    None
}

impl KeyPlace {
    ghost use Rattle.rx_ast.specs.SlotView.{key_place_of};

    /// The key that it holds.
    pub fn value(&self) -> Option<&Expr>
        ensures { MatchOption result (key_in (key_place_of self.now) ≡ None) (λ e. key_in (key_place_of self.now) ≡ Some e.now) }
    {
        match self {
            KeyPlace::Unkeyed => None,
            KeyPlace::First(value) | KeyPlace::Last(value) => Some(value),
        }
    }
}
