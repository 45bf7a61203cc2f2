//! The tree of a program's text. Contracts see it as the plain data of `specs/Syntax.antt`, which has no pointers.
#![tactic(auto)]

mod attribute;
mod body;
mod declaration;
mod expr;
mod program;
mod slot;
mod statement;

pub use attribute::{Attribute, AttributeKind, KeyPlace, key_among};
pub use body::{Body, BodyKind, Fragment};
pub use declaration::{
    Component, Context, Declaration, DeclarationKind, Function, Line, Parameter, ParameterKind,
};
pub use expr::{Call, Expr, ExprKind, Link, Operator, Prefix};
pub use program::Program;
pub use slot::{Child, ChildKind, Content, Element, For, Slot, SlotKind, Tag};
pub use statement::{Statement, StatementKind};
