//! Elements, and the trees that are rendered from them.
#![tactic(auto)]

mod attr;
mod effect;
mod element;
mod kind;
mod walks;

pub use attr::{Attr, AttrValue};
pub use effect::{ContextRead, EffectRecord, VersionRead};
pub use element::{Element, ElementKind};
