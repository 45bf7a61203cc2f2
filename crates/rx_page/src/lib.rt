//! Pages of HTML: texts that are escaped, and elements whose tags are well nested by construction.
#![tactic(auto)]

mod alike;
mod attributes;
mod changes;
mod escaping;
mod html;
mod number;
mod tag;

pub use attributes::Attributes;
pub use changes::{put_changes, put_words};
pub use escaping::escape;
pub use html::Html;
pub use number::push_number;
pub use tag::{AttributeName, Tag};
