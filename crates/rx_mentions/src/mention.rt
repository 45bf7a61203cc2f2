// What a program mentions.
ghost use Rattle.std.specs.Prelude.{◌≡◌, IfOk};
ghost use Rattle.rx_mentions.specs.Mentions.{given_names};

use crate::count::Count;
use rx_ast::{Attribute, AttributeKind};
use rx_base::Name;
use rx_names::Names;
use std::alloc::{AllocError, Global};
use std::marker::Model;
use std::mem::size_of;

/// What a program mentions in a place of its text, with what the checks ask of it. It borrows the program.
#[derive(Drop)]
pub struct Mention<'a> {
    /// What it is, with its parts.
    pub kind: MentionKind<'a>,
}

/// What a mention is, with its parts.
#[derive(Drop)]
pub enum MentionKind<'a> {
    /// A name is introduced; `again` if it may not be introduced there, since it stands already.
    Introduced {
        again: bool,
        name: &'a str,
    },
    /// A variable whose name stands for no value there.
    Unknown(&'a Name),
    /// A call of a function.
    Call {
        function: &'a Name,
        arguments: usize,
    },
    /// A function that reduces a hook's state (react.dev, useReducer).
    Reduction(&'a Name),
    /// A context that is read or provided.
    Context(&'a Name),
    /// An element of a component: whether it holds a child, and its attributes.
    Element {
        filled: bool,
        component: &'a Name,
        attributes: &'a Vec<Attribute>,
    },
    /// An element of the host.
    Host(&'a Name),
    /// `children`; `known` if it is a parameter.
    Children {
        known: bool,
    },
    /// A resource that is used.
    Resource(&'a Name),
    /// A text of so many bytes between quotes.
    Quoted(usize),
    /// So many of a thing.
    Counted {
        what: Count,
        found: u64,
    },
}

// There may be a mention for every few bytes of a text. Fields lie as they are written, so what is narrow stands first.
const _: () = prove!(size_of::<Mention>() == 24);

impl<'a> Model for Mention<'a> {
    ghost use Rattle.rx_mentions.specs.Mention as plain;

    ghost Value = { plain.Mention };

    ghost use Rattle.rx_mentions.specs.MentionView.{mention_of};

    ghost view = { λ m. mention_of m.kind };
}

/// The names of attributes, `key` aside.
///
/// # Errors
///
/// Only if out of memory.
pub fn names_given(alloc: Global, attributes: &[Attribute]) -> Result<Names, AllocError>
    ensures { IfOk result (λ names. names ≡ given_names attributes.now) }
{
    let mut names = Names::new(alloc);
    for attribute in attributes {
        match &attribute.kind {
            AttributeKind::Key(_) => {}
            AttributeKind::Computed { name, .. } | AttributeKind::Literal { name, .. } => {
                names.push(alloc, name.text())?
            }
        }
    }
    Ok(names)
}
