// The attributes of an element.
ghost use Rattle.std.specs.Prelude.{◌≡◌, [], ◌++◌, IfOk, OnErr, OnOk};
ghost use Rattle.rx_page.specs.Elements.{AreAttributes, attribute as attribute_of};

use crate::escaping::escape;
use crate::tag::AttributeName;
use std::alloc::{AllocError, Global};
use std::marker::Model;

/// The attributes of an element, as they stand in its open tag.
#[derive(Drop)]
pub struct Attributes {
    alloc: Global,
    html: Vec<u8>,
}

impl Model for Attributes {
    ghost use Rattle.rx_base.specs.Values.{Text};

    ghost Value = { Text };

    ghost view = { λ a. a.html.items };
}

// An attribute with its value.
fn attribute(alloc: Global, name: AttributeName, value: &[u8]) -> Result<Vec<u8>, AllocError>
    ensures { IfOk result (λ html. html.items ≡ attribute_of name value.now) }
{
    let mut html = Vec::from_slice(alloc, b" ")?;
    html.extend_from_slice(name.name().as_bytes())?;
    html.extend_from_slice(b"=\"")?;
    html.extend_from_slice(&escape(alloc, value)?)?;
    html.extend_from_slice(b"\"")?;
    Ok(html)
}

impl Attributes {
    /// No attribute yet.
    pub fn new(alloc: Global) -> Attributes
        ensures empty { result ≡ [] }
        ensures are { AreAttributes result }
    {
        Attributes {
            alloc,
            html: Vec::new(alloc),
        }
    }

    /// One attribute more, with its value, which may be any text.
    ///
    /// # Errors
    ///
    /// Only if out of memory; the attributes are then as they were.
    pub fn put(&mut self, name: AttributeName, value: &[u8]) -> Result<(), AllocError>
        ensures ok { OnOk result (self.new ≡ self.old ++ attribute_of name value.now) }
        ensures are { OnOk result (AreAttributes self.old → AreAttributes self.new) }
        ensures err { OnErr result (self.new ≡ self.old) }
    {
        let attribute = attribute(self.alloc, name, value)?;
        self.html.extend_from_slice(&attribute)
    }

    /// Their bytes.
    pub fn bytes(&self) -> &[u8]
        ensures { result.now ≡ self.now }
    {
        &self.html
    }
}
