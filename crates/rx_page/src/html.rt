// HTML that grows by whole elements.
ghost use Rattle.std.specs.Prelude.{◌≡◌, [], ◌++◌, IfOk, OnErr, OnOk};
ghost use Rattle.rx_page.specs.Elements.{AreAttributes, IsNested, element as element_of, meta as meta_of};
ghost use Rattle.rx_page.specs.Escaping.{escaped};

use crate::attributes::Attributes;
use crate::escaping::escape;
use crate::tag::Tag;
use std::alloc::{AllocError, Global};
use std::marker::Model;

/// A piece of HTML: texts and elements, one behind the other. Each call puts something whole behind what is there, so it is well
/// nested at any time.
#[derive(Drop)]
pub struct Html {
    alloc: Global,
    bytes: Vec<u8>,
}

impl Model for Html {
    ghost use Rattle.rx_base.specs.Values.{Text};

    ghost Value = { Text };

    ghost view = { λ h. h.bytes.items };
}

// An element with its content.
fn element(
    alloc: Global,
    tag: Tag,
    attributes: &Attributes,
    content: &Html,
) -> Result<Vec<u8>, AllocError>
    ensures { IfOk result (λ html. html.items ≡ element_of tag attributes.now content.now) }
{
    let mut html = Vec::from_slice(alloc, b"<")?;
    html.extend_from_slice(tag.name().as_bytes())?;
    html.extend_from_slice(attributes.bytes())?;
    html.extend_from_slice(b">")?;
    html.extend_from_slice(content.bytes())?;
    html.extend_from_slice(b"</")?;
    html.extend_from_slice(tag.name().as_bytes())?;
    html.extend_from_slice(b">")?;
    Ok(html)
}

// A tag that tells something about the page.
fn meta(alloc: Global, attributes: &Attributes) -> Result<Vec<u8>, AllocError>
    ensures { IfOk result (λ html. html.items ≡ meta_of attributes.now) }
{
    let mut html = Vec::from_slice(alloc, b"<meta")?;
    html.extend_from_slice(attributes.bytes())?;
    html.extend_from_slice(b">")?;
    Ok(html)
}

impl Html {
    /// Nothing yet.
    pub fn new(alloc: Global) -> Html
        ensures empty { result ≡ [] }
        ensures nested { IsNested result }
    {
        Html {
            alloc,
            bytes: Vec::new(alloc),
        }
    }

    /// Its bytes.
    pub fn bytes(&self) -> &[u8]
        ensures { result.now ≡ self.now }
    {
        &self.bytes
    }

    /// A text, which is shown as it stands, whatever it holds.
    ///
    /// # Errors
    ///
    /// Only if out of memory; the HTML is then as it was.
    pub fn put_text(&mut self, text: &[u8]) -> Result<(), AllocError>
        ensures ok { OnOk result (self.new ≡ self.old ++ escaped text.now) }
        ensures nested { OnOk result (IsNested self.old → IsNested self.new) }
        ensures err { OnErr result (self.new ≡ self.old) }
    {
        let text = escape(self.alloc, text)?;
        self.bytes.extend_from_slice(&text)
    }

    /// An element with its attributes and its content, from its open tag to its close tag.
    ///
    /// # Errors
    ///
    /// Only if out of memory; the HTML is then as it was.
    pub fn put_element(
        &mut self,
        tag: Tag,
        attributes: &Attributes,
        content: &Html,
    ) -> Result<(), AllocError>
        ensures ok { OnOk result (self.new ≡ self.old ++ element_of tag attributes.now content.now) }
        ensures nested { OnOk result (IsNested self.old → AreAttributes attributes.now → IsNested content.now → IsNested self.new) }
        ensures err { OnErr result (self.new ≡ self.old) }
    {
        let element = element(self.alloc, tag, attributes, content)?;
        self.bytes.extend_from_slice(&element)
    }

    /// A tag of the head that tells something about the page, by its attributes.
    ///
    /// # Errors
    ///
    /// Only if out of memory; the HTML is then as it was.
    pub fn put_meta(&mut self, attributes: &Attributes) -> Result<(), AllocError>
        ensures ok { OnOk result (self.new ≡ self.old ++ meta_of attributes.now) }
        ensures nested { OnOk result (IsNested self.old → AreAttributes attributes.now → IsNested self.new) }
        ensures err { OnErr result (self.new ≡ self.old) }
    {
        let meta = meta(self.alloc, attributes)?;
        self.bytes.extend_from_slice(&meta)
    }

    /// What another piece holds.
    ///
    /// # Errors
    ///
    /// Only if out of memory; the HTML is then as it was.
    pub fn put(&mut self, more: &Html) -> Result<(), AllocError>
        ensures ok { OnOk result (self.new ≡ self.old ++ more.now) }
        ensures nested { OnOk result (IsNested self.old → IsNested more.now → IsNested self.new) }
        ensures err { OnErr result (self.new ≡ self.old) }
    {
        self.bytes.extend_from_slice(more.bytes())
    }
}
