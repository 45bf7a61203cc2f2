// A host of a tree.
ghost use Rattle.std.specs.Prelude.{◌≡◌, Some, IfOk, is_some, option_map};
ghost use Rattle.rx_elem.specs.Spots.{Around};
ghost use Rattle.rx_forest.specs.Hosts.{content_of, host_as};

use rx_elem::{Element, ElementKind};
use std::alloc::AllocError;
use std::marker::Model;

/// A host of a committed tree: its number, the nearest host above it, whether it is hidden there, and what it is, by a
/// handle of its element. Contracts see it as plain data.
#[derive(Drop)]
pub struct Host {
    number: u64,
    parent: u64,
    hidden: bool,
    element: Element,
}

impl Model for Host {
    ghost use Rattle.std.specs.Prelude.{◌≡◌, is_some, true};
    ghost use Rattle.rx_forest.specs.Hosts as hosts;
    ghost use Rattle.rx_host_ops.specs.HostView.{content_seen};

    ghost Value = { hosts.Host };

    ghost view = { λ h. record { number = h.number; parent = h.parent; hidden = h.hidden; content = content_seen h.element } };

    ghost invariant = { λ h. is_some (hosts.content_of h.element) ≡ true };
}

// True for the element of a host or a text.
fn is_shown(element: &Element) -> bool
    ensures { result ≡ is_some (content_of element.now) }
{
    match element.kind() {
        ElementKind::Text(_) => true,
        ElementKind::Host(_, _, _, _) => true,
        _ => false,
    }
}

impl Host {
    // The host of this number and element below its parent, hidden there or not; another element stands for none.
    pub(crate) fn below(
        parent: u64,
        concealed: bool,
        number: u64,
        element: &Element,
    ) -> Result<Option<Host>, AllocError>
        ensures { IfOk result (λ h. (a : Around) → a.host ≡ parent → a.concealed ≡ concealed → h ≡ option_map (host_as a number) (content_of element.now)) }
    {
        if !is_shown(element) {
            return Ok(None);
        }
        let element = element.copy()?;
        Ok(Some(Host {
            number,
            parent,
            hidden: concealed,
            element,
        }))
    }

    /// Its number.
    pub fn number(&self) -> u64
        ensures { result ≡ self.now.number }
    {
        self.number
    }

    /// The nearest host above it; 0 is the container.
    pub fn parent(&self) -> u64
        ensures { result ≡ self.now.parent }
    {
        self.parent
    }

    /// True if it is hidden below that host.
    pub fn is_hidden(&self) -> bool
        ensures { result ≡ self.now.hidden }
    {
        self.hidden
    }

    // The element that says what it is.
    pub(crate) fn element(&self) -> &Element
        ensures { content_of result.now ≡ Some self.now.content }
    {
        &self.element
    }
}
