// An instance of a tree.
ghost use Rattle.std.specs.Prelude.{◌≡◌, Some, IfOk};
ghost use Rattle.rx_elem.specs.Spots.{mounted_as};
ghost use Rattle.rx_elem.specs.Spots as spots;
ghost use Rattle.rx_node.specs.MarkView.{instance_seen};

use crate::around::Around;
use rx_base::Ints;
use rx_node::Instance;
use std::alloc::AllocError;
use std::marker::Model;
use std::rc::Rc;

/// An instance of a committed tree (react.dev, State as a Snapshot): its number, its component by its number in the order of
/// the text, the initial values of its hooks, the nearest instance above it, and whether it is visible. Contracts see it as
/// plain data.
#[derive(Drop)]
pub struct Mounted {
    number: u64,
    component: u32,
    initials: Rc<Ints>,
    owner: Option<u64>,
    visible: bool,
}

impl Model for Mounted {
    ghost use Rattle.rx_elem.specs.Spots as spots;

    ghost Value = { spots.Mounted };

    ghost view = { λ m. record { number = m.number; component = m.component; initials = m.initials.value; owner = m.owner; visible = m.visible } };
}

impl Mounted {
    /// Its number.
    pub fn number(&self) -> u64
        ensures { result ≡ self.now.number }
    {
        self.number
    }

    /// Its component, by its number in the order of the text.
    pub fn component(&self) -> u32
        ensures { result ≡ self.now.component }
    {
        self.component
    }

    /// The initial values of its hooks, in statement order.
    pub fn initials(&self) -> &Ints
        ensures { result.now ≡ self.now.initials }
    {
        &self.initials
    }

    /// The number of the nearest instance above; none for the one at the root.
    pub fn owner(&self) -> Option<u64>
        ensures { result ≡ self.now.owner }
    {
        self.owner
    }

    /// True if it lies in no kept primary.
    pub fn is_visible(&self) -> bool
        ensures { result ≡ self.now.visible }
    {
        self.visible
    }

    /// The instance of this number, by what surrounds it: it has the initial values of the node's instance by one handle more.
    ///
    /// # Errors
    ///
    /// Only if out of memory.
    pub fn new(instance: &Instance, number: u64, around: Around) -> Result<Mounted, AllocError>
        ensures { IfOk result (λ m. Some m ≡ mounted_as around (record (instance_seen instance.now) { number = Some number })) }
    {
        Mounted::below(instance, number, around.owner(), around.is_visible())
    }

    /// The instance of this number below an owner, visible or not.
    ///
    /// # Errors
    ///
    /// Only if out of memory.
    pub(crate) fn below(
        instance: &Instance,
        number: u64,
        owner: Option<u64>,
        visible: bool,
    ) -> Result<Mounted, AllocError>
        ensures { IfOk result (λ m. (a : spots.Around) → a.owner ≡ owner → a.visible ≡ visible → Some m ≡ mounted_as a (record (instance_seen instance.now) { number = Some number })) }
    {
        let initials = instance.parts.initials.clone()?;
        Ok(Mounted {
            number,
            component: instance.parts.component,
            initials,
            owner,
            visible,
        })
    }
}
