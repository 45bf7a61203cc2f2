// What a node has beside its element and its children.
ghost use Rattle.std.specs.Prelude.{◌≡◌, IfOk, option_and_then};
ghost use Rattle.rx_elem.specs.Trees.{instance_in, effects_in, is_host, is_hidden, is_shown, is_caught, boundary_in, awaits_in, caught_in};
ghost use Rattle.rx_node.specs.Fixed.{is_fixed_mark};
ghost use Rattle.rx_node.specs.MarkView.{instance_seen, mark_seen};
ghost use Rattle.rx_node.specs.Mounts.{is_instance};

use rx_base::{Awaits, Int, Ints};
use rx_catch::CatchState;
use rx_elem::{ContextRead, EffectRecord, VersionRead};
use rx_susp::BoundaryState;
use std::alloc::AllocError;
use std::rc::Rc;

/// What its last evaluation left of a component's instance: its component, by its number in the order of the text; the initial
/// values of its hooks; the contexts and the versions of resources that it read; and its effects.
#[derive(Drop)]
pub struct InstanceParts {
    pub component: u32,
    pub initials: Rc<Ints>,
    pub reads: Rc<Vec<ContextRead>>,
    pub versions: Rc<Vec<VersionRead>>,
    pub effects: Rc<Vec<EffectRecord>>,
}

/// What is kept of a component's instance (react.dev, State as a Snapshot): its number, from its first commit on, and what its last
/// evaluation left, which the trees of all renders share until the next one.
#[derive(Drop)]
pub struct Instance {
    pub number: Option<u64>,
    pub parts: Rc<InstanceParts>,
}

/// What a node has beside its element and its children.
#[derive(Drop)]
pub enum Mark {
    /// Of a component.
    Instance(Instance),
    /// Of a host or a text, with its number from its first commit on.
    Host(Option<u64>),
    Boundary(BoundaryState),
    /// Of an error boundary.
    Catch(CatchState),
    /// Of a list or a provider.
    Plain,
}

impl Instance {
    /// The same instance, by one handle more of its parts.
    ///
    /// # Errors
    ///
    /// Only if out of memory.
    pub fn copy(&self) -> Result<Instance, AllocError>
        ensures { IfOk result (λ i. instance_seen i ≡ instance_seen self.now) }
    {
        Ok(Instance {
            number: self.number,
            parts: self.parts.clone()?,
        })
    }
}

impl Mark {
    /// The same mark.
    ///
    /// # Errors
    ///
    /// Only if out of memory.
    pub fn copy(&self) -> Result<Mark, AllocError>
        ensures { IfOk result (λ m. mark_seen m ≡ mark_seen self.now) }
    {
        match self {
            Mark::Instance(instance) => Ok(Mark::Instance(instance.copy()?)),
            Mark::Host(number) => Ok(Mark::Host(*number)),
            Mark::Boundary(state) => Ok(Mark::Boundary(*state)),
            Mark::Catch(state) => Ok(Mark::Catch(*state)),
            Mark::Plain => Ok(Mark::Plain),
        }
    }

    /// True of an instance.
    pub fn is_instance(&self) -> bool
        ensures { result ≡ is_instance (mark_seen self.now) }
    {
        matches!(self, Mark::Instance(_))
    }

    /// True of a host or a text.
    pub fn is_host(&self) -> bool
        ensures { result ≡ is_host (mark_seen self.now) }
    {
        matches!(self, Mark::Host(_))
    }

    /// True of a boundary that is hidden.
    pub fn is_hidden(&self) -> bool
        ensures { result ≡ is_hidden (mark_seen self.now) }
    {
        match self {
            Mark::Boundary(state) => state.hides(),
            Mark::Instance(_) | Mark::Host(_) | Mark::Catch(_) | Mark::Plain => false,
        }
    }

    /// True of a boundary that is shown.
    pub fn is_shown(&self) -> bool
        ensures { result ≡ is_shown (mark_seen self.now) }
    {
        match self {
            Mark::Boundary(state) => !state.hides(),
            Mark::Instance(_) | Mark::Host(_) | Mark::Catch(_) | Mark::Plain => false,
        }
    }

    /// Whether a commit leaves it as it is. It gives a number to what is new: an instance, a host or a text.
    pub fn is_fixed(&self) -> bool
        ensures { result ≡ is_fixed_mark (mark_seen self.now) }
    {
        match self {
            Mark::Instance(instance) => instance.number.is_some(),
            Mark::Host(number) => number.is_some(),
            Mark::Boundary(_) | Mark::Catch(_) | Mark::Plain => true,
        }
    }

    /// The number of an instance, from its first commit on; of anything else, nothing.
    pub fn instance_number(&self) -> Option<u64>
        ensures { result ≡ option_and_then (λ i. i.number) (instance_in (mark_seen self.now)) }
    {
        match self {
            Mark::Instance(instance) => instance.number,
            Mark::Host(_) | Mark::Boundary(_) | Mark::Catch(_) | Mark::Plain => None,
        }
    }

    /// The effects of an instance, in statement order; of anything else, none.
    pub fn effects(&self) -> &[EffectRecord]
        ensures { result.now ≡ effects_in (mark_seen self.now) }
    {
        match self {
            Mark::Instance(instance) => &instance.parts.effects,
            Mark::Host(_) | Mark::Boundary(_) | Mark::Catch(_) | Mark::Plain => &[],
        }
    }

    /// The state of a boundary; of anything else, nothing.
    pub fn boundary(&self) -> Option<BoundaryState>
        ensures { result ≡ boundary_in (mark_seen self.now) }
    {
        match self {
            Mark::Boundary(state) => Some(*state),
            Mark::Instance(_) | Mark::Host(_) | Mark::Catch(_) | Mark::Plain => None,
        }
    }

    /// What a hidden boundary waits for; of anything else, nothing.
    pub fn awaits(&self) -> Awaits
        ensures { result ≡ awaits_in (mark_seen self.now) }
    {
        match self {
            Mark::Boundary(state) => state.awaits(),
            Mark::Instance(_) | Mark::Host(_) | Mark::Catch(_) | Mark::Plain => Awaits::none(),
        }
    }

    /// True of an error boundary that has caught a value.
    pub fn is_caught(&self) -> bool
        ensures { result ≡ is_caught (mark_seen self.now) }
    {
        match self {
            Mark::Catch(state) => state.has_caught(),
            Mark::Instance(_) | Mark::Host(_) | Mark::Boundary(_) | Mark::Plain => false,
        }
    }

    /// The value that an error boundary has caught, if it has; of anything else, nothing.
    pub fn caught(&self) -> Option<Int>
        ensures { result ≡ caught_in (mark_seen self.now) }
    {
        match self {
            Mark::Catch(state) => state.caught(),
            Mark::Instance(_) | Mark::Host(_) | Mark::Boundary(_) | Mark::Plain => None,
        }
    }
}
