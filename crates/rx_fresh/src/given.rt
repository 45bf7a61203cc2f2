// What a component's body gives, shared by all who hold it.
ghost use Rattle.std.specs.Prelude.{◌≡◌, IfOk};
ghost use Rattle.rx_eval.specs.Given.{body_seen};
ghost use Rattle.rx_fresh.specs.Giving.{given_seen, ready_seen};

use rx_base::{Int, Ints};
use rx_elem::{ContextRead, EffectRecord, Element, VersionRead};
use rx_eval::Body;
use std::alloc::{AllocError, Global};
use std::rc::Rc;

// What a body gives that is ready, each part by a handle.
#[derive(Drop)]
pub(crate) struct Ready {
    pub(crate) elements: Rc<Vec<Element>>,
    pub(crate) effects: Rc<Vec<EffectRecord>>,
    pub(crate) initials: Rc<Ints>,
    pub(crate) reads: Rc<Vec<ContextRead>>,
    pub(crate) versions: Rc<Vec<VersionRead>>,
}

// What a body gives: it waits for a version of a resource, it throws a value, or it is ready.
#[derive(Drop)]
pub(crate) enum Given {
    Wait(u32, u64),
    Throw(Int),
    Ready(Ready),
}

impl Ready {
    // The same, by one handle more of each part.
    pub(crate) fn copy(&self) -> Result<Ready, AllocError>
        ensures { IfOk result (λ r. ready_seen r ≡ ready_seen self.now) }
    {
        Ok(Ready {
            elements: self.elements.clone()?,
            effects: self.effects.clone()?,
            initials: self.initials.clone()?,
            reads: self.reads.clone()?,
            versions: self.versions.clone()?,
        })
    }
}

// What a body gives, to be shared.
pub(crate) fn shared(alloc: Global, body: Body) -> Result<Given, AllocError>
    ensures { IfOk result (λ g. given_seen g ≡ body_seen body) }
{
    match body {
        Body::Wait(resource, version) => Ok(Given::Wait(resource, version)),
        Body::Throw(value) => Ok(Given::Throw(value)),
        Body::Ready {
            elements,
            effects,
            initials,
            reads,
            versions,
        } => Ok(Given::Ready(Ready {
            elements: Rc::new(alloc, elements)?,
            effects: Rc::new(alloc, effects)?,
            initials: Rc::new(alloc, initials)?,
            reads: Rc::new(alloc, reads)?,
            versions: Rc::new(alloc, versions)?,
        })),
    }
}
