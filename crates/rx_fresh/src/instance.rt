// The instance of a component's node.
ghost use Rattle.std.specs.Prelude.{◌≡◌, IfOk, option_map};
ghost use Rattle.std.specs.Option.{option_copied};
ghost use Rattle.rx_meaning.specs.Fresh.{instance_after, old_instance};
ghost use Rattle.rx_node.specs.MarkView.{instance_seen};
ghost use Rattle.rx_fresh.specs.Seeing.{number_in};

use rx_base::Ints;
use rx_elem::{ContextRead, EffectRecord, VersionRead};
use rx_node::{Instance, InstanceParts, Mark, Node};
use std::alloc::{AllocError, Global};
use std::rc::Rc;

// The instance of an old node, if that is one of a component.
pub(crate) fn old_instance(old: Option<&Node>) -> Result<Option<Instance>, AllocError>
    ensures { IfOk result (λ i. option_map instance_seen i ≡ old_instance (option_copied old.entry)) }
{
    match old {
        None => Ok(None),
        Some(node) => match node.mark() {
            Mark::Instance(instance) => Ok(Some(instance.copy()?)),
            Mark::Host(_) | Mark::Boundary(_) | Mark::Catch(_) | Mark::Plain => Ok(None),
        },
    }
}

// The number of an instance, if it has one.
pub(crate) fn number_of(instance: &Option<Instance>) -> Option<u64>
    ensures { result ≡ number_in (option_map instance_seen instance.now) }
{
    match instance {
        Some(instance) => instance.number,
        None => None,
    }
}

// An instance keeps its number and its initial values (react.dev, State as a Snapshot). Fails only if out of memory.
pub(crate) fn instance_after(
    alloc: Global,
    component: u32,
    old: Option<Instance>,
    initials: Rc<Ints>,
    reads: Rc<Vec<ContextRead>>,
    versions: Rc<Vec<VersionRead>>,
    effects: Rc<Vec<EffectRecord>>,
) -> Result<Instance, AllocError>
    ensures { IfOk result (λ i. instance_seen i ≡ instance_after component (option_map instance_seen old) initials.value reads.value.items versions.value.items effects.value.items) }
{
    let (number, initials) = match old {
        Some(old) => (old.number, old.parts.initials.clone()?),
        None => (None, initials),
    };
    Ok(Instance {
        number,
        parts: Rc::new(
            alloc,
            InstanceParts {
                component,
                initials,
                reads,
                versions,
                effects,
            },
        )?,
    })
}
