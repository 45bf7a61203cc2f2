// An instance that is new.
use rx_base::{Ints, Str};
use rx_changes::changes_between;
use rx_elem::{EffectRecord, Element, ElementKind};
use rx_node::{Instance, InstanceParts, Mark, Node};
use std::alloc::{AllocError, Global};
use std::rc::Rc;
use std::test::Fail;

fn instance(alloc: Global) -> Result<Instance, AllocError> {
    let mut effects = Vec::new(alloc);
    for layout in [true, false] {
        effects.push(EffectRecord {
            layout,
            label: Str::new(alloc, "shown")?,
            values: Ints::new(Vec::new(alloc)),
        })?;
    }
    Ok(Instance {
        number: Some(1),
        parts: Rc::new(
            alloc,
            InstanceParts {
                component: 0,
                initials: Rc::new(alloc, Ints::new(Vec::new(alloc)))?,
                reads: Rc::new(alloc, Vec::new(alloc))?,
                versions: Rc::new(alloc, Vec::new(alloc))?,
                effects: Rc::new(alloc, effects)?,
            },
        )?,
    })
}

#[test]
fn a_new_instance_creates_its_effects(rt: HostRuntime) -> Result<(), Fail> {
    let alloc = rt.alloc();
    let element = Element::new(
        alloc,
        ElementKind::Comp(0, None, Ints::new(Vec::new(alloc)), Vec::new(alloc)),
    )?;
    let mark = Mark::Instance(instance(alloc)?);
    let new = Node::new(alloc, element, mark, Vec::new(alloc), Vec::new(alloc))?;
    let changes = changes_between(alloc, None, &new)?;
    assert_eq!(rt; changes.layout.destroyed.len(), 0);
    assert_eq!(rt; changes.layout.created.len(), 1);
    assert_eq!(rt; changes.passive.destroyed.len(), 0);
    assert_eq!(rt; changes.passive.created.len(), 1);
    Ok(())
}
