// Which effects run again, by example.
use rx_base::{Int, Ints, Str};
use rx_effect::effect_changes;
use rx_elem::EffectRecord;
use std::alloc::{AllocError, Global};
use std::test::Fail;

fn effects(alloc: Global, values: [i64; 2]) -> Result<Vec<EffectRecord>, AllocError> {
    let mut effects = Vec::new(alloc);
    for value in values {
        effects.push(EffectRecord {
            layout: true,
            label: Str::new(alloc, "v")?,
            values: Ints::new(vec![in alloc; Int::of(0), Int::of(value)]?),
        })?;
    }
    Ok(effects)
}

#[test]
fn a_changed_dependency_counts(rt: HostRuntime) -> Result<(), Fail> {
    let old = effects(rt.alloc(), [1, 2])?;
    let new = effects(rt.alloc(), [1, 3])?;
    if old.len() < 100 {
        let places = effect_changes(rt.alloc(), &old, &new)?;
        assert_eq!(rt; places.as_slice(), [1].as_slice());
    }
    Ok(())
}
