// Which effects of an instance run again.
ghost use Rattle.std.specs.Prelude.{◌≡◌, ◌<◌, ◌^◌, IfOk, length};
ghost use Rattle.rx_effect.specs.EffectLog.{differs, effect_changes};

use rx_elem::EffectRecord;
use std::alloc::{AllocError, Global};

/// Whether an effect runs again: a dependency has another value (react.dev, useEffect).
pub fn differ(old: &EffectRecord, new: &EffectRecord) -> bool
    ensures { result ≡ differs (old.now, new.now) }
{
    old.values.as_slice() != new.values.as_slice()
}

/// The places of the effects that run again, of an instance with these old and new effects in statement order: those of which
/// a dependency has another value (react.dev, useEffect).
///
/// # Errors
///
/// Only if out of memory.
pub fn effect_changes(
    alloc: Global,
    old: &[EffectRecord],
    new: &[EffectRecord],
) -> Result<Vec<u32>, AllocError>
    requires { length old.now < 2 ^ 32 }
    ensures { IfOk result (λ places. places.items ≡ effect_changes old.now new.now) }
{
    let count = old.len().min(new.len()) as u32;
    let mut places = Vec::new(alloc);
    for place in 0..count {
        if differ(&old[place as usize], &new[place as usize]) {
            places.push(place)?;
        }
    }
    Ok(places)
}
