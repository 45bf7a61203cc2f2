// The instances that are gone at a commit.
ghost use Rattle.std.specs.Prelude.{◌≡◌, ℕ, true, not, ◌&&◌, nat_eq, IfOk, Some, slice_get};
ghost use Rattle.rx_set.specs.Sets.{holds};
ghost use Rattle.std.specs.List.{list_any};
ghost use Rattle.rx_settle.specs.Passes.{has_instance};

use rx_set::NumberSet;
use rx_spots::Mounted;
use std::alloc::{AllocError, Global};

// The numbers of instances, each found at once.
fn numbers_of(alloc: Global, instances: &[Mounted]) -> Result<NumberSet, AllocError>
    ensures { IfOk result (λ known. (n : ℕ) → holds known n ≡ has_instance instances.now n) }
{
    let mut known = NumberSet::new(alloc);
    'knowing: for instance in instances {
        known.add(instance.number())?;
    }
    Ok(known)
}

// Whether the number of each old instance is that of the one at its place now: then none is gone.
fn stand_as_before(before: &[u64], instances: &[Mounted]) -> bool
    ensures { result ≡ true → (k n : ℕ) → slice_get before.now k ≡ Some n → has_instance instances.now n ≡ true }
{
    if before.len() > instances.len() {
        return false;
    }
    'comparing: for place in 0..before.len() {
        let new = &instances[place];
        if before[place] != new.number() {
            return false;
        }
    }
    true
}

// Those of some numbers that are none of the known ones.
fn numbers_beside(alloc: Global, before: &[u64], known: &NumberSet) -> Result<Vec<u64>, AllocError>
    ensures { IfOk result (λ gone. (n : ℕ) → list_any (nat_eq n) gone.items ≡ (list_any (nat_eq n) before.now && not (holds known.now n))) }
{
    let mut gone = Vec::new(alloc);
    'leaving: for number in before {
        if !known.has(*number) {
            gone.push(*number)?;
        }
    }
    Ok(gone)
}

/// Of the numbers of the old instances, those of the ones that are no longer there. If each stands where it stood, no set of
/// numbers is made.
///
/// # Errors
///
/// Only if out of memory.
pub(crate) fn gone_from(
    alloc: Global,
    before: &[u64],
    instances: &[Mounted],
) -> Result<Vec<u64>, AllocError>
    ensures { IfOk result (λ gone. (n : ℕ) → list_any (nat_eq n) gone.items ≡ (list_any (nat_eq n) before.now && not (has_instance instances.now n))) }
{
    if stand_as_before(before, instances) {
        return Ok(Vec::new(alloc));
    }
    let known = numbers_of(alloc, instances)?;
    numbers_beside(alloc, before, &known)
}
