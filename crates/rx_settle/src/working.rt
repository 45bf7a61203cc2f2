// The instances in whose hooks a render has work.
ghost use Rattle.std.specs.Prelude.{◌≡◌, ℕ, true, false, cond, nat_eq, IfOk, length};
ghost use Rattle.rx_set.specs.Sets.{holds};
ghost use Rattle.rx_hook_store.specs.Store.{kept_hooks};
ghost use Rattle.rx_hook_store.specs.Working.{AreAllWorking};
ghost use Rattle.rx_settle.specs.Passes.{has_instance};
ghost use Rattle.rx_settle.specs.Found.{AreTaken, HasWorkElsewhere, HasWorking, seen};

use rx_base::Cut;
use rx_hook_store::HookStore;
use rx_lane::Lanes;
use rx_set::NumberSet;
use rx_spots::Mounted;
use std::alloc::{AllocError, Global};

// Takes a number out of a set, and tells whether it was there.
fn take_number(numbers: &mut NumberSet, number: u64) -> bool
    ensures was { result ≡ holds numbers.old number }
    ensures others { (n : ℕ) → holds numbers.new n ≡ cond (nat_eq number n) false (holds numbers.old n) }
{
    numbers.remove(number)
}

/// The instances whose numbers are in a set. Their numbers are taken out of it, and once it is empty no more are looked at.
///
/// # Errors
///
/// Only if out of memory.
pub(crate) fn take_known<'a>(
    alloc: Global,
    numbers: &mut NumberSet,
    instances: &'a [Mounted],
) -> Result<Vec<&'a Mounted>, AllocError>
    ensures { IfOk result (λ found. AreTaken (holds numbers.old) (holds numbers.new) instances.now (length instances.now) (seen found.items)) }
{
    let mut found = Vec::new(alloc);
    'finding: for instance in instances {
        if numbers.is_empty() {
            return Ok(found);
        }
        if take_number(numbers, instance.number()) {
            found.push(instance)?;
        }
    }
    Ok(found)
}

/// The instances in whose hooks a render has work, and whether there are no others than these in whose hooks it has.
///
/// # Errors
///
/// Only if out of memory.
pub(crate) fn working_of<'a>(
    alloc: Global,
    store: &HookStore,
    instances: &'a [Mounted],
    lanes: Lanes,
    cut: Cut,
) -> Result<(Vec<&'a Mounted>, bool), AllocError>
    ensures found { IfOk result (λ r. HasWorking lanes cut (kept_hooks store.now) instances.now (seen r.0.items)) }
    ensures all { IfOk result (λ r. r.1 ≡ true → AreAllWorking lanes cut (kept_hooks store.now) (has_instance instances.now)) }
    ensures others { IfOk result (λ r. r.1 ≡ false → HasWorkElsewhere lanes cut (kept_hooks store.now) instances.now) }
{
    let mut numbers = store.working(alloc, lanes, cut)?;
    let found = take_known(alloc, &mut numbers, instances)?;
    let are_all = numbers.is_empty();
    Ok((found, are_all))
}
