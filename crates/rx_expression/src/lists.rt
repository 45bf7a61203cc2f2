// Lists of what is read, which keep no more room than they need.
ghost use Rattle.std.specs.Prelude.{◌≡◌, ◌++◌, ◌∷◌, [], IfErr, OnOk};

use crate::fault::Fault;

/// One more item behind a list. The first one gets room for itself alone, since most lists of a program have no more.
pub fn push<T: Drop>(items: &mut Vec<T>, item: T) -> Result<(), Fault>
    ensures items { OnOk result (items.new.items ≡ items.old.items ++ item ∷ []) }
    ensures err { IfErr result (λ e. e ≡ Fault.OutOfMemory) }
{
    if items.is_empty() {
        items.reserve_exact(1)?;
    }
    items.push(item)?;
    Ok(())
}
