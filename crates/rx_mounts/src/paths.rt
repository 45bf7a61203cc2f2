// The instance that a path leads to, among the instances of a tree.
ghost use Rattle.std.specs.Prelude.{◌≡◌, None, nat_eq};
ghost use Rattle.std.specs.Option.{option_copied, option_eq};
ghost use Rattle.rx_model.specs.State.{find_from, is_step, step_to};

use rx_base::Name;
use rx_check::Checked;
use rx_dispatch::name_of;
use rx_spots::Mounted;

// True for an instance right below this one; none for the one at the root.
fn is_below(owner: Option<u64>, instance: &Mounted) -> bool
    ensures { result ≡ option_eq nat_eq instance.now.owner owner }
{
    match instance.owner() {
        Some(above) => match owner {
            Some(number) => above == number,
            None => false,
        },
        None => owner.is_none(),
    }
}

// True for an instance of a component of this name, right below this owner.
fn is_step(checked: &Checked, owner: Option<u64>, name: &Name, instance: &Mounted) -> bool
    ensures { result ≡ is_step checked.now owner name.now instance.now }
{
    is_below(owner, instance) && name_of(checked, instance.component()) == name.text()
}

// The so-many-th instance of a name below an instance.
fn step_to<'a>(
    checked: &Checked,
    all: &'a [Mounted],
    owner: Option<u64>,
    part: &(Name, u64),
) -> Option<&'a Mounted>
    ensures { option_copied result ≡ step_to checked.now all.now owner part.now }
{
    let (name, number) = part;
    let mut left = *number;
    'looking: for instance in all {
        if is_step(checked, owner, name, instance) {
            if left == 0 {
                return Some(instance);
            }
            left -= 1;
        }
    }
    None
}

/// The instance that a path leads to, among the instances of a tree in tree order: from the root, each part names the
/// so-many-th instance of a component right below the one before, counted from 0. It goes over all instances once for each
/// part.
pub fn find<'a>(checked: &Checked, all: &'a [Mounted], path: &[(Name, u64)]) -> Option<&'a Mounted>
    ensures { option_copied result ≡ find_from checked.now all.now None path.now }
{
    let (part, rest) = path.split_first()?;
    let mut found = step_to(checked, all, None, part)?;
    'walking: for part in rest {
        found = step_to(checked, all, Some(found.number()), part)?;
    }
    Some(found)
}
