// Which marks a commit leaves as they are.
ghost use Rattle.std.specs.Prelude.{◌≡◌, true};
ghost use Rattle.rx_node.specs.MarkView.{instance_seen, mark_seen};

use rx_base::Ints;
use rx_catch::CatchState;
use rx_elem::{ContextRead, EffectRecord, VersionRead};
use rx_node::{Instance, InstanceParts, Mark};
use rx_set::NumberSet;
use rx_susp::BoundaryState;

// Whether two lists of integers are the same.
fn are_same(old: &Ints, new: &Ints) -> bool
    ensures { result ≡ true → old.now ≡ new.now }
{
    old.as_slice() == new.as_slice()
}

// Whether two instances read the same contexts, with the same values.
fn are_same_reads(old: &[ContextRead], new: &[ContextRead]) -> bool
    ensures { result ≡ true → old.now ≡ new.now }
{
    old == new
}

// Whether two instances read the same versions of the same resources.
fn are_same_versions(old: &[VersionRead], new: &[VersionRead]) -> bool
    ensures { result ≡ true → old.now ≡ new.now }
{
    old == new
}

// Whether two effects are the same, and have the same dependencies.
fn is_same_effect(old: &EffectRecord, new: &EffectRecord) -> bool
    ensures { result ≡ true → old.now ≡ new.now }
{
    old.layout == new.layout
        && are_same(&old.values, &new.values)
        && old.label.text() == new.label.text()
}

// Whether two instances have the same effects.
fn are_same_effects(old: &[EffectRecord], new: &[EffectRecord]) -> bool
    ensures { result ≡ true → old.now ≡ new.now }
{
    if old.len() != new.len() {
        return false;
    }
    'comparing: for place in 0..old.len() {
        if !is_same_effect(&old[place], &new[place]) {
            return false;
        }
    }
    true
}

// Whether an evaluation left the same as the one before.
fn are_same_parts(old: &InstanceParts, new: &InstanceParts) -> bool
    ensures component { result ≡ true → old.now.component ≡ new.now.component }
    ensures effects { result ≡ true → old.now.effects.value.items ≡ new.now.effects.value.items }
    ensures reads { result ≡ true → old.now.reads.value.items ≡ new.now.reads.value.items }
    ensures versions { result ≡ true → old.now.versions.value.items ≡ new.now.versions.value.items }
    ensures initials { result ≡ true → old.now.initials.value ≡ new.now.initials.value }
{
    old.component == new.component
        && are_same_effects(&old.effects, &new.effects)
        && are_same_reads(&old.reads, &new.reads)
        && are_same_versions(&old.versions, &new.versions)
        && are_same(&old.initials, &new.initials)
}

// Whether an instance that was rendered anew came out as it was.
fn is_same_instance(old: &Instance, new: &Instance) -> bool
    ensures { result ≡ true → instance_seen old.now ≡ instance_seen new.now }
{
    old.number == new.number && are_same_parts(&old.parts, &new.parts)
}

// Whether the hooks of an instance have work in this render, or it is new.
fn has_work(instance: &Instance, working: &NumberSet) -> bool {
    match instance.number {
        Some(number) => working.has(number),
        None => true,
    }
}

// Whether a commit has nothing to do for a node itself that had the one mark and has the other: they are the same, and it is no
// instance whose hooks have work in this render, for a commit settles those.
pub(crate) fn came_out_same(old: &Mark, new: &Mark, working: &NumberSet) -> bool
    ensures { result ≡ true → mark_seen old.now ≡ mark_seen new.now }
{
    match (old, new) {
        (Mark::Instance(was), Mark::Instance(is)) => {
            !has_work(is, working) && is_same_instance(was, is)
        }
        (Mark::Host(was), Mark::Host(is)) => *was == *is,
        (Mark::Boundary(BoundaryState::Shown), Mark::Boundary(BoundaryState::Shown)) => true,
        (Mark::Catch(CatchState::Fine), Mark::Catch(CatchState::Fine)) => true,
        (Mark::Plain, Mark::Plain) => true,
        _ => false,
    }
}
