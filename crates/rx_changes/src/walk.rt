// The walk of a new tree beside the old one.
ghost use Rattle.std.specs.Prelude.{◌≡◌, true, false, OnOk, IfOk, length, flat_map};
ghost use Rattle.std.specs.Option.{option_copied};
ghost use Rattle.rx_elem.specs.Trees.{forest, none, places, elements_in, mark_of, is_hidden, children_if, children_of, fallback_if, fallback_of};
ghost use Rattle.rx_elem.specs.Compare.{above_children, pasts, compare_in, compare_trees, gone_from};
ghost use Rattle.rx_elem.specs.Spots.{Around, at_root};
ghost use Rattle.rx_effect.specs.EffectLog.{destroyed_in};
ghost use Rattle.rx_node.specs.Texts.{are_texts};
ghost use Rattle.rx_compare.specs.InPlace.{AreInPlace};
ghost use Rattle.rx_compare.specs.Pairs.{IsPairing};
ghost use Rattle.rx_changes.specs.Below.{HasTextsInPlace, IsLeaf, compared_of, with_below, with_children};
ghost use Rattle.rx_changes.specs.ChangesView.{changes_seen};
ghost use Rattle.rx_changes.specs.Found.{found_in, logged, no_effects, with_effects, with_node, with_list};
ghost use Rattle.rx_changes.specs.StepView.{level_seen, step_seen};

use crate::changes::Changes;
use crate::own::{add_change, add_effects};
use crate::past::{add_gone, add_hiding};
use crate::step::{Level, Step};
use rx_compare::{Pairing, Past, are_in_place, children_if, fallback_if, match_nodes, pair_nodes};
use rx_node::{Mark, Node};
use std::alloc::{AllocError, Global};

// Goes on with the children of a list, in order, each of which is the old one at its place.
#[cycle(walk)]
fn add_in_place(
    alloc: Global,
    found: &mut Changes,
    level: Level,
    old: &[Option<Node>],
    new: &[Option<Node>],
) -> Result<(), AllocError>
    requires { AreInPlace (forest old.now) (forest new.now) }
    ensures { OnOk result ((a : Around) → changes_seen found.new ≡ with_list level.logs (compare_in (level_seen a level) (pasts (forest old.now) (elements_in (forest new.now))) (forest new.now)) (changes_seen found.old)) }
{
    for place in 0..new.len() {
        if let Some(node) = &new[place] {
            let known = Past {
                old: old[place].as_ref(),
                moved: false,
            };
            add_node(alloc, found, &Step::new(level, known, node))?;
        }
    }
    Ok(())
}

// Goes on with the children of a list, in order.
#[cycle(walk)]
fn add_list(
    alloc: Global,
    found: &mut Changes,
    level: Level,
    old: &[Option<Node>],
    new: &[Option<Node>],
    pairing: &Pairing,
) -> Result<(), AllocError>
    requires { IsPairing (forest old.now) (forest new.now) pairing.now }
    ensures { OnOk result ((a : Around) → changes_seen found.new ≡ with_list level.logs (compare_in (level_seen a level) (pasts (forest old.now) (elements_in (forest new.now))) (forest new.now)) (changes_seen found.old)) }
{
    for place in 0..new.len() {
        if let Some(node) = &new[place] {
            let known = pairing.past(old, place);
            add_node(alloc, found, &Step::new(level, known, node))?;
        }
    }
    Ok(())
}

// Whether neither a node nor its past has anything below it.
fn is_leaf(change: &Step) -> bool
    ensures { result ≡ true → IsLeaf (step_seen at_root change.now) }
{
    let old = children_if(change.old).is_empty() && fallback_if(change.old).is_empty();
    old && change.new.children().is_empty() && change.new.fallback().is_empty()
}

// Whether an old node has texts alone below it.
fn had_texts(old: Option<&Node>) -> bool
    ensures { result ≡ true → are_texts (children_if (option_copied old.entry)) ≡ true }
{
    match old {
        Some(node) => node.has_texts(),
        None => false,
    }
}

// Whether a node has as many places below it as its past had.
fn has_as_many(change: &Step) -> bool
    ensures { result ≡ true → length (places (children_if (step_seen at_root change.now).old)) ≡ length (places (children_of (step_seen at_root change.now).new)) }
{
    children_if(change.old).len() == change.new.children().len()
}

// Whether neither a node nor its past has a fallback.
fn has_no_fallback(change: &Step) -> bool
    ensures behind { result ≡ true → fallback_if (step_seen at_root change.now).old ≡ none }
    ensures beside { result ≡ true → fallback_of (step_seen at_root change.now).new ≡ none }
{
    fallback_if(change.old).is_empty() && change.new.fallback().is_empty()
}

// Whether a node places nothing that stays below it, and hides nothing.
fn keeps_all(change: &Step) -> bool
    ensures still { result ≡ true → (above_children (step_seen at_root change.now)).displaced ≡ false }
    ensures shown { result ≡ true → is_hidden (mark_of (step_seen at_root change.now).new) ≡ false }
{
    match change.new.mark() {
        Mark::Host(_) => true,
        Mark::Plain => !change.displaced,
        Mark::Instance(_) | Mark::Boundary(_) | Mark::Catch(_) => false,
    }
}

// Whether a node and its past have texts alone below them, as many, and these stay: then none of them is looked at.
fn has_texts_in_place(change: &Step) -> bool
    ensures { result ≡ true → HasTextsInPlace (step_seen at_root change.now) }
{
    if !had_texts(change.old) {
        return false;
    }
    if !change.new.has_texts() {
        return false;
    }
    if !has_as_many(change) {
        return false;
    }
    if !has_no_fallback(change) {
        return false;
    }
    keeps_all(change)
}

// Goes on with a node's children that stay, each at its place or matched, and with what is gone of the old ones.
#[cycle(walk)]
fn add_kids(
    alloc: Global,
    found: &mut Changes,
    level: Level,
    old: &[Option<Node>],
    new: &[Option<Node>],
    logs: bool,
) -> Result<(), AllocError>
    ensures { OnOk result ((a : Around) → changes_seen found.new ≡ with_list level.logs (compare_in (level_seen a level) (pasts (forest old.now) (elements_in (forest new.now))) (forest new.now)) (with_effects (logged logs (λ q. flat_map (destroyed_in q) (gone_from level.was_visible (forest old.now) (forest new.now)))) no_effects (changes_seen found.old))) }
{
    if are_in_place(old, new) {
        return add_in_place(alloc, found, level, old, new);
    }
    let pairs = Pairing::Matched(match_nodes(alloc, old, new)?);
    add_gone(alloc, found, level.was_visible, old, &pairs, logs)?;
    add_list(alloc, found, level, old, new, &pairs)
}

// Goes on with all below a node that has no fallback: its children, and what hiding them does.
#[cycle(walk)]
fn add_children(alloc: Global, found: &mut Changes, change: &Step) -> Result<(), AllocError>
    ensures { OnOk result ((a : Around) → changes_seen found.new ≡ with_children change.now.logs (step_seen a change.now) (changes_seen found.old)) }
{
    let kids = change.new.children();
    let old = children_if(change.old);
    add_kids(alloc, found, change.level_below(), old, kids, change.logs)?;
    add_hiding(alloc, found, change)
}

// Goes on with all below a node: what is gone of its children, these, what hiding them does, and its fallback.
#[cycle(walk)]
fn add_both(alloc: Global, found: &mut Changes, change: &Step) -> Result<(), AllocError>
    ensures { OnOk result ((a : Around) → changes_seen found.new ≡ with_below change.now.logs (step_seen a change.now) (changes_seen found.old)) }
{
    let kids = change.new.children();
    let others = change.new.fallback();
    let old = children_if(change.old);
    let behind = fallback_if(change.old);
    let pairs = pair_nodes(alloc, old, kids)?;
    let rest = pair_nodes(alloc, behind, others)?;
    let below = change.level_below();
    let logs = change.logs;
    add_gone(alloc, found, below.was_visible, old, &pairs, logs)?;
    add_gone(alloc, found, change.was_visible, behind, &rest, logs)?;
    add_list(alloc, found, below, old, kids, &pairs)?;
    add_hiding(alloc, found, change)?;
    let beside = change.level_beside();
    add_list(alloc, found, beside, behind, others, &rest)
}

// Goes on with all below a node. Most have no fallback.
#[cycle(walk)]
fn add_below(alloc: Global, found: &mut Changes, change: &Step) -> Result<(), AllocError>
    ensures { OnOk result ((a : Around) → changes_seen found.new ≡ with_below change.now.logs (step_seen a change.now) (changes_seen found.old)) }
{
    if is_leaf(change) {
        return Ok(());
    }
    if has_texts_in_place(change) {
        return Ok(());
    }
    if has_no_fallback(change) {
        return add_children(alloc, found, change);
    }
    add_both(alloc, found, change)
}

// Goes on with a node and all below it: at each node what it tells by itself, then what is below it, and then its own effects.
#[cycle(walk)]
fn add_node(alloc: Global, found: &mut Changes, change: &Step) -> Result<(), AllocError>
    ensures { OnOk result ((a : Around) → changes_seen found.new ≡ with_node change.now.logs (compared_of (step_seen a change.now)) (changes_seen found.old)) }
{
    add_change(found, change)?;
    add_below(alloc, found, change)?;
    add_effects(alloc, found, change)
}

/// What a new tree changes beside the old one, if there is one: the effects that its commit destroys and creates, children before
/// their parents, the hosts that it places, what error boundaries catch, and what the boundaries wait for that it hides (react.dev,
/// Render and Commit). One walk of both trees, in time in proportion to them.
///
/// # Errors
///
/// Only if out of memory.
pub fn changes_between(alloc: Global, old: Option<&Node>, new: &Node) -> Result<Changes, AllocError>
    ensures { IfOk result (λ x. changes_seen x ≡ found_in (compare_trees (option_copied old.entry) new.now)) }
{
    let mut found = Changes::new(alloc);
    let past = Past { old, moved: false };
    add_node(alloc, &mut found, &Step::new(Level::root(), past, new))?;
    Ok(found)
}
