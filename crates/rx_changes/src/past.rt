// What an old tree destroys that is gone or hidden.
ghost use Rattle.std.specs.Prelude.{◌≡◌, ◌++◌, OnOk, flat_map, map, filter_map};
ghost use Rattle.rx_elem.specs.Trees.{forest};
ghost use Rattle.rx_elem.specs.Spots.{at_root, spots, spots_in};
ghost use Rattle.rx_elem.specs.Compare.{node_at, gone_from};
ghost use Rattle.rx_effect.specs.EffectLog.{layout, around_old, destroyed_by_hiding, destroyed_at, destroyed_in};
ghost use Rattle.rx_node.specs.MarkView.{mark_seen};
ghost use Rattle.rx_compare.specs.ComparedView.{around_seen};
ghost use Rattle.rx_compare.specs.Matched.{gone_as};
ghost use Rattle.rx_compare.specs.Pairs.{IsPairing};
ghost use Rattle.rx_elem.specs.Trees as trees;
ghost use Rattle.rx_changes.specs.ChangesView.{changes_seen};
ghost use Rattle.rx_changes.specs.Found.{hiding, logged, no_effects, with_effects};
ghost use Rattle.rx_changes.specs.Phases.{phase_seen, destroyed_of};
ghost use Rattle.rx_changes.specs.StepView.{step_seen};

use crate::changes::Changes;
use crate::line::{Phase, add_lines};
use crate::step::Step;
use rx_compare::{Around, Pairing, node_at};
use rx_effect::LogLine;
use rx_node::{Mark, Node};
use std::alloc::{AllocError, Global};

// What surrounds an old tree that was visible, or wasn't.
fn old_around(visible: bool) -> Around
    ensures { around_seen result ≡ around_old visible }
{
    Around {
        visible,
        ..Around::root()
    }
}

// Goes on with what a node destroys that is gone or hidden.
fn add_if_live(
    alloc: Global,
    lines: &mut Vec<LogLine>,
    phase: Phase,
    around: Around,
    mark: &Mark,
) -> Result<(), AllocError>
    ensures { OnOk result (lines.new.items ≡ lines.old.items ++ destroyed_of (phase_seen phase) (around_seen around) (mark_seen mark.now)) }
{
    if phase.is_live(around.visible) {
        return add_lines(alloc, lines, phase, false, mark);
    }
    Ok(())
}

// Goes on with what the trees of an old list destroy, in tree order.
#[cycle(old)]
fn add_old_list(
    alloc: Global,
    lines: &mut Vec<LogLine>,
    phase: Phase,
    around: Around,
    nodes: &[Option<Node>],
) -> Result<(), AllocError>
    ensures { OnOk result (lines.new.items ≡ lines.old.items ++ flat_map (destroyed_at (phase_seen phase)) (spots_in (around_seen around) (forest nodes.now))) }
{
    for place in 0..nodes.len() {
        if let Some(node) = &nodes[place] {
            add_old(alloc, lines, phase, around, node)?;
        }
    }
    Ok(())
}

// Goes on with what an old tree destroys, in tree order.
#[cycle(old)]
fn add_old(
    alloc: Global,
    lines: &mut Vec<LogLine>,
    phase: Phase,
    around: Around,
    node: &Node,
) -> Result<(), AllocError>
    ensures { OnOk result (lines.new.items ≡ lines.old.items ++ flat_map (destroyed_at (phase_seen phase)) (spots (around_seen around) node.now)) }
{
    let mark = node.mark();
    add_if_live(alloc, lines, phase, around, mark)?;
    let below = around.around_children(mark);
    add_old_list(alloc, lines, phase, below, node.children())?;
    add_old_list(alloc, lines, phase, around, node.fallback())
}

// Goes on with what the old trees at these places destroy, which are gone.
fn add_gone_at(
    alloc: Global,
    lines: &mut Vec<LogLine>,
    phase: Phase,
    visible: bool,
    old: &[Option<Node>],
    places: &[u32],
) -> Result<(), AllocError>
    ensures { OnOk result (lines.new.items ≡ lines.old.items ++ flat_map (destroyed_in (phase_seen phase)) (map (gone_as visible) (filter_map (node_at (forest old.now)) places.now))) }
{
    let around = old_around(visible);
    for place in places {
        if let Some(node) = node_at(old, Some(*place)) {
            add_old(alloc, lines, phase, around, node)?;
        }
    }
    Ok(())
}

// Goes on with what the old trees of a list destroy that are gone, if that is logged.
pub(crate) fn add_gone(
    alloc: Global,
    found: &mut Changes,
    visible: bool,
    old: &[Option<Node>],
    pairing: &Pairing,
    logs: bool,
) -> Result<(), AllocError>
    ensures { OnOk result ((new : trees.Forest) → IsPairing (forest old.now) new pairing.now → changes_seen found.new ≡ with_effects (logged logs (λ phase. flat_map (destroyed_in phase) (gone_from visible (forest old.now) new))) no_effects (changes_seen found.old)) }
{
    if !logs {
        return Ok(());
    }
    let places = pairing.gone();
    let layout = &mut found.layout.destroyed;
    add_gone_at(alloc, layout, Phase::Layout, visible, old, places)?;
    let passive = &mut found.passive.destroyed;
    add_gone_at(alloc, passive, Phase::Passive, visible, old, places)?;
    Ok(())
}

// Goes on with the layout effects that a node's old children destroy if it hides them, and was a boundary that showed them.
fn add_hidden(alloc: Global, lines: &mut Vec<LogLine>, change: &Step) -> Result<(), AllocError>
    ensures { OnOk result (lines.new.items ≡ lines.old.items ++ destroyed_by_hiding layout (step_seen at_root change.now).was_visible (step_seen at_root change.now).old) }
{
    match change.old {
        Some(old) if old.mark().is_shown() => {
            let around = old_around(change.was_visible);
            add_old_list(alloc, lines, Phase::Layout, around, old.children())
        }
        _ => Ok(()),
    }
}

// Goes on with what a node's old children destroy if it hides them, if that is logged.
pub(crate) fn add_hiding(
    alloc: Global,
    found: &mut Changes,
    change: &Step,
) -> Result<(), AllocError>
    ensures { OnOk result (changes_seen found.new ≡ with_effects (logged change.now.logs (hiding (step_seen at_root change.now))) no_effects (changes_seen found.old)) }
{
    if !change.logs {
        return Ok(());
    }
    if !change.new.mark().is_hidden() {
        return Ok(());
    }
    add_hidden(alloc, &mut found.layout.destroyed, change)?;
    Ok(())
}
