// Where placed hosts go.
ghost use Rattle.std.specs.Prelude.{◌≡◌, ℕ, true, is_some, IfOk, OnOk};
ghost use Rattle.rx_forest.specs.HostOps as forest;
ghost use Rattle.host_laws.specs.Siblings.{HasPlacedParents};
ghost use Rattle.rx_set.specs.Sets.{holds};
ghost use Rattle.rx_host_ops.specs.Tables.{entry_in};

use crate::host::Host;
use crate::known::numbers_of;
use crate::table::Table;
use rx_forest::HostOp;
use rx_set::NumberSet;
use std::alloc::{AllocError, Global};

/// The placements of these hosts: each placed one goes before the next later sibling that is not placed. One pass from the
/// last host to the first keeps, for each parent, the child that was met last and is not placed.
pub(crate) fn placements(
    alloc: Global,
    hosts: &[Host],
    placed: &[u64],
) -> Result<Vec<HostOp>, AllocError>
    ensures { IfOk result (λ ops. ops.items ≡ forest.placements placed.now hosts.now) }
{
    let placed = numbers_of(alloc, hosts, placed)?;
    let mut standing = Table::new(alloc, hosts)?;
    let mut ops = Vec::new(alloc);
    for place in (0..hosts.len()).rev() {
        let next = &hosts[place];
        let (host, parent) = (next.number(), next.parent());
        if placed.get(host).is_some() {
            let before = standing.get(parent);
            ops.push(HostOp::Place {
                host,
                parent,
                before,
            })?;
        } else {
            standing.put(parent, host)?;
        }
    }
    ops.reverse();
    Ok(ops)
}

// Adds the parent of a host, if the host is placed.
fn add_parent(host: &Host, placed: &Table, parents: &mut NumberSet) -> Result<(), AllocError>
    ensures own { OnOk result (is_some (entry_in placed.now host.now.number) ≡ true → holds parents.new host.now.parent ≡ true) }
    ensures others { OnOk result ((n : ℕ) → holds parents.old n ≡ true → holds parents.new n ≡ true) }
{
    if placed.get(host.number()).is_some() {
        parents.add(host.parent())?;
    }
    Ok(())
}

/// The parents of those of these hosts that are placed.
///
/// # Errors
///
/// Only if out of memory.
pub fn placed_parents(
    alloc: Global,
    hosts: &[Host],
    placed: &[u64],
) -> Result<NumberSet, AllocError>
    ensures { IfOk result (λ parents. HasPlacedParents placed.now (holds parents) hosts.now) }
{
    let placed = numbers_of(alloc, hosts, placed)?;
    let mut parents = NumberSet::new(alloc);
    for place in (0..hosts.len()).rev() {
        add_parent(&hosts[place], &placed, &mut parents)?;
    }
    Ok(parents)
}
