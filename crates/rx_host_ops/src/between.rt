// From one list of hosts to another.
ghost use Rattle.std.specs.Prelude.{◌≡◌, ◌++◌, [], IfOk, OnOk, true, false};
ghost use Rattle.std.specs.List.{flat_map};
ghost use Rattle.std.specs.Option.{option_map_or};
ghost use Rattle.rx_forest.specs.HostOps as forest;
ghost use Rattle.rx_forest.specs.Hosts.{host_numbered};
ghost use Rattle.host_laws.specs.Related.{AreDistinct};
ghost use Rattle.rx_host_ops.specs.Among.{ops_among};
ghost use Rattle.rx_host_ops.specs.Beside.{beside, change_of, mark_of, numbers_in};
ghost use Rattle.rx_host_ops.specs.Each.{contents_of, creation_of, hiding_of, removal_of};
ghost use Rattle.rx_host_ops.specs.Tables.{KnowsAll};

use crate::content::{add_changes, add_first, creation_of};
use crate::host::Host;
use crate::known::Known;
use crate::placing::placements;
use rx_forest::HostOp;
use std::alloc::{AllocError, Global};

impl<'a> Known<'a> {
    // Removes an old host, if it is gone and its parent is not.
    fn add_removal(&self, new: &Known, host: &Host, ops: &mut Vec<HostOp>) -> Result<(), AllocError>
        requires old { KnowsAll self.now.hosts.now self.now.places }
        requires new { KnowsAll new.now.hosts.now new.now.places }
        ensures { OnOk result (ops.new.items ≡ ops.old.items ++ removal_of self.now.hosts.now new.now.hosts.now host.now) }
    {
        let goes_with_parent = self.has(host.parent()) && !new.has(host.parent());
        if !new.has(host.number()) && !goes_with_parent {
            ops.push(HostOp::Remove(host.number()))?;
        }
        Ok(())
    }

    // Makes a new host, if it is none of the old ones.
    fn add_creation(
        &self,
        alloc: Global,
        host: &Host,
        ops: &mut Vec<HostOp>,
    ) -> Result<(), AllocError>
        requires { KnowsAll self.now.hosts.now self.now.places }
        ensures { OnOk result (ops.new.items ≡ ops.old.items ++ creation_of self.now.hosts.now host.now) }
    {
        if !self.has(host.number()) {
            ops.push(creation_of(alloc, host.number(), host.element())?)?;
        }
        Ok(())
    }

    // Changes what a new host is: beside the old one, or beside what it is made with.
    fn add_contents(
        &self,
        alloc: Global,
        host: &Host,
        ops: &mut Vec<HostOp>,
    ) -> Result<(), AllocError>
        requires { KnowsAll self.now.hosts.now self.now.places }
        ensures { OnOk result (ops.new.items ≡ ops.old.items ++ contents_of self.now.hosts.now host.now) }
    {
        match self.find(host.number()) {
            Some(old) => add_changes(alloc, host.number(), old.element(), host.element(), ops),
            None => add_first(alloc, host.number(), host.element(), ops),
        }
    }

    // True for a number whose old host is hidden.
    fn was_hidden(&self, number: u64) -> bool
        requires { KnowsAll self.now.hosts.now self.now.places }
        ensures { result ≡ option_map_or (λ g. g.hidden) (host_numbered self.now.hosts.now number) false }
    {
        match self.find(number) {
            Some(old) => old.is_hidden(),
            None => false,
        }
    }

    // Changes the mark of a new host, if the old one has another; a new one begins without.
    fn add_hiding(&self, host: &Host, ops: &mut Vec<HostOp>) -> Result<(), AllocError>
        requires { KnowsAll self.now.hosts.now self.now.places }
        ensures { OnOk result (ops.new.items ≡ ops.old.items ++ hiding_of self.now.hosts.now host.now) }
    {
        match (self.was_hidden(host.number()), host.is_hidden()) {
            (false, true) => ops.push(HostOp::Hide(host.number()))?,
            (true, false) => ops.push(HostOp::Show(host.number()))?,
            _ => {}
        }
        Ok(())
    }

    fn add_removals(
        &self,
        new: &Known,
        hosts: &[Host],
        ops: &mut Vec<HostOp>,
    ) -> Result<(), AllocError>
        requires old { KnowsAll self.now.hosts.now self.now.places }
        requires new { KnowsAll new.now.hosts.now new.now.places }
        ensures { OnOk result (ops.new.items ≡ ops.old.items ++ flat_map (removal_of self.now.hosts.now new.now.hosts.now) hosts.now) }
    {
        for host in hosts {
            self.add_removal(new, host, ops)?;
        }
        Ok(())
    }

    fn add_creations(
        &self,
        alloc: Global,
        hosts: &[Host],
        ops: &mut Vec<HostOp>,
    ) -> Result<(), AllocError>
        requires { KnowsAll self.now.hosts.now self.now.places }
        ensures { OnOk result (ops.new.items ≡ ops.old.items ++ flat_map (creation_of self.now.hosts.now) hosts.now) }
    {
        for host in hosts {
            self.add_creation(alloc, host, ops)?;
        }
        Ok(())
    }

    fn add_all_contents(
        &self,
        alloc: Global,
        hosts: &[Host],
        ops: &mut Vec<HostOp>,
    ) -> Result<(), AllocError>
        requires { KnowsAll self.now.hosts.now self.now.places }
        ensures { OnOk result (ops.new.items ≡ ops.old.items ++ flat_map (contents_of self.now.hosts.now) hosts.now) }
    {
        for host in hosts {
            self.add_contents(alloc, host, ops)?;
        }
        Ok(())
    }

    fn add_hidings(&self, hosts: &[Host], ops: &mut Vec<HostOp>) -> Result<(), AllocError>
        requires { KnowsAll self.now.hosts.now self.now.places }
        ensures { OnOk result (ops.new.items ≡ ops.old.items ++ flat_map (hiding_of self.now.hosts.now) hosts.now) }
    {
        for host in hosts {
            self.add_hiding(host, ops)?;
        }
        Ok(())
    }
}

/// Whether the hosts of both lists have the same numbers, place by place.
pub fn have_same_numbers(old: &[Host], new: &[Host]) -> bool
    ensures { result ≡ true → numbers_in old.now ≡ numbers_in new.now }
{
    if old.len() != new.len() {
        return false;
    }
    'comparing: for place in 0..new.len() {
        let before = &old[place];
        let after = &new[place];
        if before.number() != after.number() {
            return false;
        }
    }
    true
}

// Changes what a host is that stands where it stood.
fn add_change(
    alloc: Global,
    old: &Host,
    new: &Host,
    ops: &mut Vec<HostOp>,
) -> Result<(), AllocError>
    ensures { OnOk result (ops.new.items ≡ ops.old.items ++ change_of old.now new.now) }
{
    add_changes(alloc, new.number(), old.element(), new.element(), ops)
}

// Changes the mark of a host that stands where it stood, if it has another.
fn add_mark(old: &Host, new: &Host, ops: &mut Vec<HostOp>) -> Result<(), AllocError>
    ensures { OnOk result (ops.new.items ≡ ops.old.items ++ mark_of old.now new.now) }
{
    match (old.is_hidden(), new.is_hidden()) {
        (false, true) => ops.push(HostOp::Hide(new.number()))?,
        (true, false) => ops.push(HostOp::Show(new.number()))?,
        _ => {}
    }
    Ok(())
}

// The changes of what each host is, of hosts that stand where they stood.
fn add_all_changes(
    alloc: Global,
    old: &[Host],
    new: &[Host],
    ops: &mut Vec<HostOp>,
) -> Result<(), AllocError>
    requires { numbers_in old.now ≡ numbers_in new.now }
    ensures { OnOk result (ops.new.items ≡ ops.old.items ++ beside change_of old.now new.now) }
{
    for place in 0..new.len() {
        add_change(alloc, &old[place], &new[place], ops)?;
    }
    Ok(())
}

// The changes of their marks.
fn add_all_marks(old: &[Host], new: &[Host], ops: &mut Vec<HostOp>) -> Result<(), AllocError>
    requires { numbers_in old.now ≡ numbers_in new.now }
    ensures { OnOk result (ops.new.items ≡ ops.old.items ++ beside mark_of old.now new.now) }
{
    for place in 0..new.len() {
        add_mark(&old[place], &new[place], ops)?;
    }
    Ok(())
}

/// The operations of a commit that places no host, if each host stands where it stood and has a number of its own: changes of
/// attributes and texts, and then of marks. It takes no table.
///
/// # Errors
///
/// Only if out of memory.
pub fn ops_in_place(alloc: Global, old: &[Host], new: &[Host]) -> Result<Vec<HostOp>, AllocError>
    requires { numbers_in old.now ≡ numbers_in new.now }
    ensures { IfOk result (λ ops. AreDistinct old.now → ops.items ≡ forest.ops_between old.now new.now []) }
{
    let mut ops = Vec::new(alloc);
    add_all_changes(alloc, old, new, &mut ops)?;
    add_all_marks(old, new, &mut ops)?;
    Ok(ops)
}

/// The operations of a commit (react.dev, Render and Commit), from some hosts of an old tree to some of a new one, if hosts of
/// these numbers are placed among all of the new one: the removals, each with all that is below it; what is made; the placements;
/// the changes of attributes and texts; and the changes of marks. Hosts that stay as they are may be left out of the first two,
/// not of all, since a placed host goes before its next sibling, which may be such a one.
///
/// # Errors
///
/// Only if out of memory.
pub fn ops_among(
    alloc: Global,
    old: &[Host],
    new: &[Host],
    all: &[Host],
    placed: &[u64],
) -> Result<Vec<HostOp>, AllocError>
    ensures { IfOk result (λ ops. ops.items ≡ ops_among old.now new.now all.now placed.now) }
{
    let before = Known::new(alloc, old)?;
    let after = Known::new(alloc, new)?;
    let mut placing = placements(alloc, all, placed)?;
    let mut ops = Vec::new(alloc);
    before.add_removals(&after, old, &mut ops)?;
    before.add_creations(alloc, new, &mut ops)?;
    ops.append(&mut placing)?;
    before.add_all_contents(alloc, new, &mut ops)?;
    before.add_hidings(new, &mut ops)?;
    Ok(ops)
}

/// The operations of a commit, from the hosts of an old tree to those of a new one, if hosts of these numbers are placed.
///
/// # Errors
///
/// Only if out of memory.
pub fn ops_between(
    alloc: Global,
    old: &[Host],
    new: &[Host],
    placed: &[u64],
) -> Result<Vec<HostOp>, AllocError>
    ensures { IfOk result (λ ops. ops.items ≡ forest.ops_between old.now new.now placed.now) }
{
    ops_among(alloc, old, new, new, placed)
}
