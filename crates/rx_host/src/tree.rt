// A tree of hosts.
ghost use Rattle.std.specs.Prelude.{◌≡◌, ℕ, ◌+◌, ◌<◌, ◌≤◌, List, ◌∷◌, ◌++◌, [], Some, None, true, false, is_some, nat_eq, if◌then◌else◌, length, option_map, vec_len, IfSome, OnOk};
ghost use Rattle.std.specs.Option.{option_copied};
ghost use Rattle.rx_forest.specs.declared.op.HostOp.TheVariants as op;
ghost use Rattle.rx_forest.specs.Forests.{Becomes, CanBeMade, is_among, placed, without};
ghost use Rattle.rx_host.specs.Kept.{first_of, forest_kept, held_as, making, marking, no_hosts};
ghost use Rattle.rx_host.specs.Steps.{Lifts};

use crate::attrs::AttrList;
use crate::entry::{HostKind, HostView};
use crate::table::HostTable;
use rx_base::{Name, Str};
use rx_elem::AttrValue;
use rx_forest::HostOp;
use std::alloc::{AllocError, Global};
use std::marker::Model;

/// The tree of hosts: what is shown. Hosts are known by their numbers, from 1; 0 is the container, which has children and
/// is no host. Contracts see it as a forest, and as the room that it has.
///
/// A host and its neighbours are found at once, whatever their number; an attribute is found among those of its host. No
/// operation takes memory. Some need room for one host or attribute more, and each uses at most that; `reserve` makes room.
#[derive(Drop)]
pub struct HostTree {
    table: HostTable,
    cells: Vec<Box<AttrList>>,
    alloc: Global,
}

impl Model for HostTree {
    ghost use Rattle.std.specs.Prelude.{vec_len};
    ghost use Rattle.rx_host.specs.Kept.{Kept, IsSound};

    ghost Value = { Kept };

    ghost use Rattle.rx_host.specs.Linking.{kept_in};

    ghost view = { λ t. kept_in t.table (vec_len t.cells) };

    ghost invariant = { λ t. IsSound (kept_in t.table (vec_len t.cells)) };
}

impl HostTree {
    /// No host.
    pub fn new(alloc: Global) -> HostTree
        ensures { forest_kept result ≡ no_hosts }
    {
        HostTree {
            table: HostTable::new(alloc),
            cells: Vec::new(alloc),
            alloc,
        }
    }

    /// Makes room for so many operations.
    pub fn reserve(&mut self, operations: u64) -> Result<(), AllocError>
        ensures room { OnOk result (operations ≤ self.new.spare) }
        ensures same { forest_kept self.new ≡ forest_kept self.old }
        ensures kept { self.old.spare ≤ self.new.spare }
    {
        self.table.reserve(operations)?;
        fill(self.alloc, &mut self.cells, operations)
    }

    /// The first child of a host, or of the container.
    pub fn first_child(&self, host: u64) -> Option<u64>
        ensures { result ≡ first_of ((forest_kept self.now).children host) }
    {
        self.table.first_of(host)
    }

    /// The sibling behind a host.
    pub fn next_sibling(&self, host: u64) -> Option<u64>
        ensures { (p : ℕ) (before after : List ℕ) → (forest_kept self.now).children p ≡ before ++ host ∷ after → result ≡ first_of after }
    {
        self.table.after(host)
    }

    /// What is shown of a host.
    pub fn view(&self, host: u64) -> Option<&HostView>
        ensures { option_map held_as (option_copied result) ≡ (forest_kept self.now).held host }
    {
        match self.table.get(host) {
            Some(entry) => Some(&entry.view),
            None => None,
        }
    }

    /// Makes a host, which stands nowhere yet and isn't marked.
    pub fn create(&mut self, host: u64, kind: HostKind)
        requires room { 1 ≤ self.old.spare }
        requires can_be_made { CanBeMade (forest_kept self.old) (making host kind) }
        ensures made { Becomes (forest_kept self.old) (making host kind) (forest_kept self.new) }
        ensures spare { self.old.spare ≤ self.new.spare + 1 }
    {
        self.table.add(host, HostView::new(kind));
    }

    /// Places a host under a parent, before one of its other children.
    pub fn insert_before(&mut self, parent: u64, host: u64, before: u64)
        requires room { 1 ≤ self.old.spare }
        requires can_be_made { CanBeMade (forest_kept self.old) (op.Place host parent (Some before)) }
        ensures made { Becomes (forest_kept self.old) (op.Place host parent (Some before)) (forest_kept self.new) }
        ensures spare { self.old.spare ≤ self.new.spare }
    {
        self.place(host, parent, Some(before));
    }

    /// Places a host under a parent, behind its other children.
    pub fn append(&mut self, parent: u64, host: u64)
        requires room { 1 ≤ self.old.spare }
        requires can_be_made { CanBeMade (forest_kept self.old) (op.Place host parent None) }
        ensures made { Becomes (forest_kept self.old) (op.Place host parent None) (forest_kept self.new) }
        ensures spare { self.old.spare ≤ self.new.spare }
    {
        self.place(host, parent, None);
    }

    /// Places a host under a parent, before one of its other children or behind them.
    pub fn place(&mut self, host: u64, parent: u64, before: Option<u64>)
        requires room { 1 ≤ self.old.spare }
        requires can_be_made { CanBeMade (forest_kept self.old) (op.Place host parent before) }
        ensures made { Becomes (forest_kept self.old) (op.Place host parent before) (forest_kept self.new) }
        ensures spare { self.old.spare ≤ self.new.spare }
    {
        self.table.stand(host, parent, before);
    }

    // The first child of a host. It is held, and is a child of no other host.
    fn child_of(&self, host: u64) -> Option<u64>
        ensures first { result ≡ first_of ((forest_kept self.now).children host) }
        ensures held { IfSome result (λ n. is_some ((forest_kept self.now).held n) ≡ true) }
        ensures alone { IfSome result (λ n. (q : ℕ) → nat_eq q host ≡ false → is_among ((forest_kept self.now).children q) n ≡ false) }
    {
        self.table.first_of(host)
    }

    // Puts a host under a parent, behind its other children.
    fn append_to(&mut self, parent: u64, host: u64)
        requires held { is_some ((forest_kept self.old).held host) ≡ true }
        requires parent { is_some ((forest_kept self.old).held parent) ≡ true }
        ensures stands { forest_kept self.new ≡ placed (forest_kept self.old) host parent None }
        ensures count { length self.new.entries ≡ length self.old.entries }
        ensures spare { self.old.spare ≤ self.new.spare }
    {
        self.table.stand(host, parent, None);
    }

    // Takes a host out of where it stands.
    fn detach(&mut self, host: u64)
        ensures held { (forest_kept self.new).held ≡ (forest_kept self.old).held }
        ensures children { (forest_kept self.new).children ≡ (λ q. without host ((forest_kept self.old).children q)) }
        ensures count { length self.new.entries ≡ length self.old.entries }
        ensures spare { self.old.spare ≤ self.new.spare }
    {
        self.table.detach(host);
    }

    // Drops a host that stands nowhere and has no children.
    fn forget(&mut self, host: u64)
        requires held { is_some ((forest_kept self.old).held host) ≡ true }
        requires nowhere { (q : ℕ) → is_among ((forest_kept self.old).children q) host ≡ false }
        requires childless { (forest_kept self.old).children host ≡ [] }
        ensures held { (forest_kept self.new).held ≡ (λ m. if nat_eq m host then None else (forest_kept self.old).held m) }
        ensures children { (forest_kept self.new).children ≡ (forest_kept self.old).children }
        ensures count { length self.new.entries < length self.old.entries }
        ensures spare { self.old.spare ≤ self.new.spare }
    {
        self.table.forget(host);
    }

    // Gives the children of a host to another one, behind its own.
    fn lift_children(&mut self, child: u64, host: u64)
        requires held { is_some ((forest_kept self.old).held host) ≡ true }
        requires other { nat_eq child host ≡ false }
        requires nowhere { (q : ℕ) → is_among ((forest_kept self.old).children q) host ≡ false }
        ensures lifts { Lifts (forest_kept self.old) child host (forest_kept self.new) }
        ensures count { length self.new.entries ≡ length self.old.entries }
        ensures spare { self.old.spare ≤ self.new.spare }
    {
        'children: while let Some(grandchild) = self.child_of(child) {
            self.append_to(host, grandchild);
        }
    }

    /// Removes a host with all below it.
    pub fn remove(&mut self, host: u64)
        requires can_be_made { CanBeMade (forest_kept self.old) (op.Remove host) }
        ensures made { Becomes (forest_kept self.old) (op.Remove host) (forest_kept self.new) }
        ensures spare { self.old.spare ≤ self.new.spare }
    {
        self.detach(host);
        'children: while let Some(child) = self.child_of(host) {
            self.lift_children(child, host);
            self.detach(child);
            self.forget(child);
        }
        self.forget(host);
    }

    /// Marks a host as hidden, or takes the mark away.
    pub fn set_hidden(&mut self, host: u64, hidden: bool)
        requires can_be_made { CanBeMade (forest_kept self.old) (marking host hidden) }
        ensures made { Becomes (forest_kept self.old) (marking host hidden) (forest_kept self.new) }
        ensures spare { self.old.spare ≤ self.new.spare }
    {
        self.table.set_hidden(host, hidden);
    }

    /// Changes a text.
    pub fn set_text(&mut self, host: u64, text: Str)
        requires can_be_made { CanBeMade (forest_kept self.old) (op.SetText host text) }
        ensures made { Becomes (forest_kept self.old) (op.SetText host text) (forest_kept self.new) }
        ensures spare { self.old.spare ≤ self.new.spare }
    {
        self.table.set_letters(host, text);
    }

    /// Gives an attribute of an element its value.
    pub fn set_attr(&mut self, host: u64, name: Name, value: AttrValue)
        requires room { 1 ≤ self.old.spare }
        requires can_be_made { CanBeMade (forest_kept self.old) (op.SetAttr host name value) }
        ensures made { Becomes (forest_kept self.old) (op.SetAttr host name value) (forest_kept self.new) }
        ensures spare { self.old.spare ≤ self.new.spare + 1 }
    {
        self.table.set_attr(host, name, value, &mut self.cells);
    }

    /// Takes an attribute of an element away.
    pub fn unset_attr(&mut self, host: u64, name: &Name)
        requires can_be_made { CanBeMade (forest_kept self.old) (op.UnsetAttr host name.now) }
        ensures made { Becomes (forest_kept self.old) (op.UnsetAttr host name.now) (forest_kept self.new) }
        ensures spare { self.old.spare ≤ self.new.spare }
    {
        self.table.unset_attr(host, name);
    }

    /// Does what an operation says.
    pub fn apply(&mut self, operation: HostOp)
        requires room { 1 ≤ self.old.spare }
        requires can_be_made { CanBeMade (forest_kept self.old) operation }
        ensures made { Becomes (forest_kept self.old) operation (forest_kept self.new) }
        ensures spare { self.old.spare ≤ self.new.spare + 1 }
    {
        match operation {
            HostOp::Remove(host) => self.remove(host),
            HostOp::Create(host, name) => self.create(host, HostKind::Element(name)),
            HostOp::CreateText(host, text) => self.create(host, HostKind::Text(text)),
            HostOp::Place {
                host,
                parent,
                before,
            } => self.place(host, parent, before),
            HostOp::UnsetAttr(host, name) => self.unset_attr(host, &name),
            HostOp::SetAttr(host, name, value) => self.set_attr(host, name, value),
            HostOp::SetText(host, text) => self.set_text(host, text),
            HostOp::Hide(host) => self.set_hidden(host, true),
            HostOp::Show(host) => self.set_hidden(host, false),
        }
    }
}

// Makes cells until there are so many.
fn fill(alloc: Global, cells: &mut Vec<Box<AttrList>>, wanted: u64) -> Result<(), AllocError>
    ensures room { OnOk result (wanted ≤ vec_len cells.new) }
    ensures kept { vec_len cells.old ≤ vec_len cells.new }
{
    'cells: while (cells.len() as u64) < wanted {
        cells.push(Box::new(alloc, AttrList::new())?)?;
    }
    Ok(())
}
