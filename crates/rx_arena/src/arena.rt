// The nodes of fibers.
ghost use Rattle.std.specs.Prelude.{◌≡◌, ◌≢◌, ◌+◌, ◌<◌, ◌^◌, ℕ, Some, None, IfSome, OnOk, Option};
ghost use Rattle.std.specs.Borrow.{Lends, sem};
ghost use Rattle.slab.specs.Slab.{get, slab_len, HasRoomFor};
ghost use Rattle.rx_arena.specs.Nodes.{at, IsLive, Keeps, linked_node, with_child, with_sibling, with_up, with_value, with_alternate, alternate_in, Changes, Joins, LeadsBack, Releases, AreMutual};

use crate::id::FiberId;
use slab::Slab;
use std::alloc::{AllocError, Global};
use std::marker::Model;

/// The value of a fiber with its four links, React's `child`, `sibling`, `return` and `alternate`.
#[derive(Drop)]
pub struct Node<F> {
    value: F,
    child: Option<FiberId>,
    sibling: Option<FiberId>,
    up: Option<FiberId>,
    alternate: Option<FiberId>,
}

/// The nodes of fibers under ids that it picks, with any value in them. If one node is the alternate of another, the other
/// is its alternate; no link of the other three kinds is looked into. Contracts see which node each id has.
#[derive(Drop)]
pub struct Arena<F> {
    nodes: Slab<Node<F>>,
}

impl<F> Model for Arena<F> {
    ghost use Rattle.slab.specs.Slab.{Slab as Slots};
    ghost use Rattle.rx_arena.specs.declared.arena.Node.{Node};

    ghost Value = { Slots (Node F) };

    ghost use Rattle.rx_arena.specs.Nodes.{AreMutual};

    ghost view = { λ a. a.nodes };

    ghost invariant = { λ a. AreMutual a.nodes };
}

impl<F> Arena<F> {
    ghost use Rattle.rx_arena.specs.Lending.{lends_value};

    /// No node. Takes no memory.
    pub fn new(alloc: Global) -> Arena<F>
        ensures empty { (id : ℕ) → at result id ≡ None }
        ensures live { slab_len result ≡ 0 }
    {
        Arena {
            nodes: Slab::new(alloc),
        }
    }

    /// Takes memory for that many nodes more, so that as many calls of `alloc_linked` have room. If out of memory, nothing
    /// changes.
    pub fn reserve(&mut self, more: u64) -> Result<(), AllocError>
        ensures ok { OnOk result (HasRoomFor self.new more) }
        ensures kept { Keeps self.old self.new }
        ensures live { slab_len self.new ≡ slab_len self.old }
        ensures limit { OnOk result (slab_len self.new + more < 2 ^ 64) }
    {
        self.nodes.reserve(more as usize)?;
        let _capacity = self.nodes.capacity();
        Ok(())
    }

    /// How many nodes there are.
    pub fn live(&self) -> u64
        ensures { result ≡ slab_len self.now }
    {
        self.nodes.len() as u64
    }

    /// A new node with these links and no child, for which room was reserved. It and the old one, if any, are alternates: so
    /// far no alternate link leads there.
    #[inline(always)]
    pub fn alloc_linked(
        &mut self,
        value: F,
        sibling: Option<FiberId>,
        up: Option<FiberId>,
        old: Option<FiberId>,
    ) -> FiberId
        requires room { HasRoomFor self.old 1 }
        requires old_live { IfSome old (IsLive self.old) }
        requires old_alone { IfSome old (λ j. (id : ℕ) → alternate_in (at self.old id) ≢ Some j) }
        ensures { Joins self.old self.new result (linked_node value sibling up old) }
    {
        let back = *(&old);
        let key = self.nodes.insert_reserved(Node {
            value,
            child: None,
            sibling,
            up,
            alternate: old,
        });
        let id = FiberId::of(key);
        lead_back(&mut self.nodes, back, Some(id));
        id
    }

    /// A node, to read its value and its links by one look-up. Its alternate is a node, whose own alternate is this one.
    pub fn node(&self, id: FiberId) -> &Node<F>
        requires { IsLive self.now id }
        ensures value { at self.now id ≡ Some result.now }
        ensures live { IfSome result.now.alternate (IsLive self.now) }
        ensures mutual { AreMutual self.now }
    {
        node_at(&self.nodes, id)
    }

    /// The value of a node.
    pub fn get(&self, id: FiberId) -> &F
        requires { IsLive self.now id }
        ensures { IfSome (at self.now id) (λ n. result.now ≡ n.value) }
    {
        &node_at(&self.nodes, id).value
    }

    /// The value of a node, to be written; its links and all other nodes stay.
    pub fn get_mut(&mut self, id: FiberId) -> &mut F
        requires { IsLive self.old id }
        ensures* lends { sem 𝓛 (lends_value F.row self.entry id result) }
        ensures value { IfSome (at self.old id) (λ n. result.now ≡ n.value) }
    {
        match self.nodes.get_mut(id.key()) {
            Some(node) => node.value_mut(),
            None => unreachable!(),
        }
    }

    /// The child link of a node.
    pub fn child_of(&self, id: FiberId) -> Option<FiberId>
        requires { IsLive self.now id }
        ensures { IfSome (at self.now id) (λ n. result ≡ n.child) }
    {
        node_at(&self.nodes, id).child
    }

    /// The sibling link of a node.
    pub fn sibling_of(&self, id: FiberId) -> Option<FiberId>
        requires { IsLive self.now id }
        ensures { IfSome (at self.now id) (λ n. result ≡ n.sibling) }
    {
        node_at(&self.nodes, id).sibling
    }

    /// The return link of a node.
    pub fn return_of(&self, id: FiberId) -> Option<FiberId>
        requires { IsLive self.now id }
        ensures { IfSome (at self.now id) (λ n. result ≡ n.up) }
    {
        node_at(&self.nodes, id).up
    }

    /// The alternate of a node. It is a node, and its own alternate is this one.
    pub fn alternate_of(&self, id: FiberId) -> Option<FiberId>
        requires { IsLive self.now id }
        ensures value { IfSome (at self.now id) (λ n. result ≡ n.alternate) }
        ensures live { IfSome result (IsLive self.now) }
        ensures mutual { AreMutual self.now }
    {
        node_at(&self.nodes, id).alternate
    }

    /// Sets the child link of a node alone.
    pub fn link_child(&mut self, id: FiberId, to: Option<FiberId>)
        requires { IsLive self.old id }
        ensures { Changes (with_child to) self.old self.new id }
    {
        set_child(&mut self.nodes, id, to);
    }

    /// Sets the sibling link of a node alone.
    pub fn link_sibling(&mut self, id: FiberId, to: Option<FiberId>)
        requires { IsLive self.old id }
        ensures { Changes (with_sibling to) self.old self.new id }
    {
        set_sibling(&mut self.nodes, id, to);
    }

    /// Sets the return link of a node alone.
    pub fn link_return(&mut self, id: FiberId, to: Option<FiberId>)
        requires { IsLive self.old id }
        ensures { Changes (with_up to) self.old self.new id }
    {
        set_up(&mut self.nodes, id, to);
    }

    /// Takes a node out. What was its alternate has none then; other links that lead there are left to the caller.
    pub fn release(&mut self, id: FiberId)
    where
        F: Drop,
        requires { IsLive self.old id }
        ensures { Releases self.old self.new id }
    {
        let Node {
            value: _value,
            child: _,
            sibling: _,
            up: _,
            alternate,
        } = self.nodes.remove(id.key());
        lead_back(&mut self.nodes, alternate, None);
    }
}

impl<F> Node<F> {
    ghost use Rattle.rx_arena.specs.contracts.arena.Node.{the_row};

    /// The child link.
    pub fn child(&self) -> Option<FiberId>
        ensures { result ≡ self.now.child }
    {
        self.child
    }

    /// The sibling link.
    pub fn sibling(&self) -> Option<FiberId>
        ensures { result ≡ self.now.sibling }
    {
        self.sibling
    }

    /// The return link.
    pub fn up(&self) -> Option<FiberId>
        ensures { result ≡ self.now.up }
    {
        self.up
    }

    /// The alternate.
    pub fn alternate(&self) -> Option<FiberId>
        ensures { result ≡ self.now.alternate }
    {
        self.alternate
    }

    fn value_mut(&mut self) -> &mut F
        ensures* lends { sem 𝓛 (Lends (the_row F.row) F.row self.entry result (λ v. with_value v self.old)) }
        ensures value { result.now ≡ self.old.value }
    {
        &mut self.value
    }
}

fn node_at<F>(nodes: &Slab<Node<F>>, id: FiberId) -> &Node<F>
    requires { IsLive nodes.now id }
    ensures { at nodes.now id ≡ Some result.now }
{
    match nodes.get(id.key()) {
        Some(node) => node,
        None => unreachable!(),
    }
}

fn set_child<F>(nodes: &mut Slab<Node<F>>, id: FiberId, to: Option<FiberId>)
    requires { IsLive nodes.old id }
    ensures { Changes (with_child to) nodes.old nodes.new id }
{
    if let Some(node) = nodes.get_mut(id.key()) {
        node.child = to;
    }
}

fn set_sibling<F>(nodes: &mut Slab<Node<F>>, id: FiberId, to: Option<FiberId>)
    requires { IsLive nodes.old id }
    ensures { Changes (with_sibling to) nodes.old nodes.new id }
{
    if let Some(node) = nodes.get_mut(id.key()) {
        node.sibling = to;
    }
}

fn set_up<F>(nodes: &mut Slab<Node<F>>, id: FiberId, to: Option<FiberId>)
    requires { IsLive nodes.old id }
    ensures { Changes (with_up to) nodes.old nodes.new id }
{
    if let Some(node) = nodes.get_mut(id.key()) {
        node.up = to;
    }
}

fn set_alternate<F>(nodes: &mut Slab<Node<F>>, id: FiberId, to: Option<FiberId>)
    ensures { Changes (with_alternate to) nodes.old nodes.new id }
{
    if let Some(node) = nodes.get_mut(id.key()) {
        node.alternate = to;
    }
}

// Sets the alternate link of the node that a link leads to.
fn lead_back<F>(nodes: &mut Slab<Node<F>>, link: Option<FiberId>, to: Option<FiberId>)
    ensures { LeadsBack nodes.old nodes.new link to }
{
    if let Some(id) = link {
        set_alternate(nodes, id, to);
    }
}
