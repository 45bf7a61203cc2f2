// The current tree and the tree in progress.
ghost use Rattle.std.specs.Prelude.{◌≡◌, ◌+◌, ◌⊎◌, ℕ, None, Some, Option, IfSome, IfOk, OnErr, All};
ghost use Rattle.rx_lists.specs.Shapes.{none, first, ids, Holds, IsTop, size};
ghost use Rattle.rx_links.specs.Drafts.{Draft, taken, made, entry, Fits, HasMadeKids, IsTopUnused, kids_of, clone_of, old_of, Makes, made_size, IsUnused, IsOpen, IsBare, valued, grown, inserted, taking, grafted, old_kids};
ghost use Rattle.rx_links.specs.Readers.{IsIn, IsLinked, value_of, rest_of, parent_of, made_value_of, made_kids_of, made_rest_of, made_parent_of, old_list};
ghost use Rattle.rx_links.specs.Marks.{marked_above, marked_below, changed_current};
ghost use Rattle.rx_links.specs.Places.{Around, placed, IsAt};

use rx_arena::{Arena, FiberId};
use rx_lists::{
    Give, Mark, adopt, give_one, ids_into, make_behind, make_child, make_root, mark_list, mark_one,
    mark_up, old_children, own_children, release_list,
};
use std::alloc::{AllocError, Global};
use std::marker::Model;

/// Two trees of fibers, as React double-buffers them: the current one, and one in progress that shares what it took over.
/// The value of a fiber is whatever a type holds: nothing here looks into it. Contracts see two trees of plain data, in which
/// a made fiber stands with the current one that it was made for, and what was taken over is the current list itself.
///
/// Only `swap` and the marks touch the current tree. Only `start`, `child`, `child_behind` and `ids` take memory; if it
/// runs out, both trees are as they were.
#[derive(Drop)]
pub struct FiberTree<F> {
    nodes: Arena<F>,
    current: Option<FiberId>,
    draft: Option<FiberId>,
}

impl<F> Model for FiberTree<F> {
    ghost use Rattle.rx_links.specs.Drafts.{Trees};
    ghost use Rattle.rx_links.specs.View.{trees_code, trees_of, IsSound};

    ghost Value = { Trees F };

    ghost coded = { trees_code F.code };

    ghost view = { λ t. trees_of (record { nodes = t.nodes; current = t.current; draft = t.draft }) };

    ghost invariant = { λ t. IsSound (record { nodes = t.nodes; current = t.current; draft = t.draft }) };
}

impl<F> FiberTree<F> {
    /// No current tree and none in progress. Takes no memory.
    pub fn new(alloc: Global) -> FiberTree<F>
        ensures { result ≡ record { current = none; draft = taken none } }
    {
        FiberTree {
            nodes: Arena::new(alloc),
            current: None,
            draft: None,
        }
    }

    /// How many fibers there are: those of the current tree, and those made for the tree in progress.
    pub fn live(&self) -> u64
        ensures { result ≡ size self.now.current + made_size self.now.draft }
    {
        self.nodes.live()
    }

    /// Begins a tree in progress with its root, the alternate of the current root, if there is one. There is no tree in progress
    /// before.
    pub fn start(&mut self, value: F) -> Result<FiberId, AllocError>
    where
        F: Drop,
        requires { self.old.draft ≡ taken none }
        ensures ok { IfOk result (λ id. self.new ≡ record self.old { draft = made id value (first self.old.current) (taken none) (taken none) }) }
        ensures fresh { IfOk result (λ id. Holds self.old.current id → ⊥) }
        ensures err { OnErr result (self.new ≡ self.old) }
    {
        self.nodes.reserve(1)?;
        let id = make_root(&mut self.nodes, self.current, value);
        self.draft = Some(id);
        Ok(id)
    }

    /// Makes a first child of a made fiber: the alternate of one of the children that the fiber's own alternate has, or a new
    /// one. So the children of a fiber are made from the last to the first, in any order among the old ones.
    #[inline(always)]
    pub fn child(
        &mut self,
        parent: FiberId,
        old: Option<FiberId>,
        value: F,
    ) -> Result<FiberId, AllocError>
    where
        F: Drop,
        requires open { IsOpen self.old.draft parent }
        requires old_child { IfSome old (IsTop (old_kids self.old parent)) }
        requires unused { IfSome old (IsUnused self.old.draft) }
        ensures ok { IfOk result (λ id. self.new ≡ record self.old { draft = grown parent id value old self.old.draft }) }
        ensures fresh { IfOk result (λ id. Holds self.old.current id ⊎ Makes self.old.draft id → ⊥) }
        ensures err { OnErr result (self.new ≡ self.old) }
    {
        self.nodes.reserve(1)?;
        let id = make_child(&mut self.nodes, parent, old, value);
        Ok(id)
    }

    /// Makes the sibling right behind a made fiber: the alternate of a fiber of the old list beside which that one's list was
    /// made, or a new one. So a boundary that keeps its primary content gets the fiber of its fallback.
    #[inline(always)]
    pub fn child_behind(
        &mut self,
        sibling: FiberId,
        old: Option<FiberId>,
        value: F,
    ) -> Result<FiberId, AllocError>
    where
        F: Drop,
        requires made { Makes self.old.draft sibling }
        requires old_sibling { IfSome old (IsTop (old_list self.old sibling)) }
        requires unused { IfSome old (IsUnused self.old.draft) }
        ensures ok { IfOk result (λ id. self.new ≡ record self.old { draft = inserted sibling id value old self.old.draft }) }
        ensures fresh { IfOk result (λ id. Holds self.old.current id ⊎ Makes self.old.draft id → ⊥) }
        ensures err { OnErr result (self.new ≡ self.old) }
    {
        self.nodes.reserve(1)?;
        let id = make_behind(&mut self.nodes, sibling, old, value);
        Ok(id)
    }

    /// Takes over the children that the alternate of a made fiber has, as they stand, if it has none of its own: React's
    /// bailout. They stay fibers of the current tree and are in both.
    #[inline(always)]
    pub fn take_over(&mut self, id: FiberId)
        requires { IsBare self.old.draft id }
        ensures { self.new ≡ record self.old { draft = taking id (old_kids self.old id) self.old.draft } }
    {
        let kids = old_children(&self.nodes, id);
        self.nodes.link_child(id, kids);
    }

    /// Releases what was made below a made fiber, and leaves it with no children: so rendering unwinds to a boundary.
    pub fn drop_children(&mut self, id: FiberId)
    where
        F: Drop,
        requires { Makes self.old.draft id }
        ensures { self.new ≡ record self.old { draft = taking id none self.old.draft } }
    {
        let kids = own_children(&self.nodes, id);
        release_list(&mut self.nodes, kids);
        self.nodes.link_child(id, None);
    }

    /// Releases all that was made for the tree in progress, if there is one.
    pub fn discard(&mut self)
    where
        F: Drop,
        ensures { self.new ≡ record self.old { draft = taken none } }
    {
        release_list(&mut self.nodes, self.draft);
        self.draft = None;
    }

    /// The tree in progress becomes the current one, and what only the old one had is released. Takes time for the fibers made,
    /// the tops of the lists taken over and the fibers released, and none for what is below a list taken over.
    pub fn swap(&mut self)
    where
        F: Drop,
        ensures { self.new ≡ record { current = grafted self.old.draft; draft = taken none } }
    {
        adopt(&mut self.nodes, self.draft);
        release_list(&mut self.nodes, self.current);
        self.current = self.draft;
        self.draft = None;
    }

    /// Gives something to the value of a made fiber, in place.
    #[inline(always)]
    pub fn give<L>(&mut self, id: FiberId, what: L)
    where
        F: Give<L>,
        requires { Makes self.old.draft id }
        ensures { self.new ≡ record self.old { draft = valued id (F.given what) self.old.draft } }
    {
        give_one(&mut self.nodes, id, what);
    }

    /// Marks a current fiber and those above it, each with its alternate, up to the root: as an update does.
    pub fn mark<L>(&mut self, id: FiberId, by: &L)
    where
        F: Mark<L>,
        requires { Holds self.old.current id }
        ensures { self.new ≡ marked_above (F.marked by.now) id self.old }
    {
        mark_up(&mut self.nodes, Some(id), by);
    }

    /// Marks all fibers below a current one, each with its alternate: as updates become owed in content that is kept hidden.
    pub fn mark_below<L>(&mut self, id: FiberId, by: &L)
    where
        F: Mark<L>,
        requires { Holds self.old.current id }
        ensures { self.new ≡ marked_below (F.marked by.now) id self.old }
    {
        let kids = self.nodes.child_of(id);
        mark_list(&mut self.nodes, kids, by);
    }

    /// Marks a current fiber alone, in each tree that has it.
    pub fn mark_current<L>(&mut self, id: FiberId, by: &L)
    where
        F: Mark<L>,
        requires { Holds self.old.current id }
        ensures { self.new ≡ changed_current (F.marked by.now) id self.old }
    {
        mark_one(&mut self.nodes, id, by);
    }

    /// Marks a made fiber alone.
    #[inline(always)]
    pub fn mark_made<L>(&mut self, id: FiberId, by: &L)
    where
        F: Mark<L>,
        requires { Makes self.old.draft id }
        ensures { self.new ≡ record self.old { draft = valued id (F.marked by.now) self.old.draft } }
    {
        mark_one(&mut self.nodes, id, by);
    }

    /// What always holds of the two trees. Of the children that the alternate of a made fiber has, one is unused if none of the
    /// made children is for it; so all are if it has none yet.
    pub fn facts(&self)
        ensures fits { Fits self.now }
        ensures linked { IsLinked self.now.current }
        ensures bare { (p j : ℕ) → IsBare self.now.draft p → IsTop (old_kids self.now p) j → IsUnused self.now.draft j }
        ensures unused { (p j : ℕ) → HasMadeKids (λ ks. IsTopUnused ks j) self.now.draft p → IsTop (old_kids self.now p) j → IsUnused self.now.draft j }
    {
        let _nodes = &self.nodes;
    }

    /// What a made fiber is to the two trees, seen from its place in the tree in progress, as where rendering stands.
    pub fn place_facts(&self)
        ensures { (k : Around F) (p : ℕ) (v : F) (o : Option ℕ) (ks rs : Draft F) → self.now.draft ≡ placed k (made p v o ks rs) → IsAt self.now k p v o ks rs }
    {
        let _nodes = &self.nodes;
    }

    /// The root of the current tree.
    pub fn current(&self) -> Option<FiberId>
        ensures { result ≡ first self.now.current }
    {
        self.current
    }

    /// The root of the tree in progress.
    pub fn in_progress(&self) -> Option<FiberId>
        ensures { result ≡ entry self.now.draft }
    {
        self.draft
    }

    /// The value of a fiber.
    #[inline(always)]
    pub fn value(&self, id: FiberId) -> &F
        requires { IsIn self.now id }
        ensures current { Holds self.now.current id → Some result.now ≡ value_of self.now.current id }
        ensures made { Makes self.now.draft id → Some result.now ≡ made_value_of self.now.draft id }
    {
        self.nodes.get(id)
    }

    /// The first child of a fiber.
    #[inline(always)]
    pub fn first_child(&self, id: FiberId) -> Option<FiberId>
        requires { IsIn self.now id }
        ensures current { Holds self.now.current id → result ≡ first (kids_of self.now.current id) }
        ensures made { Makes self.now.draft id → result ≡ entry (made_kids_of self.now.draft id) }
    {
        self.nodes.child_of(id)
    }

    /// The next sibling of a fiber.
    #[inline(always)]
    pub fn next_sibling(&self, id: FiberId) -> Option<FiberId>
        requires { IsIn self.now id }
        ensures current { Holds self.now.current id → result ≡ first (rest_of self.now.current id) }
        ensures made { Makes self.now.draft id → result ≡ entry (made_rest_of self.now.draft id) }
    {
        self.nodes.sibling_of(id)
    }

    /// The parent of a fiber. Of a current one it is the current parent, even if the fiber was taken over.
    #[inline(always)]
    pub fn parent(&self, id: FiberId) -> Option<FiberId>
        requires { IsIn self.now id }
        ensures current { Holds self.now.current id → result ≡ parent_of self.now.current id }
        ensures made { Makes self.now.draft id → result ≡ made_parent_of self.now.draft id }
    {
        self.nodes.return_of(id)
    }

    /// The alternate of a fiber: the one that was made for a current fiber, or the current one that a made fiber is for.
    #[inline(always)]
    pub fn alternate(&self, id: FiberId) -> Option<FiberId>
        requires { IsIn self.now id }
        ensures current { Holds self.now.current id → result ≡ clone_of self.now.draft id }
        ensures made { Makes self.now.draft id → result ≡ old_of self.now.draft id }
    {
        self.nodes.alternate_of(id)
    }

    /// The current fibers in tree order: each before its children, and these before its later siblings.
    pub fn ids(&self, alloc: Global) -> Result<Vec<FiberId>, AllocError>
        ensures list { IfOk result (λ out. out.items ≡ ids self.now.current) }
        ensures current { IfOk result (λ out. All (Holds self.now.current) out.items) }
    {
        let mut out = Vec::new(alloc);
        ids_into(&self.nodes, self.current, &mut out)?;
        Ok(out)
    }
}
