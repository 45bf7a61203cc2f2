// Laws of the definitions: what they say of children, of moves, and of the operations on hosts.
ghost use Rattle.std.specs.Prelude.{◌≡◌, ℕ, Bool, ◌<◌, ◌↔◌, true, false, List, Option, Some, slice_get, position, filter};
ghost use Rattle.std.specs.List.{list_all};
ghost use Rattle.rx_elem.specs.Elements.{Element};
ghost use Rattle.rx_elem.specs.Identity.{Identity, Child, identities, identified, is_same_child, old_places, moves};
ghost use Rattle.rx_elem.specs.Trees.{Node};
ghost use Rattle.rx_elem.specs.Spots.{container};
ghost use Rattle.rx_forest.specs.declared.op.HostOp.{HostOp};
ghost use Rattle.rx_forest.specs.Hosts.{Host, hosts, has_host};
ghost use Rattle.rx_forest.specs.HostOps.{host_ops, placements, removals, ops_between};
ghost use Rattle.rx_forest.specs.Forests.{HostForest, children_in, forest_of, Replays, CanBeReplayed};
ghost use Rattle.host_laws.specs.Commits.{IsCommit, TextsAreLeaves};
ghost use Rattle.host_laws.specs.Related.{IsPassed, AreApart, AreDistinct, ParentsFirst, GoneBelow, ParentsHold, rest_of, stands, AreRelated};
ghost use Rattle.host_laws.specs.Siblings.{with_parents, TellPlaces};

/// No two children of a list have one identity.
pub fn identities_are_distinct()
    ensures { (es : List Element) (i j : ℕ) (x : Identity) → slice_get (identities es) i ≡ Some x → slice_get (identities es) j ≡ Some x → i ≡ j }
{}

/// The old child that a new child is the same as is the one that is found.
pub fn the_same_child_is_found()
    ensures { (old : List Element) (c d : Child) (p : ℕ)
        → slice_get (identified old) p ≡ Some d → is_same_child c d ≡ true → position (is_same_child c) (identified old) ≡ Some p }
{}

/// No two new children were one old child.
pub fn no_child_is_reused_twice()
    ensures { (old new : List Element) → AreApart (old_places old new) }
{}

/// A reused child moves exactly if a reused child before it had a greater place.
pub fn moves_exactly_the_passed()
    ensures { (places : List (Option ℕ)) (i p : ℕ)
        → slice_get places i ≡ Some (Some p) → (slice_get (moves places) i ≡ Some true ↔ IsPassed places i p) }
{}

/// A reused child that doesn't move had a greater place than each reused child before it. So the places of those that
/// don't move rise.
pub fn the_unmoved_rise()
    ensures { (places : List (Option ℕ)) (i j p q : ℕ)
        → AreApart places → i < j → slice_get places i ≡ Some (Some p) → slice_get places j ≡ Some (Some q)
        → slice_get (moves places) j ≡ Some false → p < q }
{}

/// The removals leave exactly the old hosts that aren't gone.
pub fn removals_leave_the_rest()
    ensures { (old new : List Host)
        → AreDistinct old → ParentsFirst old → GoneBelow old new → Replays (forest_of old) (removals old new) (rest_of old new) }
{}

/// If the children that aren't placed keep their order, the placements make each list of children the new one, and
/// change nothing else.
pub fn placements_settle_the_children()
    ensures { (placed : List ℕ) (new : List Host) (f : HostForest)
        → AreDistinct new
        → ((q : ℕ) → filter (stands placed) (f.children q) ≡ filter (stands placed) (children_in new q))
        → ((q : ℕ) → list_all (has_host new) (f.children q) ≡ true)
        → (g : HostForest) × Replays f (placements placed new) g × (g.held ≡ f.held) × (g.children ≡ children_in new) }
{}

/// The placements ask only for the hosts beside those that are placed: the hosts of some parents tell where those go whose parents
/// are among these.
pub fn siblings_tell_the_placements()
    ensures { (parents : ℕ → Bool) (new : List Host) → TellPlaces parents (with_parents parents new) new }
{}

/// The operations between two lists of hosts make the new forest of the old one.
pub fn operations_make_the_new_forest()
    ensures { (old new : List Host) (placed : List ℕ)
        → AreRelated old new placed → Replays (forest_of old) (ops_between old new placed) (forest_of new) }
{}

/// Operations have at most one result.
pub fn operations_have_one_result()
    ensures { (f : HostForest) (ops : List HostOp) (g h : HostForest) → Replays f ops g → Replays f ops h → g ≡ h }
{}

/// Each operation between two lists of hosts can be made in its turn, if in the new list each parent stands before its
/// children and is the container or an element, and no host has the container's number.
pub fn operations_can_be_made()
    ensures { (old new : List Host) (placed : List ℕ)
        → AreRelated old new placed → ParentsFirst new → ParentsHold new → has_host new container ≡ false
        → CanBeReplayed (forest_of old) (ops_between old new placed) }
{}

/// The operations of a commit make the new tree of hosts of the old one.
pub fn commit_replays()
    ensures { (old : Option Node) (new : Node)
        → IsCommit old new → Replays (forest_of (hosts old)) (host_ops old new) (forest_of (hosts (Some new))) }
{}

/// Each operation of a commit can be made in its turn, if no text has children.
pub fn commit_can_be_made()
    ensures { (old : Option Node) (new : Node) → IsCommit old new → TextsAreLeaves new → CanBeReplayed (forest_of (hosts old)) (host_ops old new) }
{}
