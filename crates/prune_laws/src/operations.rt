// Laws of the definitions: what stayed the same has no part in the operations of a commit.
ghost use Rattle.std.specs.Prelude.{◌≡◌, ◌++◌, ℕ, Bool, [], Option, Some};
ghost use Rattle.rx_elem.specs.Trees.{Node};
ghost use Rattle.rx_elem.specs.Compare.{changes, compare_trees};
ghost use Rattle.rx_forest.specs.Hosts.{hosts};
ghost use Rattle.rx_forest.specs.HostOps.{contents, creations, hidings, host_ops, ops_between, placed_hosts, placements, removals};
ghost use Rattle.host_laws.specs.Commits.{AreNumbered};
ghost use Rattle.host_laws.specs.Related.{AreDistinct};
ghost use Rattle.host_laws.specs.Siblings.{HasPlacedParents};
ghost use Rattle.rx_pruned.specs.Pruned.{ArePruned};
ghost use Rattle.prune_laws.specs.Staying.{AreOfCommit};

/// If a commit places no host, its operations are those between the hosts that are left when children and lists of children that
/// stayed the same are left out: a host of what is left out is not removed, not created, and changes neither its content nor
/// its mark. If it places some, so are its other operations, and the placements are those among all hosts of the new tree: a
/// placed host goes before its next sibling, which may be left out. Those that are left of the old tree have numbers of their own.
pub fn hosts_that_stay_need_nothing()
    ensures operations { (old : Option Node) (new : Node) (p : Option Node) (q : Node)
        → ArePruned old new p q → AreOfCommit old new → placed_hosts (changes (compare_trees old new)) ≡ []
        → ops_between (hosts p) (hosts (Some q)) [] ≡ host_ops old new }
    ensures placing { (old : Option Node) (new : Node) (p : Option Node) (q : Node) → ArePruned old new p q → AreOfCommit old new
        → removals (hosts p) (hosts (Some q)) ++ creations (hosts p) (hosts (Some q)) ++ placements (placed_hosts (changes (compare_trees old new))) (hosts (Some new))
        ++ contents (hosts p) (hosts (Some q)) ++ hidings (hosts p) (hosts (Some q)) ≡ host_ops old new }
    ensures distinct { (old : Option Node) (new : Node) (p : Option Node) (q : Node)
        → ArePruned old new p q → AreOfCommit old new → AreDistinct (hosts p) }
{}

/// The hosts that a commit places are among those that are left, with the parents that they have: numbers among which the parents
/// of the placed hosts that are left are have those of all placed hosts.
pub fn placed_hosts_are_left()
    ensures { (old : Option Node) (new : Node) (p : Option Node) (q : Node) (parents : ℕ → Bool)
        → ArePruned old new p q → AreNumbered new → AreDistinct (hosts (Some new))
        → HasPlacedParents (placed_hosts (changes (compare_trees p q))) parents (hosts (Some q))
        → HasPlacedParents (placed_hosts (changes (compare_trees p q))) parents (hosts (Some new)) }
{}
