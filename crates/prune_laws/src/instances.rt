// Laws of pruned trees.
ghost use Rattle.std.specs.Prelude.{ℕ, Option, Some};
ghost use Rattle.rx_elem.specs.Trees.{Node};
ghost use Rattle.rx_elem.specs.Spots.{mounted};
ghost use Rattle.rx_pruned.specs.Pruned.{ArePruned};
ghost use Rattle.prune_laws.specs.LeftOut.{AreWithin, LeaveOutAlike};

/// What is left out of an old tree and of the new one that it became has each instance equally often, and the instances of
/// the pruned new tree are some of those of the whole one, but for the nearest instance above each.
pub fn pruned_alike()
    ensures times { (old : Option Node) (new : Node) (pruned_old : Option Node) (pruned_new : Node) → ArePruned old new pruned_old pruned_new
        → (n : ℕ) → LeaveOutAlike n old new pruned_old pruned_new }
    ensures within { (old : Option Node) (new : Node) (pruned_old : Option Node) (pruned_new : Node) → ArePruned old new pruned_old pruned_new
        → AreWithin (mounted (Some pruned_new)) (mounted (Some new)) }
{}
