// Laws of the definitions.
ghost use Rattle.std.specs.Prelude.{◌≡◌, Option};
ghost use Rattle.rx_base.specs.Awaits.{Awaits};
ghost use Rattle.rx_lane.specs.Lanes.{Lanes};
ghost use Rattle.rx_ast.specs.Syntax.{Program};
ghost use Rattle.rx_elem.specs.Trees.{Node};
ghost use Rattle.rx_elem.specs.Compare.{changes, compare_trees};
ghost use Rattle.rx_meaning.specs.Outcome.{newly_caught, outcome, commit, defer};
ghost use Rattle.rx_meaning.specs.Settled.{Known, IfSettled};
ghost use Rattle.rx_effect.specs.EffectLog.{layout_log, passive_of};
ghost use Rattle.rx_forest.specs.HostOps.{placed_hosts};
ghost use Rattle.rx_pruned.specs.Pruned.{ArePruned};
ghost use Rattle.prune_laws.specs.Present.{IfHasNoNull};

/// An old tree and the new one that it became have the same effects without some children and some lists of children that stayed the same,
/// place the same hosts, catch the same values, and come to the same outcome, if no node of the old tree is one of null. None is in a settled tree.
pub fn pruned_trees_compare_alike()
    ensures layout { (old : Option Node) (new : Node) (p : Option Node) (q : Node) → IfHasNoNull old → ArePruned old new p q
        → layout_log (compare_trees p q) ≡ layout_log (compare_trees old new) }
    ensures passive { (old : Option Node) (new : Node) (p : Option Node) (q : Node) → IfHasNoNull old → ArePruned old new p q
        → passive_of (compare_trees p q) ≡ passive_of (compare_trees old new) }
    ensures placed { (old : Option Node) (new : Node) (p : Option Node) (q : Node) → IfHasNoNull old → ArePruned old new p q
        → placed_hosts (changes (compare_trees p q)) ≡ placed_hosts (changes (compare_trees old new)) }
    ensures caught { (old : Option Node) (new : Node) (p : Option Node) (q : Node) → IfHasNoNull old → ArePruned old new p q
        → newly_caught p q ≡ newly_caught old new }
    ensures deferred { (lanes : Lanes) (old : Option Node) (new : Node) (p : Option Node) (q : Node) (a : Awaits) → IfHasNoNull old → ArePruned old new p q
        → outcome lanes p q ≡ defer a → outcome lanes old new ≡ defer a }
    ensures committed { (lanes : Lanes) (old : Option Node) (new : Node) (p : Option Node) (q : Node) → IfHasNoNull old → ArePruned old new p q
        → outcome lanes p q ≡ commit q → outcome lanes old new ≡ commit new }
    ensures present { (program : Program) (k : Known) (old : Option Node) → IfSettled program k old → IfHasNoNull old }
{}
