// Laws of the hosts whose lines a report shows.
ghost use Rattle.std.specs.Prelude.{◌≡◌, List, [], Option, Some};
ghost use Rattle.rx_elem.specs.Spots.{container};
ghost use Rattle.rx_elem.specs.Trees.{Node};
ghost use Rattle.rx_forest.specs.Hosts.{Host, hosts};
ghost use Rattle.rx_forest.specs.Forests.{children_in, forest_of};
ghost use Rattle.rx_lines.specs.Lines.{host_lines};
ghost use Rattle.host_laws.specs.Commits.{IsCommit};
ghost use Rattle.rx_report.specs.TreeOrder.{AreInTreeOrder};
ghost use Rattle.rx_report.specs.Walks.{Walk};

/// A walk of a forest from the container lists the hosts that the forest stands for, in tree order and each on its level.
pub fn a_walk_lists_the_hosts()
    ensures { (hs : List Host)
        → AreInTreeOrder hs → Walk (forest_of hs) container 1 (children_in hs container) hs (host_lines [] hs) }
{}

/// So a forest stands for one list of hosts in tree order at most.
pub fn a_forest_has_one_list()
    ensures { (gs hs : List Host)
        → AreInTreeOrder gs → AreInTreeOrder hs → forest_of gs ≡ forest_of hs → gs ≡ hs }
{}

/// The hosts of a committed tree are in tree order.
pub fn a_commit_is_in_tree_order()
    ensures { (old : Option Node) (new : Node) → IsCommit old new → AreInTreeOrder (hosts (Some new)) }
{}
