// The lines of the hosts.
ghost use Rattle.std.specs.Prelude.{◌≡◌, OnErr, OnOk, IfOk, map};
ghost use Rattle.std.specs.Option.{option_copied};
ghost use Rattle.rx_forest.specs.Forests.{forest_of};
ghost use Rattle.rx_forest.specs.Hosts as listed;
ghost use Rattle.rx_host.specs.Kept.{forest_kept};
ghost use Rattle.rx_lines.specs.Lines.{tree_lines};
ghost use Rattle.rx_mounts.specs.Committed.{AreCommitted};
ghost use Rattle.rx_writing.specs.Written.{with_lines};

use rx_host::{HostTree, replay};
use rx_host_ops::{Host, hosts, ops_between};
use rx_node::Node;
use rx_report::{Report, a_commit_is_in_tree_order};
use std::alloc::{AllocError, Global};

// The numbers of hosts.
fn numbers_of(alloc: Global, hosts: &[Host]) -> Result<Vec<u64>, AllocError>
    ensures { IfOk result (λ numbers. numbers.items ≡ map (λ h. h.number) hosts.now) }
{
    let mut numbers = Vec::new(alloc);
    for host in hosts {
        numbers.push(host.number())?;
    }
    Ok(numbers)
}

// A tree of these hosts, made by operations that place each of them.
fn tree_of(alloc: Global, hosts: &[Host]) -> Result<HostTree, AllocError>
    requires { AreCommitted hosts.now }
    ensures { IfOk result (λ tree. forest_kept tree ≡ forest_of hosts.now) }
{
    let numbers = numbers_of(alloc, hosts)?;
    let ops = ops_between(alloc, &[], hosts, &numbers)?;
    let mut tree = HostTree::new(alloc);
    replay(alloc, &mut tree, &ops)?;
    Ok(tree)
}

/// The lines that show the hosts of a committed tree, in tree order. An `Err` leaves the report as it was.
///
/// # Errors
///
/// Only if out of memory.
pub fn show_hosts(alloc: Global, log: &mut Report, tree: Option<&Node>) -> Result<(), AllocError>
    requires { AreCommitted (listed.hosts (option_copied tree)) }
    ensures ok { OnOk result (log.new ≡ with_lines log.old (tree_lines (listed.hosts (option_copied tree.entry)))) }
    ensures err { OnErr result (log.new ≡ log.old) }
{
    a_commit_is_in_tree_order();
    let found = hosts(alloc, tree)?;
    let shown = tree_of(alloc, &found)?;
    log.tree_lines(&shown)
}
