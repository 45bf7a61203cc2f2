// The walk of a tree of hosts: a host, then what stands below it, and then its next sibling.
ghost use Rattle.std.specs.Prelude.{◌≡◌, ℕ, [], ◌++◌, ◌∷◌, List, Some, IfOk, OnOk, reverse};
ghost use Rattle.rx_forest.specs.Forests.{forest_of, held_of};
ghost use Rattle.rx_forest.specs.Hosts.{Host};
ghost use Rattle.rx_host.specs.Kept.{forest_kept};
ghost use Rattle.rx_lines.specs.Lines.{Line, Options, host_lines, line_bytes, report_bytes, tree_host};
ghost use Rattle.rx_report.specs.TreeOrder.{AreInTreeOrder, IsByName};
ghost use Rattle.rx_report.specs.Walks.{Behind, ToGo};

use crate::draft::Draft;
use rx_host::HostTree;
use std::alloc::AllocError;

// The host behind one and all below it, with these hosts above; those that are done are taken away.
fn host_behind(hosts: &HostTree, above: &mut Vec<u64>, host: u64) -> Option<u64>
    ensures { (level : ℕ) (left : List Host) (lines : List Line) → Behind (forest_kept hosts.now) (reverse above.old.items) level host left lines → ToGo (forest_kept hosts.now) (reverse above.new.items) result left lines }
{
    let mut last = host;
    'up: loop {
        let next = hosts.next_sibling(last);
        if next.is_some() {
            return next;
        }
        last = above.pop()?;
    }
}

// The host that comes next behind one that was listed, with these hosts above it.
fn next_host(hosts: &HostTree, above: &mut Vec<u64>, host: u64) -> Result<Option<u64>, AllocError>
    ensures { (h : Host) (left : List Host) (l : Line) (lines : List Line) → ToGo (forest_kept hosts.now) (reverse above.old.items) (Some host) (h ∷ left) (l ∷ lines) → IfOk result (λ next. ToGo (forest_kept hosts.now) (reverse above.new.items) next left lines) }
{
    let Some(child) = hosts.first_child(host) else {
        return Ok(host_behind(hosts, above, host));
    };
    above.push(host)?;
    Ok(Some(child))
}

impl Draft {
    // The line of a host on its level.
    fn put_host_line(&mut self, hosts: &HostTree, host: u64, level: u64) -> Result<(), AllocError>
        ensures put { (o : Options) (h : Host) → (forest_kept hosts.now).held host ≡ Some (held_of h) → IsByName h.content → OnOk result (self.new.begun ≡ self.old.begun ++ line_bytes o (tree_host level h)) }
        ensures done { self.new.done ≡ self.old.done }
    {
        let Some(view) = hosts.view(host) else {
            return Ok(());
        };
        self.put_view_line(level, view)
    }

    /// The lines of all hosts, in tree order.
    pub fn put_host_lines(&mut self, hosts: &HostTree) -> Result<(), AllocError>
        ensures put { (o : Options) (all : List Host) → AreInTreeOrder all → forest_kept hosts.now ≡ forest_of all → OnOk result (self.new.begun ≡ self.old.begun ++ report_bytes o (host_lines [] all)) }
        ensures done { self.new.done ≡ self.old.done }
    {
        let mut above = self.no_numbers();
        let mut next = hosts.first_child(0);
        // Numbers have 64 bits and none is 0, so these rounds list all hosts.
        'hosts: for _listed in 0..u64::MAX {
            let Some(host) = next else {
                return Ok(());
            };
            self.put_host_line(hosts, host, above.len() as u64 + 1)?;
            next = next_host(hosts, &mut above, host)?;
        }
        Ok(())
    }
}
