// Tables from the numbers of hosts to numbers.
ghost use Rattle.std.specs.Prelude.{◌≡◌, ℕ, None, Some, IfOk, OnOk, nat_eq, if◌then◌else◌};
ghost use Rattle.rx_host_ops.specs.Tables.{entry_in, slot_of};

use crate::host::Host;
use std::alloc::{AllocError, Global};
use std::collections::HashMap;

// Where a number stands in a list of this length that begins with the least one.
fn slot_of(least: u64, size: usize, number: u64) -> Option<usize>
    ensures { result ≡ slot_of least size number }
{
    if number >= least && number - least < size as u64 {
        return Some((number - least) as usize);
    }
    None
}

// The least number of these hosts, and how many there are from it to the greatest one; none, if they lie far apart.
fn span_of(hosts: &[Host]) -> (u64, usize) {
    let (mut least, mut greatest) = (u64::MAX, 0);
    for host in hosts {
        least = least.min(host.number());
        greatest = greatest.max(host.number());
    }
    let span = greatest.saturating_sub(least);
    if span / 4 < hosts.len() as u64 {
        return (least, (span as usize).saturating_add(1));
    }
    (0, 0)
}

/// A table from numbers to numbers: a list of what is noted for those from the least one on, and a map of the others.
#[derive(Drop)]
pub(crate) struct Table {
    least: u64,
    near: Vec<Option<u64>>,
    far: HashMap<u64, u64>,
}

impl Table {
    /// An empty table, with a list for the numbers of these hosts if they lie close together.
    pub(crate) fn new(alloc: Global, hosts: &[Host]) -> Result<Table, AllocError>
        ensures { IfOk result (λ table. (n : ℕ) → entry_in table n ≡ None) }
    {
        let (least, size) = span_of(hosts);
        let near = vec![in alloc; None; size]?;
        let far = HashMap::new(alloc);
        Ok(Table { least, near, far })
    }

    /// What is noted for a number.
    pub(crate) fn get(&self, number: u64) -> Option<u64>
        ensures { result ≡ entry_in self.now number }
    {
        match slot_of(self.least, self.near.len(), number) {
            Some(slot) => self.near[slot],
            None => self.far.get(&number).copied(),
        }
    }

    /// Notes this for a number, and nothing else any more.
    pub(crate) fn put(&mut self, number: u64, entry: u64) -> Result<(), AllocError>
        ensures { OnOk result ((n : ℕ) → entry_in self.new n ≡ (if nat_eq number n then Some entry else entry_in self.old n)) }
    {
        match slot_of(self.least, self.near.len(), number) {
            Some(slot) => self.near[slot] = Some(entry),
            None => {
                self.far.insert(number, entry)?;
            }
        }
        Ok(())
    }
}
