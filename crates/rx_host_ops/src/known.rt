// Hosts that are found by their numbers.
ghost use Rattle.std.specs.Prelude.{◌≡◌, ℕ, IfOk, is_some};
ghost use Rattle.std.specs.Option.{option_copied};
ghost use Rattle.rx_forest.specs.Hosts.{has_host, host_numbered};
ghost use Rattle.rx_forest.specs.HostOps.{is_placed};
ghost use Rattle.rx_host_ops.specs.Tables.{KnowsAll, entry_in};

use crate::host::Host;
use crate::table::Table;
use std::alloc::{AllocError, Global};

// Where the host of each number stands in a list; the first one, if there are several.
fn places_of(alloc: Global, hosts: &[Host]) -> Result<Table, AllocError>
    ensures { IfOk result (λ places. KnowsAll hosts.now places) }
{
    let mut places = Table::new(alloc, hosts)?;
    for place in (0..hosts.len()).rev() {
        places.put(hosts[place].number(), place as u64)?;
    }
    Ok(places)
}

/// Hosts, each found by its number.
#[derive(Drop)]
pub(crate) struct Known<'a> {
    hosts: &'a [Host],
    places: Table,
}

impl<'a> Known<'a> {
    /// What is known of these hosts.
    pub(crate) fn new(alloc: Global, hosts: &'a [Host]) -> Result<Known<'a>, AllocError>
        ensures hosts { IfOk result (λ known. known.hosts.now ≡ hosts.now) }
        ensures knows { IfOk result (λ known. KnowsAll hosts.now known.places) }
    {
        let places = places_of(alloc, hosts)?;
        Ok(Known { hosts, places })
    }

    /// The host of a number.
    pub(crate) fn find(&self, number: u64) -> Option<&Host>
        requires { KnowsAll self.now.hosts.now self.now.places }
        ensures { option_copied result ≡ host_numbered self.now.hosts.now number }
    {
        match self.places.get(number) {
            Some(place) => self.hosts.get(place as usize),
            None => None,
        }
    }

    /// True if there is a host of a number.
    pub(crate) fn has(&self, number: u64) -> bool
        requires { KnowsAll self.now.hosts.now self.now.places }
        ensures { result ≡ has_host self.now.hosts.now number }
    {
        self.places.get(number).is_some()
    }
}

/// Notes each number of a list in a table that is made for the numbers of these hosts.
pub(crate) fn numbers_of(
    alloc: Global,
    hosts: &[Host],
    numbers: &[u64],
) -> Result<Table, AllocError>
    ensures { IfOk result (λ known. (n : ℕ) → is_some (entry_in known n) ≡ is_placed numbers.now n) }
{
    let mut known = Table::new(alloc, hosts)?;
    for number in numbers {
        known.put(*number, *number)?;
    }
    Ok(known)
}
