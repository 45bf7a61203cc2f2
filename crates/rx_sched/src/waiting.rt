// What the scheduler waits for.
ghost use Rattle.std.specs.Prelude.{◌≡◌, slice_index_or};
ghost use Rattle.rx_queue.specs.Pairs.{in_versions};
ghost use Rattle.rx_sched.specs.Waiting.{has, nothing, union, version_in};

use rx_base::Awaits;
use std::marker::Model;

/// Resources that are waited for, each in one version. Contracts see the pairs in rising order of the resources.
#[derive(Drop, Debug)]
pub struct Waiting {
    resources: Awaits,
    versions: [u64; 64],
}

impl Model for Waiting {
    ghost use Rattle.std.specs.Prelude.{◌≡◌, List, length};
    ghost use Rattle.rx_queue.specs.Pairs.{Pair};
    ghost use Rattle.rx_sched.specs.Waiting.{kept_version, waiting_where};

    ghost Value = { List Pair };

    ghost view = { λ w. waiting_where (kept_version w.resources w.versions) };

    ghost invariant = { λ w. length w.versions ≡ 64 };
}

impl Waiting {
    /// A wait for nothing.
    pub fn none() -> Waiting
        ensures { result ≡ nothing }
    {
        Waiting {
            resources: Awaits::none(),
            versions: [0; 64],
        }
    }

    /// The version in which a resource is waited for, if it is.
    fn version_in(&self, resource: u32) -> Option<u64>
        ensures { result ≡ version_in self.now resource }
    {
        if self.resources.has(resource) {
            self.versions.get(resource as usize).copied()
        } else {
            None
        }
    }

    /// True if a resource is waited for in this version.
    pub fn has(&self, resource: u32, version: u64) -> bool
        ensures { result ≡ has self.now resource version }
    {
        self.version_in(resource) == Some(version)
    }

    /// Waits for more resources, each in the version that a slice gives by its number, 0 past its end. A resource that
    /// is waited for in two versions stays in the lesser one.
    pub fn add(&mut self, waits: &Awaits, versions: &[u64])
        ensures { self.new ≡ union self.old (in_versions (λ r. slice_index_or versions.now r 0) waits.now) }
    {
        for resource in 0..64u32 {
            if waits.has(resource) {
                let place = resource as usize;
                let version = versions.get(place).copied().unwrap_or(0);
                let waited = self.resources.has(resource);
                self.versions[place] = if waited {
                    self.versions[place].min(version)
                } else {
                    version
                };
            }
        }
        self.resources = self.resources.union(*waits);
    }
}
