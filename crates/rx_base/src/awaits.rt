// Sets of resources that are waited for.
ghost use Rattle.std.specs.Prelude.{◌≡◌, ◌<◌};
ghost use Rattle.rx_base.specs.Awaits.{has, is_nothing, nothing, one, resource_limit, union};

use std::marker::Model;

/// What a place of a tree waits for: resources by their numbers, which are below 64. Contracts see the numbers in
/// rising order.
#[derive(Clone, Copy, Debug, PartialEq, Eq)]
pub struct Awaits {
    bits: u64,
}

impl Model for Awaits {
    ghost use Rattle.std.specs.Prelude.{ℕ, List, ◌<◌, ◌^◌};
    ghost use Rattle.std.proofs.Common.{ap};
    ghost use Rattle.rx_base.specs.AwaitsBits.{awaits_of, bits_of};
    ghost use Rattle.rx_base.specs.AwaitsLaws.{bits_of-awaits_of};

    ghost Value = { List ℕ };

    ghost view = { λ a. awaits_of a.bits };

    ghost invariant = { λ a. a.bits < 2 ^ 64 };

    ghost inverse = { λ waits. record { bits = bits_of waits } };

    ghost inverse_ok = { λ a h. ap (λ n. record { bits = n }) (bits_of-awaits_of a.bits h) };
}

impl Awaits {
    /// A wait for nothing.
    pub fn none() -> Awaits
        ensures { result ≡ nothing }
    {
        Awaits { bits: 0 }
    }

    /// A wait for one resource.
    pub fn one(resource: u32) -> Awaits
        requires { resource < resource_limit }
        ensures { result ≡ one resource }
    {
        Awaits {
            bits: 1 << resource,
        }
    }

    /// A wait for all that either is for.
    pub fn union(self, other: Awaits) -> Awaits
        ensures { result ≡ union self other }
    {
        Awaits {
            bits: self.bits | other.bits,
        }
    }

    /// True if the resource is waited for; false for a number from 64 on.
    pub fn has(&self, resource: u32) -> bool
        ensures { result ≡ has self.now resource }
    {
        let bits = self.bits;
        resource < 64 && bits >> resource & 1 == 1
    }

    /// True if nothing is waited for.
    pub fn is_none(&self) -> bool
        ensures { result ≡ is_nothing self.now }
    {
        self.bits == 0
    }
}
