// Sets of lanes.
ghost use Rattle.std.specs.Prelude.{◌≡◌};
ghost use Rattle.rx_lane.specs.Lanes.{has, highest, intersection, is_empty, meets, minus, no_lanes, one, only_transitions, transitions, union, within};

use crate::lane::Lane;
use std::marker::Model;

/// A set of lanes: those of a render, or those that are pending. Contracts see its lanes by falling priority.
#[derive(Clone, Copy, Debug, PartialEq, Eq)]
pub struct Lanes {
    bits: u32,
}

impl Model for Lanes {
    ghost use Rattle.std.specs.Prelude.{List, ◌<◌, ◌^◌};
    ghost use Rattle.rx_lane.specs.declared.lane.Lane.{Lane};
    ghost use Rattle.rx_lane.specs.LaneBits.{bits_of, lanes_of};
    ghost use Rattle.rx_lane.specs.BitLaws.{bits_of-lanes_of};
    ghost use Rattle.std.proofs.Common.{ap};

    ghost Value = { List Lane };

    ghost view = { λ a. lanes_of a.bits };

    ghost invariant = { λ a. a.bits < 2 ^ 20 };

    ghost inverse = { λ lanes. record { bits = bits_of lanes } };

    ghost inverse_ok = { λ a h. ap (λ n. record { bits = n }) (bits_of-lanes_of a.bits h) };
}

impl Lanes {
    /// No lane.
    pub fn none() -> Lanes
        ensures { result ≡ no_lanes }
    {
        Lanes { bits: 0 }
    }

    /// One lane.
    pub fn one(lane: Lane) -> Lanes
        ensures { result ≡ one lane }
    {
        Lanes {
            bits: 1 << lane.priority(),
        }
    }

    /// The lanes of both sets.
    pub fn union(self, other: Lanes) -> Lanes
        ensures { result ≡ union self other }
    {
        Lanes {
            bits: self.bits | other.bits,
        }
    }

    /// True if the lane is in the set.
    pub fn has(self, lane: Lane) -> bool
        ensures { result ≡ has self lane }
    {
        self.bits >> lane.priority() & 1 == 1
    }

    /// The lanes of this set that aren't in the other.
    pub fn minus(self, other: Lanes) -> Lanes
        ensures { result ≡ minus self other }
    {
        Lanes {
            bits: self.bits & !other.bits,
        }
    }

    /// The lanes that both sets have.
    pub fn intersection(self, other: Lanes) -> Lanes
        ensures { result ≡ intersection self other }
    {
        Lanes {
            bits: self.bits & other.bits,
        }
    }

    /// The transition lanes among these.
    pub fn transitions(self) -> Lanes
        ensures { result ≡ transitions self }
    {
        Lanes {
            bits: self.bits & TRANSITIONS,
        }
    }

    /// True if no lane is in the set.
    pub fn is_none(self) -> bool
        ensures { result ≡ is_empty self }
    {
        self.bits == 0
    }

    /// True if some lane is in both sets.
    pub fn meets(self, other: Lanes) -> bool
        ensures { result ≡ meets self other }
    {
        self.bits & other.bits != 0
    }

    /// True if each lane of this set is in the other.
    pub fn within(self, other: Lanes) -> bool
        ensures { result ≡ within self other }
    {
        self.bits & !other.bits == 0
    }

    /// True if each lane is one of `T1` to `T16`.
    pub fn only_transitions(self) -> bool
        ensures { result ≡ only_transitions self }
    {
        self.within(Lanes { bits: TRANSITIONS })
    }

    /// The lane of highest priority, if there is a lane.
    pub fn highest(self) -> Option<Lane>
        ensures { result ≡ highest self }
    {
        if self.bits == 0 {
            None
        } else {
            Some(Lane::ALL[self.bits.trailing_zeros() as usize])
        }
    }
}

/// The bits of `T1` to `T16`.
const TRANSITIONS: u32 = 0x7fff8;
