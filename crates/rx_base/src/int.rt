// The integers of a program.
ghost use Rattle.std.specs.Prelude.{◌≡◌, int_lt, pos};
ghost use Rattle.std.specs.Ordering.{int_eq};
ghost use Rattle.rx_base.specs.Values.{wrap};
ghost use Rattle.rx_base.specs.Widths.{width_of};
ghost use Rattle.rx_base.specs.Arithmetic as arithmetic;

use crate::width::Width;
use std::marker::Model;

/// An integer of a program: 64 bits in two's complement, of which a program of version 1 uses 32. Contracts see it as a
/// signed number.
#[derive(Clone, Copy, Debug, PartialEq, Eq)]
pub struct Int {
    bits: i64,
}

impl Model for Int {
    ghost use Rattle.std.specs.Prelude.{ℤ};

    ghost Value = { ℤ };

    ghost view = { λ a. a.bits };

    ghost inverse = { λ x. record { bits = x } };
}

/// The number that is left in so many bits.
fn wrapped(width: Width, value: i64) -> Int
    ensures { result ≡ wrap (width_of width) value }
{
    match width {
        Width::W32 => Int {
            bits: i64::from((value.rem_euclid(1 << 32) as u32).cast_signed()),
        },
        Width::W64 => Int { bits: value },
    }
}

impl Int {
    /// The integer that a number stands for.
    pub fn of(value: i64) -> Int
        ensures { result ≡ value }
    {
        Int { bits: value }
    }

    /// The integer that a number of a text stands for.
    pub fn literal(width: Width, number: u64) -> Int
        ensures { result ≡ wrap (width_of width) (pos number) }
    {
        match width {
            Width::W32 => Int {
                bits: i64::from(((number % (1 << 32)) as u32).cast_signed()),
            },
            Width::W64 => Int {
                bits: number.cast_signed(),
            },
        }
    }

    /// The number, from -9223372036854775808 to 9223372036854775807.
    pub fn value(self) -> i64
        ensures { result ≡ self }
    {
        self.bits
    }

    /// The sum, which wraps.
    pub fn add(width: Width, left: Int, right: Int) -> Int
        ensures { result ≡ arithmetic.add (width_of width) left right }
    {
        wrapped(width, left.bits.wrapping_add(right.bits))
    }

    /// The difference, which wraps.
    pub fn sub(width: Width, left: Int, right: Int) -> Int
        ensures { result ≡ arithmetic.sub (width_of width) left right }
    {
        wrapped(width, left.bits.wrapping_sub(right.bits))
    }

    /// The product, which wraps.
    pub fn mul(width: Width, left: Int, right: Int) -> Int
        ensures { result ≡ arithmetic.mul (width_of width) left right }
    {
        wrapped(width, left.bits.wrapping_mul(right.bits))
    }

    /// The quotient, cut toward 0; 0 if the right side is 0.
    pub fn div(width: Width, left: Int, right: Int) -> Int
        ensures { result ≡ arithmetic.div (width_of width) left right }
    {
        if right.bits == 0 {
            return Int { bits: 0 };
        }
        wrapped(width, left.bits.wrapping_div(right.bits))
    }

    /// The remainder, which has the sign of the left side; 0 if the right side is 0.
    pub fn rem(width: Width, left: Int, right: Int) -> Int
        ensures { result ≡ arithmetic.rem (width_of width) left right }
    {
        if right.bits == 0 {
            return Int { bits: 0 };
        }
        wrapped(width, left.bits.wrapping_rem(right.bits))
    }

    /// The opposite, which wraps.
    pub fn neg(width: Width, value: Int) -> Int
        ensures { result ≡ arithmetic.neg (width_of width) value }
    {
        wrapped(width, value.bits.wrapping_neg())
    }

    /// Whether the left side is less than the right one.
    pub fn less(self, other: Int) -> bool
        ensures { result ≡ int_lt self other }
    {
        self.bits < other.bits
    }

    /// Whether both are the same integer.
    pub fn same(self, other: Int) -> bool
        ensures { result ≡ int_eq self other }
    {
        self.bits == other.bits
    }
}
