// Sums and products that are held at the greatest count.
ghost use Rattle.std.specs.Prelude.{◌≡◌};
ghost use Rattle.rx_figures.specs.Costs.{held_sum, held_product};

/// No count is greater.
const MOST: u64 = 1_000_000_000;

/// A sum, held.
pub fn held_sum(a: u64, b: u64) -> u64
    ensures { result ≡ held_sum a b }
{
    a.saturating_add(b).min(MOST)
}

/// A product, held.
pub fn held_product(a: u64, b: u64) -> u64
    ensures { result ≡ held_product a b }
{
    a.saturating_mul(b).min(MOST)
}
