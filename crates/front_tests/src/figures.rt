// Figures that are held at the greatest one.
use rx_figures::held_sum;
use std::test::Fail;

// Two figures and their sum. Products are held in the cases of inputs that have more nodes than the greatest figure.
const ROWS: [(u64, u64, u64); 4] = [
    (2, 3, 5),
    (0, 1_000_000_000, 1_000_000_000),
    (999_999_999, 1, 1_000_000_000),
    (1_000_000, 1_001, 1_001_001),
];

#[test]
fn figures_are_held(rt: HostRuntime) -> Result<(), Fail> {
    for (a, b, sum) in ROWS {
        assert_eq!(rt; held_sum(a, b), sum);
    }
    Ok(())
}
