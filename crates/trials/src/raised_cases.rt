// Base amounts raised by some percent and rounded up to ten yen. The amounts were worked out by hand.
use schedules::{Amounts, Percentage, Published, Raised, Schedule};
use std::test::Fail;

// A base amount, a percentage, and the raised amount.
const CASES: &[(u64, u64, u64)] = &[
    (60_010, 5, 63_020),
    (60_000, 0, 60_000),
    // raising by nothing rounds too
    (60_001, 0, 60_010),
    (60_009, 0, 60_010),
    (64_000, 10, 70_400),
    (45_670, 50, 68_510),
    (0, 100, 0),
    (1, 0, 10),
    // the largest amount is the limit
    (999_999_999, 0, 1_000_000_000),
    (600_000_000, 100, 1_000_000_000),
];

#[test]
fn raised_amounts(rt: HostRuntime) -> Result<(), Fail> {
    for (i, (base, percent, raised)) in CASES.iter().enumerate() {
        let schedule = Raised {
            schedule: Published {
                amounts: Amounts::check([*base; 16])?,
            },
            by: Percentage::check(*percent)?,
        };
        assert_eq!(rt; schedule.amount(1), *raised, "{}", i);
    }
    Ok(())
}
