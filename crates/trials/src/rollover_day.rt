// A day on the book's own calls: a trade, its close-out by declaration, and the rollover after it. The figures are those of the
// example that the rules work out.
use book::{Book, Opening};
use closing::{ByAccount, Designated, Marks, OldestFirst};
use money::Yen;
use records::lots::{Lot, Slip};
use refusals::Refusal;
use report::MarginReport;
use rolling::Sheet;
use schedules::{Amounts, Published};
use std::test::Fail;

// A table of the first product's entry and of every other product's.
const fn table<T: Copy>(first: T, others: T) -> [T; 16] {
    let mut table = [others; 16];
    table[0] = first;
    table
}

#[test]
fn a_day_and_its_rollover(rt: HostRuntime) -> Result<(), Fail> {
    let mut lots = [Lot::EMPTY; 1_024];
    let mut slips = [Slip::EMPTY; 2_000];
    let mut book = Book::open(
        Opening::check(2, &table(150_000, 100_000), 1_024, 2_000)?,
        &mut lots,
        &mut slips,
    );
    let schedule = Published {
        amounts: Amounts::check(table(60_000, 0))?,
    };
    let mut marks = [0; 64];
    marks[1] = 1;
    let rule = ByAccount {
        marks: Marks::check(marks)?,
        first: OldestFirst,
        second: Designated,
    };
    assert_eq!(rt; book.deposit(2, 500_000), Ok(1));
    assert_eq!(rt; book.trade(&rule, 2, 1, 1, 3, 150_000), Ok(2));
    assert_eq!(rt; book.trade(&rule, 1, 2, 1, 1, 150_400), Ok(3));
    assert_eq!(rt; book.declare(&rule, 2, 1, 2, 3, 1), Ok(4));
    let sheet = Sheet {
        mark: 1,
        prices: table(151_000, 100_000),
        points: table(20, 0),
    };
    assert_eq!(rt; book.rollover(&sheet), Ok(5));
    let report = MarginReport {
        deposit: Yen(500_000),
        settled: Yen(4_000),
        unsettled: Yen(20_040),
        base: Yen(120_000),
        required: Yen(95_960),
        shortfall: Yen(0),
        withdrawable: Yen(384_000),
    };
    assert_eq!(rt; book.report(&schedule, 2), Ok(report));
    assert_eq!(rt;
        book.withdraw(&schedule, 2, 384_001),
        Err(Refusal::Withdrawable(384_000))
    );
    assert_eq!(rt; book.withdraw(&schedule, 2, 384_000), Ok(6));
    Ok(())
}
