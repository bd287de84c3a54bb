// A closing rule that is odd on purpose, to show that any rule that keeps the law may stand under the book: no proof of the
// book knows of it.
ghost use Rattle.std.specs.Prelude.{◌≡◌, ◌<◌, length, ℕ, IfNone, IfSome, EachIndex, false, true, slice_index_or};
ghost use Rattle.records.specs.Lots.{is_of, nobody};
ghost use Rattle.trials.specs.Odd.{odd};
ghost use Rattle.trials.specs.Lasts.{odd_lawful};

use closing::{ClosingRule, OldestFirst};
use records::lots::{Lot, Side};

// The newest bought lot with the oldest sold one, one contract at a time; accounts with an even number declare.
#[derive(Clone, Copy)]
struct Odd;

// The place of the newest bought lot. Its parameters are those by which a rule is asked, a rule of the project.
fn newest(lots: &[Lot], account: u32, product: u32) -> Option<usize>
    ensures none { IfNone result (EachIndex lots.now (λ k. is_of account product 0 (slice_index_or lots.now k nobody) ≡ false)) }
    ensures here { IfSome result (λ place. is_of account product 0 (slice_index_or lots.now place nobody) ≡ true) }
    ensures later { IfSome result (λ place. (k : ℕ) → place < k → k < length lots.now → is_of account product 0 (slice_index_or lots.now k nobody) ≡ false) }
    ensures within { IfSome result (λ place. place < length lots.now) }
{
    lots.iter()
        .rposition(|lot| lot.is_of(account, product, Side::Bought))
}

impl ClosingRule for Odd {
    ghost meaning = { λ _. odd };

    ghost lawful = { λ r. odd_lawful };

    fn declares(&self, account: u32) -> bool {
        account % 2 == 0
    }

    fn pair(&self, account: u32, product: u32, lots: &[Lot]) -> Option<(usize, usize, u32)> {
        let (_, sold, _) = OldestFirst.pair(account, product, lots)?;
        let bought = newest(lots, account, product)?;
        Some((bought, sold, 1))
    }
}

#[cfg(test)]
mod tests {
    use super::*;
    use book::{Book, Opening};
    use money::Yen;
    use records::lots::Slip;
    use refusals::Refusal;
    use schedules::{Amounts, Published};
    use std::test::Fail;

    // Account 1 buys 2 at 150,000 and 1 at 150,300, and sells 1 at 150,500, always against account 2. It closes its newest lot:
    // 10 × (150,500 − 150,300) = 2,000. Account 2 closes its newest bought lot against its oldest sold one:
    // 10 × (150,000 − 150,500) = −5,000, and keeps sold 1 at 150,000 and 1 at 150,300, worth 0 and 3,000.
    #[test]
    fn newest_goes_first(rt: HostRuntime) -> Result<(), Fail> {
        let mut lots = [Lot::EMPTY; 16];
        let mut slips = [Slip::EMPTY; 1000];
        let opening = Opening::check(2, &[150_000; 16], 16, 1000)?;
        let schedule = Published {
            amounts: Amounts::check([0; 16])?,
        };
        let mut book = Book::open(opening, &mut lots, &mut slips);
        assert_eq!(rt; book.trade(&Odd, 1, 2, 1, 2, 150_000), Ok(1));
        assert_eq!(rt; book.trade(&Odd, 1, 2, 1, 1, 150_300), Ok(2));
        assert_eq!(rt; book.trade(&Odd, 2, 1, 1, 1, 150_500), Ok(3));
        assert_eq!(rt; book.report(&schedule, 1)?.settled, Yen(2_000));
        assert_eq!(rt; book.report(&schedule, 1)?.unsettled, Yen(0));
        assert_eq!(rt; book.report(&schedule, 2)?.settled, Yen(-5_000));
        assert_eq!(rt; book.report(&schedule, 2)?.unsettled, Yen(3_000));
        assert_eq!(rt;
            book.declare(&Odd, 1, 1, 1, 3, 1),
            Err(Refusal::NotDeclaring)
        );
        assert_eq!(rt;
            book.declare(&Odd, 2, 1, 3, 1, 1),
            Err(Refusal::NoBoughtLot)
        );
        Ok(())
    }
}
