// Opening: a check that may refuse, then a making that cannot.
ghost use Rattle.std.specs.Prelude.{◌≡◌, length};
ghost use Rattle.refusals.specs.Ranges.{accepted_as};
ghost use Rattle.book.specs.Opening.{outside_limits, checked, over_places, opened};
ghost use Rattle.runs.specs.Whole.{WholeOpened};
ghost use Rattle.book.specs.View.{view, terms};

use crate::state::{Book, Opening};
use money::{PriceTable, Prices};
use pairing::Ledger;
use records::list::RecordList;
use records::lots::{Lot, Slip};
use refusals::{Ranged, Refusal, any_outside};
use rolling::Balance;

// Whether accounts or places are out of range. `as`: std has no `From` from usize to u64, nor, below, from u64 to u32.
fn outside_limits(accounts: u64, lot_places: usize, slip_places: usize) -> bool
    ensures { result ≡ outside_limits accounts lot_places slip_places }
{
    accounts.is_outside(1, 64)
        || (lot_places as u64).is_outside(2, 4_096)
        || (slip_places as u64).is_outside(1_000, 8_192)
}

impl Opening {
    // What a book is opened with, or the first cause that refuses it: an opening is a check that may refuse, then a making
    // that cannot, a rule of the project.
    pub fn check(
        accounts: u64,
        prices: &PriceTable,
        lot_places: usize,
        slip_places: usize,
    ) -> Result<Opening, Refusal>
        ensures { accepted_as terms result ≡ checked (record { accounts = accounts; prices = prices.now; lot_places = lot_places; slip_places = slip_places }) }
    {
        if outside_limits(accounts, lot_places, slip_places) {
            return Err(Refusal::Opening);
        }
        if any_outside(1, 999_999, prices) {
            return Err(Refusal::Figure);
        }
        Ok(Opening {
            accounts: accounts as u32,
            prices: Prices { table: *prices },
            lot_places,
            slip_places,
        })
    }
}

impl<'a> Book<'a> {
    // A fresh book over lent places: no lot, no slip, 0 yen everywhere. It takes as many places as the opening
    // says, or all where fewer are lent.
    pub fn open(opening: Opening, lots: &'a mut [Lot], slips: &'a mut [Slip]) -> Book<'a>
        ensures opened { view result ≡ opened (over_places (terms opening) (length lots.old) (length slips.old)) }
        ensures whole { WholeOpened (terms opening) (view result) }
    {
        let Opening {
            accounts,
            prices,
            lot_places,
            slip_places,
        } = opening;
        let lots = RecordList::over(lots, lot_places);
        let slips = RecordList::over(slips, slip_places);
        Book {
            accounts,
            prices,
            ledger: Ledger { lots, slips },
            balances: [Balance::ZERO; 64],
            entries: 0,
        }
    }
}
