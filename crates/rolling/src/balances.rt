// Balances of accounts, and what a new day does to them.
ghost use Rattle.std.specs.Prelude.{◌≡◌, ◌≤◌, [], length, unsigned_abs};
ghost use Rattle.std.specs.List.{AllByRecursion};
ghost use Rattle.records.specs.Lists.{items, room};
ghost use Rattle.report.specs.Sound.{SlipsSound};
ghost use Rattle.rolling.specs.Sheets.{rolled_at};
ghost use Rattle.rolling.specs.Balances.{money, rolled_balance, HasRoom};

use money::{Prices, Yen};
use records::list::RecordList;
use records::lots::Slip;
use report::{TodaysSlips, in_yen};

// What an account has, and its two waiting amounts: what it closed earlier and has not got yet.
#[derive(Clone, Copy, PartialEq, Eq, Debug)]
pub struct Balance {
    pub deposit: Yen,
    pub waiting_one: Yen,
    pub waiting_two: Yen,
}

// The balance of each of 64 accounts.
pub type Balances = [Balance; 64];

impl Balance {
    pub const ZERO: Balance = Balance {
        deposit: Yen(0),
        waiting_one: Yen(0),
        waiting_two: Yen(0),
    };

    // The balance on the new day: what today's slips came to waits, and on a bank day what waits moves on.
    fn rolled(self, today: Yen, is_bank_day: bool) -> Balance
        requires roomy { HasRoom self }
        requires few { unsigned_abs today.0 ≤ 4000000000000000000 }
        ensures { result ≡ rolled_balance is_bank_day today.0 self }
    {
        let waiting_two = Yen(self.waiting_two.0 + today.0);
        if is_bank_day {
            Balance {
                deposit: Yen(self.deposit.0 + self.waiting_one.0),
                waiting_one: waiting_two,
                waiting_two: Yen(0),
            }
        } else {
            Balance {
                waiting_two,
                ..self
            }
        }
    }
}

// Each account's slips go to its second waiting amount, and all slips are cleared. On a bank day the first waiting
// amounts then go to the deposits, the second become the first, and the second become 0. `as`: there are 64 balances.
pub fn settle(
    prices: &Prices,
    is_bank_day: bool,
    slips: &mut RecordList<'_, Slip>,
    balances: &mut Balances,
)
    requires few { length (items slips.old) ≤ 8192 }
    requires sound { SlipsSound (items slips.old) }
    requires roomy { AllByRecursion HasRoom balances.old }
    ensures money { money balances.new ≡ rolled_at prices.now.table is_bank_day (items slips.old) (money balances.old) }
    ensures cleared { items slips.new ≡ [] }
    ensures room { room slips.new ≡ room slips.old }
{
    let today = TodaysSlips { slips: slips.all() };
    for (k, balance) in balances.iter_mut().enumerate() {
        let due = in_yen(prices, &today, k as u32 + 1);
        *balance = balance.rolled(due, is_bank_day);
    }
    slips.clear();
}
