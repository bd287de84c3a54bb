// What a book keeps. Its invariant stands in its type.
ghost use Rattle.std.specs.Prelude.{◌≡◌, ℕ, ◌≤◌, false};
ghost use Rattle.refusals.specs.Ranges.{any};
ghost use Rattle.records.specs.Lists.{items, room};
ghost use Rattle.report.specs.Sound.{LotsSound, LotsKnown, SlipsSound, SlipsKnown, Funded};
ghost use Rattle.rolling.specs.Balances.{deposits, first_waiting, second_waiting};
ghost use Rattle.runs.specs.Opening.{outside_limits, bad_price};

use money::Prices;
use pairing::Ledger;
use rolling::Balances;

// What a book is opened with, checked: nothing of it is out of range.
#[derive(Clone, Copy)]
pub struct Opening {
    pub(crate) accounts: u32,
    pub(crate) prices: Prices,
    pub(crate) lot_places: usize,
    pub(crate) slip_places: usize,
    ghost peopled: { (1 ≤ accounts) × (accounts ≤ 64) },
    ghost lotroom: { lot_places ≤ 4096 },
    ghost sliproom: { slip_places ≤ 8192 },
    ghost limited: { outside_limits accounts lot_places slip_places ≡ false },
    ghost tested: { any bad_price prices.table ≡ false },
}

// The margin accounts of up to 64 accounts: the latest prices, the open lots and today's slips in lent places,
// each account's balance, and how many entry numbers are taken.
#[derive(Drop)]
pub struct Book<'a> {
    pub(crate) accounts: u32,
    pub(crate) prices: Prices,
    pub(crate) ledger: Ledger<'a>,
    pub(crate) balances: Balances,
    pub(crate) entries: u32,
    ghost peopled: { (1 ≤ accounts) × (accounts ≤ 64) },
    ghost taken: { entries ≤ 20000 },
    ghost lotroom: { room ledger.lots ≤ 4096 },
    ghost sliproom: { room ledger.slips ≤ 8192 },
    ghost lotsound: { LotsSound entries (items ledger.lots) },
    ghost lotsknown: { LotsKnown accounts (items ledger.lots) },
    ghost slipsound: { SlipsSound (items ledger.slips) },
    ghost slipsknown: { SlipsKnown accounts (items ledger.slips) },
    ghost funded: { Funded entries (deposits balances) (first_waiting balances) (second_waiting balances) (items ledger.lots) (items ledger.slips) },
}
