// The figures of a report, over the lots and slips of a book.
#![tactic(auto)]

ghost use Rattle.std.specs.Prelude.{◌≡◌, ℕ, ◌*◌, ◌≤◌, ◌&&◌, List, length, ℤ, pos, ◌+ℤ◌, ◌-ℤ◌, if◌then◌else◌, ◌==◌, nat_eq, unsigned_abs};
ghost use Rattle.money.specs.Sums.{sum_to};
ghost use Rattle.money.specs.Products.{of_product, converted};
ghost use Rattle.records.specs.Lots.{column, held, slip_sum, open_worth, lot_worth, gain};
ghost use Rattle.report.specs.Sound.{LotSound, LotsSound, SlipsSound};
ghost use Rattle.report.specs.Report.{base_in_product, base_of, figures, open_loss, required_of, shortfall_of, withdrawable_of};

use money::{Prices, Yen, times, worth_of_move};
use records::lots::{Lot, Side, Slip};
use records::sum::total;
use schedules::Schedule;

// The seven figures of an account.
#[derive(Clone, Copy, PartialEq, Eq, Debug)]
pub struct MarginReport {
    pub deposit: Yen,
    pub settled: Yen,
    pub unsettled: Yen,
    pub base: Yen,
    pub required: Yen,
    pub shortfall: Yen,
    pub withdrawable: Yen,
}

// Open lots, few enough and each within its bounds, so that every sum over them fits. This view and the next stay two
// types: what is sound differs, and one generic view, tried, has no proposition for its parameter's soundness.
#[derive(Drop)]
pub struct OpenLots<'a> {
    pub lots: &'a [Lot],
    ghost few: { length lots.now ≤ 8192 },
    ghost sound: { LotsSound 20000 lots.now },
}

// Today's slips, few enough and each within its bounds, so that every sum over them fits.
#[derive(Drop)]
pub struct TodaysSlips<'a> {
    pub slips: &'a [Slip],
    ghost few: { length slips.now ≤ 8192 },
    ghost sound: { SlipsSound slips.now },
}

// Records whose worth is converted into yen, product by product.
pub trait Valued {
    // what the records of an account and a product are worth at the latest prices, in the product's money
    ghost worth: { Self → List ℕ → ℕ → ℕ → ℤ };
    // how many records there are
    ghost count: { Self → ℕ };

    ghost counted: { (s : Self) → count s ≤ 8192 };

    fn worth_of(&self, prices: &Prices, account: u32, product: u32) -> i64
        ensures worth { result ≡ worth self.now prices.now.table account product }
        ensures few { unsigned_abs result ≤ 1000000000000 * count self.now };
}

impl<'a> Valued for TodaysSlips<'a> {
    ghost worth = { λ s prices a p. slip_sum a p s.slips.now };

    ghost count = { λ s. length s.slips.now };

    ghost counted = { λ s. s.few };

    fn worth_of(&self, prices: &Prices, account: u32, product: u32) -> i64 {
        total(self.slips, account, product, 0)
    }
}

impl<'a> Valued for OpenLots<'a> {
    ghost worth = { λ l prices a p. open_worth (of_product prices p) a p l.lots.now };

    ghost count = { λ l. length l.lots.now };

    ghost counted = { λ l. l.few };

    fn worth_of(&self, prices: &Prices, account: u32, product: u32) -> i64 {
        self.worth_at(prices.of(product), account, product)
    }
}

// What the price's move brought one contract of a lot. A price's limit stays a `requires` of these four: a type of prices
// would be wrapped for each lot, whose own price is a plain number, since the definitions make lots.
#[tactic(auto, using(crate::specs::Amounts::move_of_product_few))]
fn gain_at(lot: &Lot, price: u64) -> i64
    requires made_at { lot.now.price ≤ 999999 }
    requires price { price ≤ 999999 }
    ensures gain { result ≡ gain price lot.now }
    ensures few { unsigned_abs result ≤ 999999000 }
{
    match lot.side {
        Side::Bought => worth_of_move(lot.product, lot.price, price),
        Side::Sold => worth_of_move(lot.product, price, lot.price),
    }
}

// What a lot is worth at a price.
fn worth_at(lot: &Lot, price: u64) -> i64
    requires sound { LotSound 20000 lot.now }
    requires price { price ≤ 999999 }
    ensures worth { result ≡ lot_worth price lot.now }
    ensures few { unsigned_abs result ≤ 1000000000000 }
{
    times(i64::from(lot.remaining), gain_at(lot, price) + lot.points)
}

// The same where account and product are those asked for, else 0.
fn worth_of(lot: &Lot, price: u64, account: u32, product: u32) -> i64
    requires sound { LotSound 20000 lot.now }
    requires price { price ≤ 999999 }
    ensures worth { result ≡ (if nat_eq lot.now.account account && lot.now.product == product then lot_worth price lot.now else pos 0) }
    ensures few { unsigned_abs result ≤ 1000000000000 }
{
    if lot.account == account && lot.product == product {
        worth_at(lot, price)
    } else {
        0
    }
}

impl<'a> OpenLots<'a> {
    // Contracts in a column of the one sum, a number (a rule of the project), that an account holds open in a product. `as`:
    // std has no `From` from i64 to u64.
    #[tactic(auto, using(crate::proofs::Holdings::held_is, crate::proofs::Holdings::open_held_few))]
    pub fn contracts_in(&self, account: u32, product: u32, column: u32) -> u64
        ensures held { result ≡ held column account product self.now.lots.now }
        ensures few { result ≤ 500 * length self.now.lots.now }
    {
        total(self.lots, account, product, column) as u64
    }

    // Contracts of a side that an account holds open in a product.
    pub fn contracts(&self, account: u32, product: u32, side: Side) -> u64
        ensures held { result ≡ held (column side) account product self.now.lots.now }
        ensures few { result ≤ 500 * length self.now.lots.now }
    {
        self.contracts_in(account, product, side.column())
    }

    // What the open lots of an account and product are worth at a price.
    fn worth_at(&self, price: u64, account: u32, product: u32) -> i64
        requires { price ≤ 999999 }
        ensures worth { result ≡ open_worth price account product self.now.lots.now }
        ensures few { unsigned_abs result ≤ 1000000000000 * length self.now.lots.now }
    {
        let mut sum: i64 = 0;
        for lot in self.lots {
            sum += worth_of(lot, price, account, product);
        }
        sum
    }

    // The base amount of an account's lots of a product. `as`: std has no `From` from u64 to i64.
    fn base_in_product<S: Schedule>(&self, schedule: &S, account: u32, product: u32) -> i64
        ensures yen { result ≡ base_in_product (S.Schedule.base schedule.now) account self.now.lots.now product }
        ensures most { unsigned_abs result ≤ 500000000000 * length self.now.lots.now }
    {
        let bought = self.contracts(account, product, Side::Bought);
        let sold = self.contracts(account, product, Side::Sold);
        (schedule.amount(product) * bought.max(sold)) as i64
    }

    // The base amount of an account. A loop stays here and in `in_yen`: a closure would have to be told each term's bound.
    #[tactic(auto, using(crate::specs::Amounts::sum_none))]
    pub fn base_in_yen<S: Schedule>(&self, schedule: &S, account: u32) -> Yen
        ensures yen { result.0 ≡ base_of (S.Schedule.base schedule.now) account self.now.lots.now }
        ensures most { unsigned_abs result.0 ≤ 8000000000000 * length self.now.lots.now }
    {
        let mut sum: i64 = 0;
        for product in 1..=16 {
            sum += self.base_in_product(schedule, account, product);
        }
        Yen(sum)
    }
}

// The records of an account in yen: each product's worth is converted once, and these are added.
#[tactic(auto, using(crate::specs::Amounts::sum_none))]
pub fn in_yen<T: Valued>(prices: &Prices, records: &T, account: u32) -> Yen
    ensures yen { result.0 ≡ sum_to (λ p. converted prices.now.table p (T.Valued.worth records.now prices.now.table account p)) 16 }
    ensures most { unsigned_abs result.0 ≤ 1600000000000000000 }
{
    let mut sum: i64 = 0;
    for product in 1..=16 {
        let worth = records.worth_of(prices, account, product);
        sum += prices.to_yen(product, worth).0;
    }
    Yen(sum)
}

// What an account stands at: all that its report is drawn from.
#[derive(Clone, Copy)]
pub struct Standing {
    pub deposit: Yen,
    pub settled: Yen,
    pub unsettled: Yen,
    pub base: Yen,
    ghost deposit_fits: { unsigned_abs deposit.0 ≤ 1000000000000000000 },
    ghost settled_fits: { unsigned_abs settled.0 ≤ 3000000000000000000 },
    ghost unsettled_fits: { unsigned_abs unsettled.0 ≤ 2000000000000000000 },
    ghost base_fits: { unsigned_abs base.0 ≤ 2000000000000000000 },
}

impl Standing {
    fn required(&self) -> i64
        ensures required { result ≡ required_of self.now.settled.0 self.now.unsettled.0 self.now.base.0 }
        ensures most { unsigned_abs result ≤ 7000000000000000000 }
    {
        self.base.0 - self.settled.0 - self.unsettled.0
    }

    // What is lacking of what is required.
    fn shortfall(&self) -> i64
        ensures { result ≡ pos (shortfall_of self.now.deposit.0 self.now.settled.0 self.now.unsettled.0 self.now.base.0) }
    {
        (self.required() - self.deposit.0).max(0)
    }

    // The loss in the open lots, if any.
    fn open_loss(&self) -> i64
        ensures loss { result ≡ pos (open_loss self.now.unsettled.0) }
        ensures most { unsigned_abs result ≤ 2000000000000000000 }
    {
        (-self.unsettled.0).max(0)
    }

    // What the base amount leaves free: an open loss is taken off, an open gain is not paid out.
    fn free(&self) -> i64
        ensures free { result ≡ self.now.deposit.0 +ℤ self.now.settled.0 -ℤ self.now.base.0 -ℤ pos (open_loss self.now.unsettled.0) }
        ensures most { unsigned_abs result ≤ 8000000000000000000 }
    {
        (self.deposit.0 + self.settled.0) - (self.base.0 + self.open_loss())
    }

    // What may be withdrawn.
    fn withdrawable(&self) -> i64
        ensures { result ≡ pos (withdrawable_of self.now.deposit.0 self.now.settled.0 self.now.unsettled.0 self.now.base.0) }
    {
        let free = self.free();
        self.deposit.0.min(free).max(0)
    }

    // The seven figures.
    pub fn report(&self) -> MarginReport
        ensures { result ≡ figures self.now.deposit.0 self.now.settled.0 self.now.unsettled.0 self.now.base.0 }
    {
        MarginReport {
            deposit: self.deposit,
            settled: self.settled,
            unsettled: self.unsettled,
            base: self.base,
            required: Yen(self.required()),
            shortfall: Yen(self.shortfall()),
            withdrawable: Yen(self.withdrawable()),
        }
    }
}
