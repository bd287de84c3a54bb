// Schedules of base amounts: what is asked in yen for one open contract of a product.
#![tactic(auto)]

ghost use Rattle.std.specs.Prelude.{◌≡◌, ℕ, ◌*◌, ◌≤◌, if◌then◌else◌, Ok, Err, slice_index};
ghost use Rattle.refusals.specs.declared.Refusal.TheVariants.{BaseAmount};
ghost use Rattle.refusals.specs.Ranges.{outside, any, accepted_as};
ghost use Rattle.schedules.specs.Amounts.{Scheduled, LeastThousandths, published, raised, larger, thousandths_up, largest_amount, largest_percentage};
ghost use Rattle.schedules.specs.Kept.{published_scheduled, raised_scheduled, larger_scheduled};

use refusals::{Ranged, Refusal, any_outside};
use tables::numbered;

const LARGEST_AMOUNT: u64 = 1_000_000_000;

const LARGEST_PERCENTAGE: u64 = 100;

// A base amount for each product.
pub type AmountTable = [u64; 16];

// Sixteen base amounts, each within its range: a type of their own, beside prices and points, which have other limits.
#[derive(Clone, Copy)]
pub struct Amounts {
    table: AmountTable,
    ghost most: { (k : ℕ) → slice_index table k ≤ largest_amount },
}

// By how much a schedule is raised.
#[derive(Clone, Copy)]
pub struct Percentage {
    percent: u64,
    ghost most: { percent ≤ largest_percentage },
}

impl Amounts {
    // The amounts of a table, or a refusal where one is out of range. Amounts are checked first, by a call that may refuse,
    // and made by one that cannot: a rule of the project. The check of marks is alike, and says why both stay.
    pub fn check(table: AmountTable) -> Result<Amounts, Refusal>
        ensures { accepted_as (λ a. a.table) result ≡ (if any (outside 0 largest_amount) table then Err BaseAmount else Ok table) }
    {
        if any_outside(0, LARGEST_AMOUNT, &table) {
            return Err(Refusal::BaseAmount);
        }
        Ok(Amounts { table })
    }
}

impl Percentage {
    // A percentage, or a refusal where it is out of range: checked first, as amounts are.
    pub fn check(percent: u64) -> Result<Percentage, Refusal>
        ensures { accepted_as (λ p. p.percent) result ≡ (if outside 0 largest_percentage percent then Err BaseAmount else Ok percent) }
    {
        if percent.is_outside(0, LARGEST_PERCENTAGE) {
            return Err(Refusal::BaseAmount);
        }
        Ok(Percentage { percent })
    }
}

// A schedule means one base amount a product, fixed while a book lives.
pub trait Schedule {
    ghost base: { Self → ℕ → ℕ };

    // The base amount of a contract of a product.
    fn amount(&self, product: u32) -> u64
        ensures { result ≡ base self.now product };

    ghost scheduled: { (s : Self) → Scheduled (base s) };
}

// The published schedule: sixteen amounts.
#[derive(Clone, Copy)]
pub struct Published {
    pub amounts: Amounts,
}

// A schedule raised by some percent, rounded up to ten yen.
#[derive(Clone, Copy)]
pub struct Raised<S> {
    pub schedule: S,
    pub by: Percentage,
}

// The larger amount of two schedules.
#[derive(Clone, Copy)]
pub struct Larger<A, B> {
    pub one: A,
    pub two: B,
}

// The least whole number not below n ÷ 1,000.
fn thousandths_up(n: u64) -> u64
    requires { n ≤ 200000000000 }
    ensures up { result ≡ thousandths_up n }
    ensures least { LeastThousandths n result }
{
    n.div_ceil(1_000)
}

impl Schedule for Published {
    ghost base = { λ s. published s.amounts.table };

    ghost scheduled = { λ s. published_scheduled s.amounts.table s.amounts.most };

    fn amount(&self, product: u32) -> u64 {
        numbered(&self.amounts.table, product).unwrap_or(0)
    }
}

impl<S: Schedule> Schedule for Raised<S> {
    ghost base = { λ s. raised s.by.percent (S.Schedule.base s.schedule) };

    ghost scheduled = { λ s. raised_scheduled s.by.percent (S.Schedule.base s.schedule) (S.Schedule.scheduled s.schedule) };

    fn amount(&self, product: u32) -> u64 {
        let hundredths = self.schedule.amount(product) * (100 + self.by.percent);
        (10 * thousandths_up(hundredths)).min(LARGEST_AMOUNT)
    }
}

impl<A: Schedule, B: Schedule> Schedule for Larger<A, B> {
    ghost base = { λ s. larger (A.Schedule.base s.one) (B.Schedule.base s.two) };

    ghost scheduled = { λ s. larger_scheduled (A.Schedule.base s.one) (B.Schedule.base s.two) (A.Schedule.scheduled s.one) (B.Schedule.scheduled s.two) };

    fn amount(&self, product: u32) -> u64 {
        self.one.amount(product).max(self.two.amount(product))
    }
}
