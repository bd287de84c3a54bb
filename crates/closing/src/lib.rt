// Closing rules: which accounts declare, and which pair of open lots is closed next.
#![tactic(auto)]

ghost use Rattle.std.specs.Prelude.{◌≡◌, ℕ, ◌+◌, ◌-◌, ◌≤◌, length, if◌then◌else◌, Ok, Err};
ghost use Rattle.std.specs.List.{position};
ghost use Rattle.refusals.specs.declared.Refusal.TheVariants.{Mark};
ghost use Rattle.refusals.specs.Ranges.{outside, any, accepted_as};
ghost use Rattle.records.specs.Lots.{column, is_of};
ghost use Rattle.closing.specs.Rules.{Rule, Lawful, oldest_first, designated, by_account};
ghost use Rattle.closing.specs.Choices.{choice};
ghost use Rattle.closing.specs.Pairs.{oldest_lawful, designated_lawful, by_account_lawful};

use records::lots::{Lot, Side};
use refusals::{Refusal, any_outside};
use tables::numbered;

// A rule. It is asked for an account, a product and the open lots. A pair is the place of a bought lot, the place of a sold
// lot, and a quantity: both are rules of the project. A question alters nothing.
pub trait ClosingRule {
    ghost meaning: { Self → Rule };

    // Whether an account declares its close-outs.
    fn declares(&self, account: u32) -> bool
        ensures { result ≡ (meaning self.now).declares account };

    // The next pair of an account and a product among the open lots, oldest first.
    fn pair(&self, account: u32, product: u32, lots: &[Lot]) -> Option<(usize, usize, u32)>
        ensures { result ≡ (meaning self.now).pairing account product lots.now };

    ghost lawful: { (r : Self) → Lawful (meaning r) };
}

// No account declares; the oldest bought lot goes with the oldest sold one.
#[derive(Clone, Copy)]
pub struct OldestFirst;

// Every account declares; there is never a pair.
#[derive(Clone, Copy)]
pub struct Designated;

// A mark for each of 64 accounts: a number, since another than 0 and 1 is refused, a rule of the project.
pub type MarkTable = [u64; 64];

// Which of two rules an account goes by.
enum Choice {
    First,
    Second,
}

// Marks, each 0 or 1.
#[derive(Clone, Copy)]
pub struct Marks {
    table: MarkTable,
}

// Each account goes by the rule that its mark names: 0 the first, 1 the second.
#[derive(Clone, Copy)]
pub struct ByAccount<F, S> {
    pub marks: Marks,
    pub first: F,
    pub second: S,
}

// The place of the oldest lot of a side, if there is one.
fn oldest(lots: &[Lot], account: u32, product: u32, side: Side) -> Option<usize>
    ensures { result ≡ position (is_of account product (column side)) lots.now }
{
    lots.iter()
        .position(|lot| lot.is_of(account, product, side))
}

impl ClosingRule for OldestFirst {
    ghost meaning = { λ _. oldest_first };

    ghost lawful = { λ r. oldest_lawful };

    fn declares(&self, _account: u32) -> bool {
        false
    }

    fn pair(&self, account: u32, product: u32, lots: &[Lot]) -> Option<(usize, usize, u32)> {
        let bought = oldest(lots, account, product, Side::Bought)?;
        let sold = oldest(lots, account, product, Side::Sold)?;
        let quantity = lots[bought].remaining.min(lots[sold].remaining);
        Some((bought, sold, quantity))
    }
}

impl ClosingRule for Designated {
    ghost meaning = { λ _. designated };

    ghost lawful = { λ r. designated_lawful };

    fn declares(&self, _account: u32) -> bool {
        true
    }

    fn pair(&self, _account: u32, _product: u32, _lots: &[Lot]) -> Option<(usize, usize, u32)> {
        None
    }
}

impl Marks {
    // The marks of a table, or a refusal where one is neither 0 nor 1. Marks are checked first, by a call that may refuse,
    // and made by one that cannot: a rule of the project. The check of base amounts is alike but for limits, cause and type:
    // one function would be told all three and how to make the type, and be no plainer.
    pub fn check(table: MarkTable) -> Result<Marks, Refusal>
        ensures { accepted_as (λ m. m.table) result ≡ (if any (outside 0 1) table then Err Mark else Ok table) }
    {
        if any_outside(0, 1, &table) {
            return Err(Refusal::Mark);
        }
        Ok(Marks { table })
    }

    // The rule that an account goes by; none for an account that is not 1 to 64.
    fn choice(&self, account: u32) -> Option<Choice>
        ensures { result ≡ choice self.now.table account }
    {
        match numbered(&self.table, account)? {
            0 => Some(Choice::First),
            _ => Some(Choice::Second),
        }
    }
}

impl<F: ClosingRule, S: ClosingRule> ClosingRule for ByAccount<F, S> {
    ghost meaning = { λ r. by_account r.marks.table (F.ClosingRule.meaning r.first) (S.ClosingRule.meaning r.second) };

    ghost lawful = { λ r.
        by_account_lawful r.marks.table (F.ClosingRule.meaning r.first) (S.ClosingRule.meaning r.second)
        (F.ClosingRule.lawful r.first) (S.ClosingRule.lawful r.second) };

    fn declares(&self, account: u32) -> bool {
        match self.marks.choice(account) {
            Some(Choice::First) => self.first.declares(account),
            Some(Choice::Second) => self.second.declares(account),
            None => false,
        }
    }

    fn pair(&self, account: u32, product: u32, lots: &[Lot]) -> Option<(usize, usize, u32)> {
        match self.marks.choice(account)? {
            Choice::First => self.first.pair(account, product, lots),
            Choice::Second => self.second.pair(account, product, lots),
        }
    }
}
