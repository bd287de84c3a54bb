// Trades and declarations.
ghost use Rattle.std.specs.Prelude.{◌≡◌, ℕ, ◌+◌, true, false, is_ok};
ghost use Rattle.refusals.specs.Ranges.{first, answered};
ghost use Rattle.records.specs.declared.lots.Side.TheVariants.{Bought, Sold};
ghost use Rattle.pairing.specs.Pairs.{Asked};
ghost use Rattle.pairing.specs.Deals.{entered, bought_closed, dealt};
ghost use Rattle.book.specs.Calls.{trade_causes, declare_causes, few_places, named_lot, deal, traded, declared_pair, left_by};
ghost use Rattle.runs.specs.Calls.Call.{trade, declare};
ghost use Rattle.runs.specs.Whole.{Whole};
ghost use Rattle.book.specs.View.{view};

use crate::checks::{check_product, check_quantity};
use crate::state::Book;
use closing::ClosingRule;
use pairing::{Deal, Ledger, find};
use records::lots::Side;
use refusals::{Ranged, Refusal};

impl<'a> Book<'a> {
    // Whether under 2 lot places or 1,000 slip places are free.
    fn few_places(&self) -> bool
        ensures { result ≡ few_places (view self.now) }
    {
        let Ledger { lots, slips } = &self.ledger;
        lots.places() < lots.count() + 2 || slips.places() < slips.count() + 1_000
    }

    // The deal that a trade makes, or the first cause that refuses it.
    fn check_trade(
        &self,
        buyer: u64,
        seller: u64,
        product: u64,
        quantity: u64,
        price: u64,
    ) -> Result<Deal, Refusal>
        ensures { result ≡ answered (first (trade_causes (view self.now) buyer seller product quantity price)) (deal (view self.now) buyer seller product quantity price) }
    {
        let buyer = self.check_account(buyer)?;
        let seller = self.check_account(seller)?;
        let product = check_product(product)?;
        let quantity = check_quantity(quantity)?;
        if price.is_outside(1, 999_999) {
            return Err(Refusal::Figure);
        }
        if buyer == seller {
            return Err(Refusal::SameAccount);
        }
        let lots = self.open_lots();
        let more = u64::from(quantity);
        if lots.contracts(buyer, product, Side::Bought) + more > 500 {
            return Err(Refusal::PositionLimit(u64::from(buyer)));
        }
        if lots.contracts(seller, product, Side::Sold) + more > 500 {
            return Err(Refusal::PositionLimit(u64::from(seller)));
        }
        if self.few_places() {
            return Err(Refusal::Places);
        }
        self.check_entry()?;
        Ok(Deal {
            buyer,
            seller,
            product,
            quantity,
            price,
            entry: self.entries + 1,
        })
    }

    // The buyer gets a bought lot and the seller a sold one, and both are closed by the rule, each until it gives no pair.
    pub fn trade<R: ClosingRule>(
        &mut self,
        rule: &R,
        buyer: u64,
        seller: u64,
        product: u64,
        quantity: u64,
        price: u64,
    ) -> Result<u32, Refusal>
        ensures answer { result ≡ answered (first (trade_causes (view self.old) buyer seller product quantity price)) (self.old.entries + 1) }
        ensures left { view self.new ≡ left_by (first (trade_causes (view self.old) buyer seller product quantity price)) (traded (R.ClosingRule.meaning rule.now) (view self.old) buyer seller product quantity price) (view self.old) }
        ensures whole { Whole (trade (R.ClosingRule.meaning rule.now) buyer seller product quantity price) (view self.old) (view self.new) }
        ensures buyer_asked { is_ok result ≡ true → Asked (R.ClosingRule.meaning rule.now) buyer product (entered (deal (view self.old) buyer seller product quantity price) (view self.old).ledger) (bought_closed (R.ClosingRule.meaning rule.now) (deal (view self.old) buyer seller product quantity price) (view self.old).ledger) }
        ensures seller_asked { is_ok result ≡ true → Asked (R.ClosingRule.meaning rule.now) seller product (bought_closed (R.ClosingRule.meaning rule.now) (deal (view self.old) buyer seller product quantity price) (view self.old).ledger) (view self.new).ledger }
        ensures untouched { is_ok result ≡ false → self.new ≡ self.old }
    {
        let deal = self.check_trade(buyer, seller, product, quantity, price)?;
        self.ledger.enter(rule, &deal);
        self.entries += 1;
        Ok(self.entries)
    }

    // The pair that a declaration names, or the first cause that refuses it.
    fn check_declaration<R: ClosingRule>(
        &self,
        rule: &R,
        account: u64,
        product: u64,
        bought: u64,
        sold: u64,
        quantity: u64,
    ) -> Result<(usize, usize, u32), Refusal>
        ensures { result ≡ answered (first (declare_causes (R.ClosingRule.meaning rule.now) (view self.now) account product bought sold quantity)) (named_lot (view self.now) account product Bought bought, named_lot (view self.now) account product Sold sold, quantity) }
    {
        let account = self.check_account(account)?;
        let product = check_product(product)?;
        let quantity = check_quantity(quantity)?;
        let Ledger { lots, slips } = &self.ledger;
        if slips.places() <= slips.count() {
            return Err(Refusal::Places);
        }
        self.check_entry()?;
        if !rule.declares(account) {
            return Err(Refusal::NotDeclaring);
        }
        let lots = lots.all();
        let Some(b) = find(lots, account, product, Side::Bought, bought) else {
            return Err(Refusal::NoBoughtLot);
        };
        let Some(s) = find(lots, account, product, Side::Sold, sold) else {
            return Err(Refusal::NoSoldLot);
        };
        let least = lots[b].remaining.min(lots[s].remaining);
        if least < quantity {
            return Err(Refusal::Remainder(u64::from(least)));
        }
        Ok((b, s, quantity))
    }

    // Pairs a quantity of two lots that an account names by their entry numbers.
    pub fn declare<R: ClosingRule>(
        &mut self,
        rule: &R,
        account: u64,
        product: u64,
        bought: u64,
        sold: u64,
        quantity: u64,
    ) -> Result<u32, Refusal>
        ensures answer { result ≡ answered (first (declare_causes (R.ClosingRule.meaning rule.now) (view self.old) account product bought sold quantity)) (self.old.entries + 1) }
        ensures left { view self.new ≡ left_by (first (declare_causes (R.ClosingRule.meaning rule.now) (view self.old) account product bought sold quantity)) (declared_pair (view self.old) account product bought sold quantity) (view self.old) }
        ensures whole { Whole (declare (R.ClosingRule.meaning rule.now) account product bought sold quantity) (view self.old) (view self.new) }
        ensures untouched { is_ok result ≡ false → self.new ≡ self.old }
    {
        let (b, s, q) = self.check_declaration(rule, account, product, bought, sold, quantity)?;
        self.ledger.make_pair(b, s, q);
        self.entries += 1;
        Ok(self.entries)
    }
}
