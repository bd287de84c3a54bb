// Pairs of lots, the closing of an account by a rule, and the two lots of a trade.
#![tactic(auto)]

ghost use Rattle.std.specs.Prelude.{◌≡◌, ℕ, ◌+◌, ◌<◌, ◌≤◌, length};
ghost use Rattle.std.specs.List.{AllByRecursion, position};
ghost use Rattle.records.specs.Lists.{items, room};
ghost use Rattle.records.specs.Lots.{held};
ghost use Rattle.closing.specs.Rules.{lot_at};
ghost use Rattle.report.specs.Sound.{LotSound};
ghost use Rattle.pairing.specs.Kept.{kept};
ghost use Rattle.pairing.specs.Pairs.{LotFine, slip_of, reduced, still_open, paired, closed, least_held};
ghost use Rattle.pairing.specs.Deals.{new_lot, entered, dealt, is_lot};

use closing::ClosingRule;
use money::{times, worth_of_move};
use records::list::RecordList;
use records::lots::{Lot, Side, Slip};

// The open lots and today's slips, oldest first. Their bounds are no part of this type: a pair asks only that its own two lots
// are within theirs, so bounds on all lots would ask more of callers. The book keeps narrower ones, which grow with its
// entry numbers.
#[derive(Drop)]
pub struct Ledger<'a> {
    pub lots: RecordList<'a, Lot>,
    pub slips: RecordList<'a, Slip>,
}

// A trade that nothing refuses. Its price is a plain number, as a lot's is, and `enter` asks for the limit: the definitions make
// lots of deals.
#[derive(Clone, Copy)]
pub struct Deal {
    pub buyer: u32,
    pub seller: u32,
    pub product: u32,
    pub quantity: u32,
    pub price: u64,
    pub entry: u32,
}

// The slip of some contracts of a bought and a sold lot.
fn slip(bought: &Lot, sold: &Lot, quantity: u32) -> Slip
    requires bought { LotFine 20000 bought.now }
    requires sold { LotFine 20000 sold.now }
    requires few { quantity ≤ 500 }
    ensures { result ≡ slip_of bought.now sold.now quantity }
{
    let each = worth_of_move(bought.product, bought.price, sold.price)
        + (bought.points + sold.points);
    Slip {
        account: bought.account,
        product: bought.product,
        bought: bought.entry,
        sold: sold.entry,
        quantity,
        worth: times(i64::from(quantity), each),
    }
}

// Takes contracts from the lot at a place.
fn reduce(lots: &mut RecordList<'_, Lot>, place: usize, quantity: u32)
    ensures items { items lots.new ≡ reduced (items lots.old) place quantity }
    ensures room { room lots.new ≡ room lots.old }
{
    if let Some(lot) = lots.get(place) {
        let remaining = lot.remaining.saturating_sub(quantity);
        lots.replace(place, Lot { remaining, ..lot });
    }
}

// Lots with nothing remaining leave.
fn sweep(lots: &mut RecordList<'_, Lot>)
    ensures items { items lots.new ≡ still_open (items lots.old) }
    ensures room { room lots.new ≡ room lots.old }
{
    lots.retain(|lot| lot.remaining != 0);
}

impl Deal {
    fn lot(&self, account: u32, side: Side) -> Lot
        ensures { result ≡ new_lot account side self.now }
    {
        Lot {
            account,
            product: self.product,
            side,
            entry: self.entry,
            remaining: self.quantity,
            price: self.price,
            points: 0,
        }
    }
}

impl<'a> Ledger<'a> {
    // Takes contracts from a bought and a sold lot, and writes their slip.
    pub fn make_pair(&mut self, bought: usize, sold: usize, quantity: u32)
        requires bought { bought < length (items self.old.lots) }
        requires sold { sold < length (items self.old.lots) }
        requires few { quantity ≤ 500 }
        requires bought_fine { LotFine 20000 (lot_at (items self.old.lots) bought) }
        requires sold_fine { LotFine 20000 (lot_at (items self.old.lots) sold) }
        requires slip_free { length (items self.old.slips) < room self.old.slips }
        ensures made { kept self.new ≡ paired (kept self.old) bought sold quantity }
        ensures lot_room { room self.new.lots ≡ room self.old.lots }
        ensures slip_room { room self.new.slips ≡ room self.old.slips }
    {
        let lots = self.lots.all();
        let written = slip(&lots[bought], &lots[sold], quantity);
        let _ = self.slips.add(written);
        reduce(&mut self.lots, bought, quantity);
        reduce(&mut self.lots, sold, quantity);
        sweep(&mut self.lots);
    }

    // Asks the rule for an account and a product until it gives no pair, and makes each pair. A pair is two places and a
    // quantity, a rule of the project.
    fn close<R: ClosingRule>(&mut self, rule: &R, account: u32, product: u32)
        requires sound { AllByRecursion (LotSound 20000) (items self.old.lots) }
        requires few { least_held account product (items self.old.lots) ≤ 500 }
        requires roomy { length (items self.old.slips) + least_held account product (items self.old.lots) ≤ room self.old.slips }
        ensures closed { kept self.new ≡ closed (R.ClosingRule.meaning rule.now) 500 account product (kept self.old) }
        ensures lot_room { room self.new.lots ≡ room self.old.lots }
        ensures slip_room { room self.new.slips ≡ room self.old.slips }
    {
        while let Some((bought, sold, quantity)) = rule.pair(account, product, self.lots.all()) {
            self.make_pair(bought, sold, quantity);
        }
    }

    // Gives the buyer a bought lot, then the seller a sold one, last in the list.
    fn add_deal(&mut self, deal: &Deal)
        requires { length (items self.old.lots) + 2 ≤ room self.old.lots }
        ensures entered { kept self.new ≡ entered deal.now (kept self.old) }
        ensures lot_room { room self.new.lots ≡ room self.old.lots }
        ensures slips { self.new.slips ≡ self.old.slips }
    {
        let _ = self.lots.add(deal.lot(deal.buyer, Side::Bought));
        let _ = self.lots.add(deal.lot(deal.seller, Side::Sold));
    }

    // Gives the buyer a bought lot and the seller a sold one, and closes both by the rule, each until it gives no pair.
    pub fn enter<R: ClosingRule>(&mut self, rule: &R, deal: &Deal)
        requires sound { AllByRecursion (LotSound 20000) (items self.old.lots) }
        requires some { 1 ≤ deal.now.quantity }
        requires priced { deal.now.price ≤ 999999 }
        requires buys { held 0 deal.now.buyer deal.now.product (items self.old.lots) + deal.now.quantity ≤ 500 }
        requires sells { held 1 deal.now.seller deal.now.product (items self.old.lots) + deal.now.quantity ≤ 500 }
        requires lots_free { length (items self.old.lots) + 2 ≤ room self.old.lots }
        requires slips_free { length (items self.old.slips) + 1000 ≤ room self.old.slips }
        ensures dealt { kept self.new ≡ dealt (R.ClosingRule.meaning rule.now) deal.now (kept self.old) }
        ensures lot_room { room self.new.lots ≡ room self.old.lots }
        ensures slip_room { room self.new.slips ≡ room self.old.slips }
    {
        self.add_deal(deal);
        self.close(rule, deal.buyer, deal.product);
        self.close(rule, deal.seller, deal.product);
    }
}

// The place of the open lot of an account, product, side and entry number, if there is one. Its parameters are those by
// which a rule is asked, a rule of the project, and the number.
pub fn find(lots: &[Lot], account: u32, product: u32, side: Side, number: u64) -> Option<usize>
    ensures { result ≡ position (is_lot account product side number) lots.now }
{
    lots.iter().position(|lot| lot.is_of(account, product, side) && u64::from(lot.entry) == number)
}
