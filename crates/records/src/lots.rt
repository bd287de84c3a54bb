// Lots and slips.
ghost use Rattle.std.specs.Prelude.{◌≡◌};
ghost use Rattle.records.specs.Lots.{column, is_of, told_of_lot, told_of_slip};

use crate::sum::{Record, Told};

// Bought or sold.
#[derive(Clone, Copy, PartialEq, Eq, Debug)]
pub enum Side {
    Bought,
    Sold,
}

// An open position from one trade: its account, product and side, the entry number of the trade, the contracts
// that remain, the price at which it was made, and the swap points that it has gained.
#[derive(Clone, Copy, PartialEq, Eq, Debug)]
pub struct Lot {
    pub account: u32,
    pub product: u32,
    pub side: Side,
    pub entry: u32,
    pub remaining: u32,
    pub price: u64,
    pub points: i64,
}

// The record of a close-out: which trades it closed, how many contracts, and what that was worth in the product's money.
#[derive(Clone, Copy, PartialEq, Eq, Debug)]
pub struct Slip {
    pub account: u32,
    pub product: u32,
    pub bought: u32,
    pub sold: u32,
    pub quantity: u32,
    pub worth: i64,
}

impl Side {
    // A sold lot's column is 1, any other 0. No `From`: a side is no number, it has one in the sum.
    pub fn column(self) -> u32
        ensures { result ≡ column self }
    {
        match self {
            Side::Bought => 0,
            Side::Sold => 1,
        }
    }
}

impl Lot {
    // What a place for a lot holds before it is used.
    pub const EMPTY: Lot = Lot {
        account: 0,
        product: 0,
        side: Side::Bought,
        entry: 0,
        remaining: 0,
        price: 0,
        points: 0,
    };

    // Whether the lot is one of that account, product and side. The three stay apart: prices, points and base amounts go by
    // product alone, balances by account alone.
    pub fn is_of(&self, account: u32, product: u32, side: Side) -> bool
        ensures { result ≡ is_of account product (column side) self.now }
    {
        self.account == account && self.product == product && self.side == side
    }
}

impl Slip {
    // What a place for a slip holds before it is used.
    pub const EMPTY: Slip = Slip {
        account: 0,
        product: 0,
        bought: 0,
        sold: 0,
        quantity: 0,
        worth: 0,
    };
}

impl Record for Lot {
    ghost told = { told_of_lot };

    fn tell(&self) -> Told {
        Told {
            account: self.account,
            product: self.product,
            column: self.side.column(),
            figure: i64::from(self.remaining),
        }
    }
}

impl Record for Slip {
    ghost told = { told_of_slip };

    fn tell(&self) -> Told {
        Told {
            account: self.account,
            product: self.product,
            column: 0,
            figure: self.worth,
        }
    }
}
