// Sheets as they are given, and their points.
ghost use Rattle.std.specs.Prelude.{◌≡◌, ◌≤◌, unsigned_abs};
ghost use Rattle.rolling.specs.Points.{points_of, Mild};

use money::PriceTable;
use tables::numbered;

// Swap points for each product, in its money, for one contract.
pub type PointTable = [i64; 16];

// What a new day begins with, as it is given: a bank mark (1 if the day is a bank day, else 0), the settlement prices and
// the points. Nothing of it has been tested: the mark is a number, since another than 0 and 1 is refused, a rule of the project.
#[derive(Clone, Copy)]
pub struct Sheet {
    pub mark: u64,
    pub prices: PriceTable,
    pub points: PointTable,
}

// Points, none of them above 10,000 either way. They are signed, and no prices: a type of their own is plainer than one for
// every table.
#[derive(Clone, Copy, PartialEq, Eq, Debug)]
pub struct Points {
    pub table: PointTable,
    ghost mild: { Mild table },
}

impl Points {
    // The points of a product; 0 where there is no such product.
    pub(crate) fn of(&self, product: u32) -> i64
        ensures points { result ≡ points_of self.now.table product }
        ensures few { unsigned_abs result ≤ 10000 }
    {
        numbered(&self.table, product).unwrap_or(0)
    }
}
