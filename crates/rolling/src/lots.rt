// Lots on a new day.
ghost use Rattle.std.specs.Prelude.{◌≡◌, map};
ghost use Rattle.std.specs.List.{AllByRecursion};
ghost use Rattle.records.specs.Lists.{items, room};
ghost use Rattle.pairing.specs.Pairs.{LotFine};
ghost use Rattle.rolling.specs.Sheets.{rolled_lot};

use crate::sheets::Points;
use records::list::RecordList;
use records::lots::{Lot, Side};

// A lot on the new day: bought lots gain the points, sold lots lose them.
fn rolled(lot: Lot, points: &Points) -> Lot
    requires { LotFine 20000 lot }
    ensures { result ≡ rolled_lot points.now.table lot }
{
    let change = points.of(lot.product);
    let points = match lot.side {
        Side::Bought => lot.points + change,
        Side::Sold => lot.points - change,
    };
    Lot { points, ..lot }
}

// Each lot gains or loses its product's points. By place, since the list is asked for a lot and given another: a method that
// takes a closure for each lot was tried, and did not prove.
pub fn roll_lots(lots: &mut RecordList<'_, Lot>, points: &Points)
    requires { AllByRecursion (LotFine 20000) (items lots.old) }
    ensures items { items lots.new ≡ map (rolled_lot points.now.table) (items lots.old) }
    ensures room { room lots.new ≡ room lots.old }
{
    for place in 0..lots.count() {
        let lot = rolled(lots.all()[place], points);
        lots.replace(place, lot);
    }
}
