// Rollovers to a new day.
ghost use Rattle.std.specs.Prelude.{◌≡◌, ◌+◌, false, is_ok};
ghost use Rattle.refusals.specs.Ranges.{first, answered, accepted_as};
ghost use Rattle.rolling.specs.Days.{sheet_of};
ghost use Rattle.runs.specs.Calls.{rollover_causes, rolled, left_by};
ghost use Rattle.runs.specs.Calls.Call.{rollover};
ghost use Rattle.runs.specs.Whole.{Whole};
ghost use Rattle.book.specs.View.{view};

use crate::state::Book;
use refusals::Refusal;
use rolling::{NewDay, Sheet, roll_lots, settle};

impl<'a> Book<'a> {
    // The day that a sheet begins, or the first cause that refuses a rollover.
    fn check_rollover(&self, sheet: &Sheet) -> Result<NewDay, Refusal>
        ensures { accepted_as sheet_of result ≡ answered (first (rollover_causes (view self.now) sheet.now)) sheet.now }
    {
        let day = NewDay::check(sheet)?;
        self.check_entry()?;
        Ok(day)
    }

    // A new day: lots gain or lose their points, the slips are settled at the sheet's prices, which become the latest,
    // and on a bank day what waits moves on.
    pub fn rollover(&mut self, sheet: &Sheet) -> Result<u32, Refusal>
        ensures answer { result ≡ answered (first (rollover_causes (view self.old) sheet.now)) (self.old.entries + 1) }
        ensures left { view self.new ≡ left_by (first (rollover_causes (view self.old) sheet.now)) (rolled (view self.old) sheet.now) (view self.old) }
        ensures whole { Whole (rollover sheet.now) (view self.old) (view self.new) }
        ensures untouched { is_ok result ≡ false → self.new ≡ self.old }
    {
        let day = self.check_rollover(sheet)?;
        roll_lots(&mut self.ledger.lots, &day.points);
        settle(
            &day.prices,
            day.is_bank_day,
            &mut self.ledger.slips,
            &mut self.balances,
        );
        self.prices = day.prices;
        self.entries += 1;
        Ok(self.entries)
    }
}
