// New days: sheets that were tested.
ghost use Rattle.std.specs.Prelude.{◌≡◌, if◌then◌else◌, Ok, Err};
ghost use Rattle.refusals.specs.declared.Refusal.TheVariants.{Figure};
ghost use Rattle.refusals.specs.Ranges.{accepted_as};
ghost use Rattle.rolling.specs.Sheets.{bad_sheet};
ghost use Rattle.rolling.specs.Days.{sheet_of};

use crate::sheets::{Points, Sheet};
use money::Prices;
use refusals::{Ranged, Refusal, any_outside};

// A new day: what a sheet says, tested.
#[derive(Clone, Copy)]
pub struct NewDay {
    pub is_bank_day: bool,
    pub prices: Prices,
    pub points: Points,
}

impl NewDay {
    // The day that a sheet begins, or a refusal where its mark, a price or points are out of range. `TryFrom` would be no
    // plainer: the name says that the sheet is checked.
    pub fn check(sheet: &Sheet) -> Result<NewDay, Refusal>
        ensures { accepted_as sheet_of result ≡ (if bad_sheet sheet.now then Err Figure else Ok sheet.now) }
    {
        let Sheet {
            mark,
            prices,
            points,
        } = *sheet;
        if mark.is_outside(0, 1)
            || any_outside(1, 999_999, &prices)
            || any_outside(-10_000, 10_000, &points)
        {
            return Err(Refusal::Figure);
        }
        Ok(NewDay {
            is_bank_day: mark == 1,
            prices: Prices { table: prices },
            points: Points { table: points },
        })
    }
}
