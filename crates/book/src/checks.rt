// Causes that several calls test. Each test hands out the cause where it holds, else the number that was tested, as narrow as
// the test has shown it to be.
ghost use Rattle.std.specs.Prelude.{◌≡◌, [], ◌∷◌};
ghost use Rattle.refusals.specs.Ranges.{outside, first, answered};
ghost use Rattle.book.specs.Calls.{not_in_book, no_entry_left, no_product, bad_quantity};
ghost use Rattle.book.specs.View.{view};

use crate::state::Book;
use refusals::{Ranged, Refusal};

// A number from 1 to `most`, or the cause that refuses any other. `as`: `most` is a u32, and so is what it limits.
fn up_to(most: u32, number: u64, cause: Refusal) -> Result<u32, Refusal>
    ensures { result ≡ answered (first ((outside 1 most number, cause) ∷ [])) number }
{
    if number.is_outside(1, u64::from(most)) {
        return Err(cause);
    }
    Ok(number as u32)
}

pub(crate) fn check_product(product: u64) -> Result<u32, Refusal>
    ensures { result ≡ answered (first (no_product product ∷ [])) product }
{
    up_to(16, product, Refusal::Product(product))
}

pub(crate) fn check_quantity(quantity: u64) -> Result<u32, Refusal>
    ensures { result ≡ answered (first (bad_quantity quantity ∷ [])) quantity }
{
    up_to(500, quantity, Refusal::Quantity)
}

impl<'a> Book<'a> {
    pub(crate) fn check_account(&self, account: u64) -> Result<u32, Refusal>
        ensures { result ≡ answered (first (not_in_book (view self.now) account ∷ [])) account }
    {
        up_to(self.accounts, account, Refusal::Account(account))
    }

    pub(crate) fn check_entry(&self) -> Result<(), Refusal>
        ensures { result ≡ answered (first (no_entry_left (view self.now) ∷ [])) tt }
    {
        if self.entries >= 20_000 {
            return Err(Refusal::Entries);
        }
        Ok(())
    }
}
