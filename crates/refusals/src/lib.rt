// Why an entry is refused: the table of causes, and what a refusal tells of its cause.
#![tactic(auto)]

mod ranges;

ghost use Rattle.std.specs.Prelude.{◌≡◌, [], ◌∷◌, Some};
ghost use Rattle.refusals.specs.Causes.{told, of_layer, letter, telling_text};

pub use ranges::{Ranged, any_outside};
use std::error::Error;
use std::fmt;

// Where a refusal arose.
#[derive(Clone, Copy, PartialEq, Eq, Debug)]
pub enum Layer {
    Line,
    Book,
    Rule,
    Schedule,
}

// The causes, in the order of their numbers.
#[derive(Clone, Copy, PartialEq, Eq, Debug)]
pub enum Refusal {
    // 1: accounts, lot places or slip places of an opening outside their range
    Opening,
    // 2: an account that is not in the book; the number given
    Account(u64),
    // 3: a product that there is not; the number given
    Product(u64),
    // 4: a quantity that is not 1 to 500
    Quantity,
    // 5: a price, points or a bank mark outside their range
    Figure,
    // 6: the buyer is the seller
    SameAccount,
    // 7: an account's open contracts of one side and product would pass 500; the account
    PositionLimit(u64),
    // 8: too few free places for lots or slips
    Places,
    // 9: all 20,000 entry numbers are taken
    Entries,
    // 10: the account does not declare
    NotDeclaring,
    // 11: no such open bought lot
    NoBoughtLot,
    // 11: no such open sold lot
    NoSoldLot,
    // 12: a declared quantity above the smaller remainder; that remainder
    Remainder(u64),
    // 13: an amount that is not 1 to 1,000,000,000 yen
    Amount,
    // 14: a withdrawal above what may be withdrawn; what may be withdrawn
    Withdrawable(u64),
    // 15: a line that is not in the format; the field
    Line(u64),
    // 16: a base amount, or the percentage of a raised schedule, outside its range
    BaseAmount,
    // 16: an account's mark in a closing rule that is neither 0 nor 1
    Mark,
}

// What is told of a refusal.
#[derive(Clone, Copy, PartialEq, Eq, Debug)]
pub struct Telling {
    pub layer: Layer,
    pub number: u32,
    pub detail: u64,
}

impl Layer {
    // The letter by which a layer is printed, without a writer, as `Display` needs one: `Display` prints this letter.
    pub fn letter(self) -> &'static str
        ensures { result.now ≡ letter self ∷ [] }
    {
        match self {
            Layer::Line => "L",
            Layer::Book => "B",
            Layer::Rule => "R",
            Layer::Schedule => "S",
        }
    }
}

fn of_layer(layer: Layer, number: u32, detail: u64) -> Telling
    ensures { result ≡ of_layer layer number detail }
{
    Telling {
        layer,
        number,
        detail,
    }
}

impl Refusal {
    // The layer, the number and the detail of a refusal. No `From`: what is told of a cause is not the cause.
    pub fn tell(self) -> Telling
        ensures { result ≡ told self }
    {
        match self {
            Refusal::Opening => of_layer(Layer::Book, 1, 0),
            Refusal::Account(number) => of_layer(Layer::Book, 2, number),
            Refusal::Product(number) => of_layer(Layer::Book, 3, number),
            Refusal::Quantity => of_layer(Layer::Book, 4, 0),
            Refusal::Figure => of_layer(Layer::Book, 5, 0),
            Refusal::SameAccount => of_layer(Layer::Book, 6, 0),
            Refusal::PositionLimit(account) => of_layer(Layer::Book, 7, account),
            Refusal::Places => of_layer(Layer::Book, 8, 0),
            Refusal::Entries => of_layer(Layer::Book, 9, 0),
            Refusal::NotDeclaring => of_layer(Layer::Rule, 10, 0),
            Refusal::NoBoughtLot => of_layer(Layer::Book, 11, 1),
            Refusal::NoSoldLot => of_layer(Layer::Book, 11, 2),
            Refusal::Remainder(remainder) => of_layer(Layer::Book, 12, remainder),
            Refusal::Amount => of_layer(Layer::Book, 13, 0),
            Refusal::Withdrawable(yen) => of_layer(Layer::Book, 14, yen),
            Refusal::Line(field) => of_layer(Layer::Line, 15, field),
            Refusal::BaseAmount => of_layer(Layer::Schedule, 16, 0),
            Refusal::Mark => of_layer(Layer::Rule, 16, 0),
        }
    }
}

impl fmt::Display for Layer {
    ghost output = { λ layer. Some (letter layer ∷ []) };

    fn fmt<W: fmt::Write>(&self, f: &mut fmt::Formatter<W>) -> fmt::Result {
        f.write_str(self.letter())
    }
}

// layer,number,detail
impl fmt::Display for Telling {
    ghost output = { λ t. Some (telling_text t) };

    fn fmt<W: fmt::Write>(&self, f: &mut fmt::Formatter<W>) -> fmt::Result {
        let Telling {
            layer,
            number,
            detail,
        } = *self;
        write!(f, "{layer},{number},{detail}")
    }
}

impl fmt::Display for Refusal {
    ghost output = { λ r. Some (telling_text (told r)) };

    fn fmt<W: fmt::Write>(&self, f: &mut fmt::Formatter<W>) -> fmt::Result {
        let told = self.tell();
        write!(f, "{told}")
    }
}

impl Error for Refusal {}
