// The rollover to a new day: what its sheet does to lots and money.
#![tactic(auto)]

mod balances;
mod days;
mod lots;
mod sheets;

pub use balances::{Balance, Balances, settle};
pub use days::NewDay;
pub use lots::roll_lots;
pub use sheets::{PointTable, Points, Sheet};
