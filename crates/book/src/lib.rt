// The margin book: its state with its invariant, and its calls.
#![tactic(auto)]

mod accounts;
mod checks;
mod opening;
mod rollovers;
mod state;
mod trades;

pub use state::{Book, Opening};
