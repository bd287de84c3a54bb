// The desk: from the bytes of an input to the bytes that are printed.
#![tactic(auto)]

mod answers;
mod input;
mod pages;

pub use answers::Unserved;
pub use pages::{Output, serve};
