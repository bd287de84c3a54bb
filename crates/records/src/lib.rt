// Records of the book: lots and slips, the list that they lie in, and the one sum over their figures.
#![tactic(auto)]

pub mod list;
pub mod lots;
pub mod sum;
