// Event lines: one call of the book as a line of text, read and written.
#![tactic(auto)]

mod counts;
mod event;
mod figure;
mod reader;
mod writer;

pub use event::Event;
pub use reader::{blank, read};
pub use writer::{LineBuffer, write};
