//! The tokens of the text form of WebAssembly, cut off one by one.
#![tactic(auto)]

mod bytes;
mod comments;
mod front;
mod lanes;
mod numbers;
mod pieces;
mod runs;
mod scanner;
mod strings;
mod token;

pub use numbers::{Number, number_of};
pub use scanner::{Next, Scanner};
pub use strings::StringText;
pub use token::{Class, Token};
