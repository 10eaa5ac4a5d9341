//! asm.js: tokens by class, and the parts of a module that hold no statements, read token by token.
#![tactic(auto)]

mod class;
mod heading;
mod init;
mod lexeme;
mod locals;
mod marks;
mod names;
mod want;

pub use heading::{HeadingParams, HeadingReading, HeadingStep};
pub use init::{InitReading, InitStep, ViewReading};
pub use lexeme::lexeme_of;
pub use locals::{LocalsReading, LocalsStep, with_variable};
pub use marks::{MarkPlace, Marks, MarksReading, MarksStep};
pub use names::{NamesReading, NamesStep};
pub use want::{Ending, end_before, is, is_word, is_zero};
