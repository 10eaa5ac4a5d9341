//! The statements of a function's body of asm.js, read token by token.
#![tactic(auto)]

mod begin;
mod classes;
mod clauses;
mod ending;
mod expression;
mod finish;
mod frame;
mod frames;
mod items;
mod labels;
mod law;
mod parts;
mod reach;
mod reading;
mod state;

pub use law::bodies_end_no_module;
pub use state::{BodyFed, BodyReading};
