//! The types of asm.js expressions over whole numbers, their order, and the rows of the operators
//! (asm.js draft of 18 August 2014, sections 2.1, 6.8 and 8).
#![tactic(auto)]

mod rows;
mod value_type;
mod values;

pub use rows::{binary_row, unary_row};
pub use value_type::{ValueType, below};
pub use values::fits;
