//! Operators on words of 64 bits, each of which stands in a pair of variables of 32 bits.
//!
//! Each call appends the statements of its operator to a block, or to straight code in which words may wait. The result may stand where
//! the first operand stands.
#![tactic(auto)]

mod pair;
mod results;
mod shifts;
mod truths;

pub use pair::{Pair, global_pair, local_pair, operand_pair};
pub use results::{
    moved, put_binary, put_extended, put_extension, put_moved, put_sign, put_unary, wide_binary,
    wide_extend, wide_unary,
};
pub use truths::{put_relation, put_zero_test, wide_compare, wide_zero};
