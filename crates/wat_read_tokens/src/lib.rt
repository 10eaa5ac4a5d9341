//! What one token of a text says: its mark, its bytes, the number and the value type that it writes.
#![tactic(auto)]

mod numbers;
mod tokens;

pub use numbers::{
    Between, behind_key, capped_in, exponent_in, exponent_of, is_number, is_out, natural_in,
    whole_in,
};
pub use tokens::{Wanted, atom, first, is_id, same_part, same_space, value_type};
