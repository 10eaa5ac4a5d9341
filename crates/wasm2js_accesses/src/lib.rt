//! The statements that load from the memory and store to it, each with its guard, and those that call for copies and fills.
//!
//! The operand above d others stands in the variables of number d; what an instruction gives stands where the deepest operand that it
//! takes stood.
#![tactic(auto)]

mod depths;
mod loads;
mod numbers;
mod places;
mod stores;

pub use depths::{high, low};
pub use loads::load_at;
pub use numbers::put_number;
pub use stores::{store_at, tell_three};
