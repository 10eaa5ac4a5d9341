//! The first refusal so far, and the rows that need no ids of the module: numbers, names, ids that are bound again, types that are too many.
#![tactic(auto)]

mod counts;
mod least;
mod numbers;
mod taken;

pub use counts::{from_count, room_after};
pub use least::{Least, Refusal};
pub use numbers::{note_entries, note_name, number_rows};
pub use taken::{module_taken, push_binding, taken_in};
