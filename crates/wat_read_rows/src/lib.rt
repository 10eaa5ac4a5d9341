//! The rows of fields: their order and counts, the uses of ids, the heads of functions.
#![tactic(auto)]

mod fields;
mod heads;
mod orders;
mod taken;
mod uses;

pub use fields::{locals_of, rows_by_kind};
pub use orders::Orders;
pub use taken::local_taken;
pub use uses::use_rows;
