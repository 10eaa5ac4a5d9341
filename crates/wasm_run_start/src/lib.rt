//! The functions of a valid module, as a machine calls them (WebAssembly Core 1.0, sections 4.5.4 and 4.2.6).
#![tactic(auto)]

mod listing;

pub use listing::functions_of;

mod data;
mod elements;
mod values;

pub use data::{bytes_fit, put_bytes};
pub use elements::{entries_fit, put_entries};
pub use values::add_first_values;
