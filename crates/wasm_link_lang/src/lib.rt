//! Two modules of WebAssembly over one memory: what they do as a pair, which pairs are linked, and what may be written for one.
#![tactic(auto)]

mod rows;

pub use rows::{LinkRow, Refused, row_number};
