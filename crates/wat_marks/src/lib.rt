//! A text of WebAssembly as tokens with their marks, one after another: what each token is in the module.
#![tactic(auto)]

mod fault;
mod marked;
mod outside;
mod reading;

pub use fault::WatFault;
pub use marked::MarkedToken;
pub use reading::MarkReader;
