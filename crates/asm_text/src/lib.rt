//! asm.js: a text is read into its one module, or refused at the one place of its fault.
#![tactic(auto)]

mod fault;
mod laws;
mod reading;

pub use fault::TextFault;
pub use laws::printed_texts_are_read;
pub use reading::{read, reprinted};
