//! From a text of asm.js to an accepted module and its counts, or to the one line that says why it is refused.
#![tactic(auto)]

mod checking;
mod counting;
mod fault;
mod laws;

pub use bridge_lang::{AsmRow, asm_row_name as row_name};
pub use checking::check_text;
pub use counting::{counts, counts_line};
pub use fault::CheckFault;
pub use laws::one_verdict_of_a_text;
