//! What the words of a command line ask for, what each command may write, and why it is refused.
#![tactic(auto)]

mod asm_rows;
mod laws;
mod making;
mod status;
mod wasm_rows;

pub use asm_rows::{AsmRow, asm_row_name, asm_row_number};
pub use laws::numbered_rows;
pub use making::Making;
pub use status::{Status, WasmFault};
pub use wasm_rows::{beyond_name, binary_row_name, link_row_name, side_name, wat_row_name};
