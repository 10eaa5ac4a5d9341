//! Jumps and calls of asm.js, as the code of one instruction of WebAssembly each.
#![tactic(auto)]

mod aims;
mod calls;
mod jumps;
mod nodes;
mod switches;
mod values;

pub use aims::{Aim, aim_at, gives_word, label_of};
pub use calls::{CalledTable, answered, call_entry, function_call, result_type};
pub use jumps::{give_at_hand, jump, leave_with};
pub use nodes::{
    bare_break, block_of, break_to, chosen, continue_to, endless, if_only, labelled, part_of,
};
pub use switches::{Jumps, by_index};
pub use values::signed_word;
