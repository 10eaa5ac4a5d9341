//! Nodes of asm.js from their parts, and the names of what the translation from WebAssembly writes.
#![tactic(auto)]

mod names;
mod nodes;
mod same;
mod spelling;
mod statements;

pub use names::{Fixed, Name, Numbered};
pub use nodes::{
    binary, call, call_of_one, call_of_two, chain, chosen, element, flipped, literal, natural,
    plainly, put_in, shifted, signed, store_in, trap_call, unsigned, variable, with_expr,
};
pub use same::same_name;
pub use spelling::spell;
pub use statements::{
    block_statement, gives, if_else, if_only, locals_of, params_of, part_statement, returns,
    returns_nothing, while_loop,
};
