//! Statements of asm.js with the names of their short forms, and tables of new names.
#![tactic(auto)]

mod body;
mod count;
mod expressions;
mod labels;
mod lists;
mod look;
mod names;
mod nodes;
mod statements;
mod wholes;

pub use body::renamed_body;
pub use look::Look;
pub use names::{Names, NewName};
