//! What stands round a statement of asm.js, and the values of the cases of a switch (asm.js draft of 18 August 2014,
//! section 6.5).
#![tactic(auto)]

mod cases;
mod labels;
mod places;

pub use cases::cases_fit;
pub use labels::{Labels, open_labels};
pub use places::{Place, at_top, break_fits, continue_fits, in_a_loop, in_a_switch, is_loop};
