//! asm.js: which modules are typed, and the first node of any other that breaks a rule (asm.js draft of 18 August
//! 2014, sections 5 to 8).
#![tactic(auto)]

mod laws;
mod meaning;
mod rule;
mod rule_names;

pub use laws::{place_laws, refusal_laws, type_laws};
pub use meaning::{Builtin, Element};
pub use rule::{Met, Rule};
