//! Expressions of asm.js: their types, and the first node that breaks a rule of types (asm.js draft of 18 August 2014,
//! sections 6.5 to 6.8).
#![tactic(auto)]

mod calls;
mod context;
mod elements;
mod expressions;
mod literals;
mod node;
mod operands;
mod signatures;

pub use context::Context;
pub use expressions::{judge, judge_effect};
pub use literals::literal_type;
pub use node::needs;
pub use signatures::{Signature, function_signature, signature_of};
