//! The limits of this product on the counts of an asm.js module, which are looked at last, and the calls of foreign
//! functions.
#![tactic(auto)]

mod callee;
mod calls;
mod clauses;
mod expressions;
mod functions;
mod globals;
mod laws;
mod limits;
mod numbers;
mod statements;
mod tables;
mod tally;

pub use calls::ForeignCall;
pub use laws::limit_laws;
pub use limits::check_limits;
