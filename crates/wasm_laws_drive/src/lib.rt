//! What reductions of WebAssembly come to, followed until a configuration is values, leaves its
//! label or its function, or the session ends: one equation for each construct.
#![tactic(auto)]

pub mod contexts;
pub mod laws;
