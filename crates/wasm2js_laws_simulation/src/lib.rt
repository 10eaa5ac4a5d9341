//! From WebAssembly to asm.js: calls and whole sessions follow, so the translation of each module of the profile may be written for it.
#![tactic(auto)]

pub mod bounded_laws;
pub mod calls_laws;
pub mod followed_laws;
pub mod frames_laws;
pub mod helping_laws;
pub mod host_laws;
pub mod imports_laws;
pub mod instances_laws;
pub mod segments_laws;
pub mod sessions_laws;
pub mod start_laws;
pub mod whole_laws;
