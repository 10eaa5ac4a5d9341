//! What each name of an asm.js module means, in the module and in a function (asm.js draft of 18 August 2014, sections 6.1 to
//! 6.4).
#![tactic(auto)]

mod declared;
mod environment;
mod hashes;
mod imports;
mod init;
mod locals;
mod meaning;
mod scope;
mod words;

pub use environment::Environment;
pub use hashes::{function_hashes, module_hashes};
pub use init::{is_foreign, is_heap, is_stdlib};
pub use meaning::{Meaning, Member};
pub use scope::Scope;
pub use words::is_word;
