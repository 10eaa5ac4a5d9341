//! Validation of asm.js (asm.js draft of 18 August 2014): names, then types, then the limits of this product.
#![tactic(auto)]

mod checked;
mod phases;

pub use asm_lang_valid::Rule;
pub use asm_validate_facts::ExportOf;
pub use asm_validate_limits::ForeignCall;
pub use asm_validate_names::AsmRefusal;
pub use checked::{Checked, Signature, validate};
