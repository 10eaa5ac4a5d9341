//! From a text of asm.js to the text of its short form, or to why it isn't taken.
#![tactic(auto)]

mod shortening;

pub use shortening::short_text;
