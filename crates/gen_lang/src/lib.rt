//! Definitions: a text of asm.js of so many functions, and the summary of its translation to WebAssembly and back.
#![tactic(auto)]
