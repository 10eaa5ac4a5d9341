//! The heap of a program, as a list of bytes: what is read and written as little-endian numbers.
//!
//! It has the six integer views of asm.js (ECMA-262, 6th edition, 9.4.5 and 22.2) and the memory
//! accesses of WebAssembly (Core 1.0, 4.4.4; the block operations of 2.0, 4.4.7).
#![tactic(auto)]

mod kind;

pub use kind::ViewKind;
