//! The heap of a program: one list of bytes, read and written as little-endian numbers.
//!
//! It has the six integer views of asm.js (ECMA-262, 6th edition, 9.4.5 and 22.2) and the memory
//! accesses of WebAssembly (Core 1.0, 4.4.4; the block operations of 2.0, 4.4.7).
//! Only [`Heap::new`] takes memory, and no access copies the heap.
#![tactic(auto)]

mod block;
mod heap;
mod numbers;
mod region;
mod runs;
mod views;
mod writes;

#[doc(hidden)]
pub use block::Block;
pub use heap::Heap;
pub use heap_lang::ViewKind;
#[doc(hidden)]
pub use region::{Base, Cells, Deed};
pub use views::{View, ViewMut};
pub use writes::{WordSize, Write, apply};
