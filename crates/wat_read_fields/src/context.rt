//! What fields are made by.

use key_hashes::KeyHashes;
use std::alloc::Global;
use wasm_tree::FuncType;
use wat_read_names::Spaces;

/// The ids and the types of the whole module.
#[derive(Clone, Copy)]
pub struct Context<'n, 'a> {
    pub alloc: Global,
    pub hashes: KeyHashes,
    pub spaces: &'n Spaces<'a>,
    pub types: &'n [FuncType],
}
