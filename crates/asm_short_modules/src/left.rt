//! What is left of a module.

use asm_tree::{Function, Module, Table};

/// A module without the functions and tables that aren't listed.
#[derive(Drop)]
pub struct Left<'a> {
    pub module: &'a Module,
    pub functions: Vec<&'a Function>,
    pub tables: Vec<&'a Table>,
}
