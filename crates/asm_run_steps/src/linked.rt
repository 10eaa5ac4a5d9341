//! What a machine runs.

use asm_run_code::Op;
use sem_words::List;

/// A function: how many parameters it has, the first words of the locals behind them, and its code as it is stored, the last operation
/// first.
#[derive(Clone, Copy)]
pub struct Function<'c> {
    pub params: u32,
    pub firsts: &'c [u32],
    pub code: &'c [Op],
}

/// The functions of a module, the numbers of the functions in each table, and the names of the foreign members by their declarations.
#[derive(Clone, Copy)]
pub struct Linked<'c> {
    pub functions: &'c [Function<'c>],
    pub tables: &'c [List<u32>],
    pub members: &'c [&'c [u8]],
}
