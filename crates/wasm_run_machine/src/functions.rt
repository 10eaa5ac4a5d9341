//! The functions of a module, as a machine calls them.
ghost use Rattle.std.specs.Prelude.{◌≡◌, option_copied, slice_get};

use sem_words::Text;
use wasm_run_flat::Body;

/// An import, by its one name, or a function of the module: its instructions, and its place among the module's bodies.
#[derive(Drop)]
pub enum Callee {
    Import(Text),
    Own(Body, usize),
}

/// A function: the number of its type, and what is called.
#[derive(Drop)]
pub struct Function {
    pub kind: u32,
    pub callee: Callee,
}

/// The function of this number, or None past the last.
pub fn function_at(functions: &[Function], number: usize) -> Option<&Function>
    ensures { option_copied result ≡ slice_get functions.now number }
{
    functions.get(number)
}
