// Why a body is not taken.

use wasm_lang_valid::Rule;

/// A rule that the instruction breaks, or want of memory.
#[derive(Clone, Copy, Debug)]
pub enum Fault {
    Broken(Rule),
    Memory,
}

/// Why a body isn't taken: the rule that an instruction breaks, or want of memory.
#[derive(Clone, Copy, PartialEq, Eq, Debug)]
pub enum BodyFault {
    Broken { rule: Rule, instruction: usize },
    Memory,
}
