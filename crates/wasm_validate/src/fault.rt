// Why a module or a section is not taken.

use thiserror::Error;
use wasm_lang_valid::{Rule, Section};

/// Why a section isn't taken: its first item that breaks a rule, or want of memory.
#[derive(Clone, Copy, PartialEq, Eq, Debug)]
pub enum ItemFault {
    Broken { index: usize, rule: Rule },
    Memory,
}

/// Why the code section isn't taken: the first instruction that breaks a rule in its first body that isn't
/// valid, or want of memory.
#[derive(Clone, Copy, PartialEq, Eq, Debug)]
pub enum CodeFault {
    Broken {
        index: usize,
        rule: Rule,
        instruction: usize,
    },
    Memory,
}

/// Why a module isn't valid: the rule that is broken first, the section, the number of the item in it and, in
/// code, the number of the instruction in its body, else 0; or want of memory.
#[derive(Clone, Copy, PartialEq, Eq, Debug, Error)]
pub enum Invalid {
    #[error("a rule of validity is broken")]
    Rule {
        rule: Rule,
        section: Section,
        index: usize,
        instruction: usize,
    },
    #[error("out of memory")]
    Memory,
}
