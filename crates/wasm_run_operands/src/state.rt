//! What plain instructions change, and what becomes of a run at one.
use heap_views::Heap;
use sem_words::{TrapKind, Word};

/// What a session changes, but its events and replies. A module without a memory has an empty heap, and one
/// without a table no entries; an entry is a function's number, or empty.
#[derive(Drop)]
pub struct State {
    pub memory: Heap,
    pub globals: Vec<Word>,
    pub table: Vec<Option<u32>>,
}

/// What an instruction does to a run.
#[derive(Clone, Copy, PartialEq, Eq, Debug)]
pub enum Effect {
    /// The run goes on with the next instruction.
    Goes,
    /// The run ends.
    Traps(TrapKind),
    /// There is no next step: an operand, local or global is missing, or an operand has another type.
    Sticks,
}
