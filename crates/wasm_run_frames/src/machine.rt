//! The machine.

use sem_words::{List, Word};
use session_lang::{End, Event};
use session_replies::Replies;
use wasm_run_flat::Target;
use wasm_run_operands::{Operands, State};

/// A label: where a branch to it goes on, how many operands it carries, and how many stand below those of the block round it.
#[derive(Clone, Copy)]
pub struct Label {
    pub target: Target,
    pub arity: usize,
    pub floor: usize,
}

/// A function that was entered: the function, place and locals of its caller, the count of its results, and how many operands stand
/// below the caller's.
#[derive(Drop)]
pub struct Frame {
    pub function: usize,
    pub at: usize,
    pub locals: Vec<Word>,
    pub arity: usize,
    pub floor: usize,
}

/// What encloses code that runs.
#[derive(Drop)]
pub enum Enclosing {
    Label(Label),
    Frame(Frame),
}

/// A machine at a place of a function, with the function's locals. What encloses it stands with the innermost last; where nothing
/// does, the host's call has come back. Where the session is over, `ending` says how it ended; until then it says nothing.
#[derive(Drop)]
pub struct Machine<'a> {
    pub operands: Operands,
    pub locals: Vec<Word>,
    pub function: usize,
    pub at: usize,
    pub enclosing: Vec<Enclosing>,
    pub state: State,
    pub events: List<Event>,
    pub replies: Replies<'a>,
    pub ending: End,
}

/// What becomes of a machine at an instruction: it goes on, the session is over, with the machine's ending, or there is no next step,
/// since an operand is missing or of another type.
#[derive(Clone, Copy)]
pub enum Flow {
    On,
    Over,
    Stuck,
}
