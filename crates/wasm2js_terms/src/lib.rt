//! Terms over words of 32 bits, the words that wait in place of variables of operands, and what is known of variables and of terms by that.
#![tactic(auto)]

mod atoms;
mod facts;
mod held;
mod terms;
mod waits;

pub use atoms::{Atom, Delayed};
pub use facts::{
    Fact, Known, atom_fact, fact_of, is_within, keep_into_block, lesser, note, term_fact,
    word_of_literal,
};
pub use held::{Held, Newest, OfTwo, Word, held_without, waiting_word, word_at};
pub use terms::{BitOp, Relation, Term};
pub use waits::{at_hand, atom_of, drop_name, has_room, is_operand, number_at, stand_in, wait};
