//! Labels before a statement.

ghost use Rattle.sem_words.specs.Lists.{list_items};
ghost use Rattle.std.specs.Prelude.{◌≡◌, IfOk, [], ◌∷◌, ◌++◌};
ghost use Rattle.asm_lang.specs.Grammar.{under};
ghost use Rattle.asm_lang.specs.Trees.{StmtTree, StmtTrees};
ghost use Rattle.asm_lang.specs.Machine.{State, at_stmt, Step};
ghost use Rattle.asm_grammar_nodes.specs.Views.{word_view, words_view};
ghost use Rattle.asm_grammar_stmts.specs.Frames.{frames_list};
ghost use Rattle.asm_grammar_stmts.specs.Views.{around_view, frames_view, next_view, under_labels};

use crate::frame::Frame;
use crate::frames::{Around, Frames};
use asm_grammar_nodes::Word;
use sem_words::List;
use std::alloc::{AllocError, Global};

fn with_word(words: List<Word>, word: Word) -> Result<List<Word>, AllocError>
    ensures { IfOk result (λ r. list_items r ≡ list_items words ++ word ∷ []) }
{
    let mut words = words;
    match words.push(word) {
        Ok(()) => Ok(words),
        Err(_) => Err(AllocError),
    }
}

/// The labels that stand innermost, and the frames round them.
fn innermost_labels(alloc: Global, frames: Frames) -> Result<(List<Word>, Frames), AllocError>
    ensures { IfOk result (λ r. (k : StmtTree → State) → frames_view (frames_list frames) k ≡ under_labels (words_view (list_items r.0)) (frames_view (frames_list r.1) k)) }
{
    let mut frames = frames;
    match frames.pop() {
        None => Ok((List::new(alloc), Frames::new(alloc))),
        Some(frame) => match frame.into_labels() {
            Ok(labels) => Ok((labels, frames)),
            Err(frame) => match frames.with(frame) {
                Ok(frames) => Ok((List::new(alloc), frames)),
                Err(error) => Err(error),
            },
        },
    }
}

/// The same with a label in it, before the statement. Labels in a row are one frame.
#[tactic(auto, using(crate::proofs::Following::following))]
pub(crate) fn labelled(alloc: Global, label: Word, around: Around) -> Result<Around, AllocError>
    ensures { IfOk result (λ r. (k : StmtTrees → Step) → next_view r k ≡ at_stmt (λ s. around_view around k (under (word_view label) s))) }
{
    let (body, frames) = around.into_parts();
    let (labels, frames) = innermost_labels(alloc, frames)?;
    let labels = with_word(labels, label)?;
    let frames = frames.with(Frame::Labels(labels))?;
    Ok(Around { body, frames })
}
