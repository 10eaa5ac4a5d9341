//! Statements under labels.

ghost use Rattle.std.specs.Prelude.{◌≡◌, ◌++◌, IfOk};
ghost use Rattle.sem_words.specs.Lists.{list_items};
ghost use Rattle.asm_lang.specs.Modules.{labelled};
ghost use Rattle.asm_tree.specs.Views.{stmt_view, texts_view};
ghost use Rattle.asm_grammar_nodes.specs.Views.{words_view};
ghost use Rattle.asm_grammar_erase.specs.Parts.{merged, with_labels, label_texts};

use crate::lists::pushed;
use crate::nodes::copied;
use crate::wholes::boxed;
use asm_grammar_nodes::Word;
use asm_tree::Stmt;
use sem_words::{List, Text};
use std::alloc::{AllocError, Global};

/// The names of labels.
fn label_texts(alloc: Global, labels: &[Word]) -> Result<List<Text>, AllocError>
    ensures { IfOk result (λ r. texts_view (list_items r) ≡ label_texts (words_view labels.now)) }
{
    let mut texts = List::new(alloc);
    for label in labels {
        let text = copied(alloc, &label.text)?;
        texts = pushed(texts, text)?;
    }
    Ok(texts)
}

/// The first list with the second one at its end.
fn joined(first: List<Text>, second: List<Text>) -> Result<List<Text>, AllocError>
    ensures { IfOk result (λ r. list_items r ≡ list_items first ++ list_items second) }
{
    let mut all = first.into_vec();
    let mut more = second.into_vec();
    match all.append(&mut more) {
        Ok(()) => Ok(List::from_vec(all)),
        Err(_) => Err(AllocError),
    }
}

/// A statement under labels, those that it has after these.
fn under_more(labels: List<Text>, inner: List<Text>, body: Box<Stmt>) -> Result<Stmt, AllocError>
    ensures { IfOk result (λ r. stmt_view r ≡ labelled (texts_view (list_items labels) ++ texts_view (list_items inner)) (stmt_view body.value)) }
{
    let labels = joined(labels, inner)?;
    Ok(Stmt::Labelled(labels, body))
}

/// A statement that has no labels, under these.
fn under_first(alloc: Global, labels: List<Text>, body: Stmt) -> Result<Stmt, AllocError>
    ensures { IfOk result (λ r. stmt_view r ≡ labelled (texts_view (list_items labels)) (stmt_view body)) }
{
    let body = boxed(alloc, body)?;
    Ok(Stmt::Labelled(labels, body))
}

/// The labels of a statement that has labels go on.
pub(crate) fn merged(alloc: Global, labels: List<Text>, body: Stmt) -> Result<Stmt, AllocError>
    ensures { IfOk result (λ r. stmt_view r ≡ merged (texts_view (list_items labels)) (stmt_view body)) }
{
    match body.into_labelled() {
        Ok((inner, body)) => under_more(labels, inner, body),
        Err(body) => under_first(alloc, labels, body),
    }
}

/// A statement under labels, in text order. Those of labels one in another are one node.
#[inline(never)]
pub(crate) fn with_labels(
    alloc: Global,
    labels: &[Word],
    body: Box<Stmt>,
) -> Result<Stmt, AllocError>
    ensures { IfOk result (λ r. stmt_view r ≡ with_labels (label_texts (words_view labels.now)) (stmt_view body.value)) }
{
    match labels.split_first() {
        None => Ok(Box::into_inner(body)),
        Some(_) => {
            let labels = label_texts(alloc, labels)?;
            merged(alloc, labels, Box::into_inner(body))
        }
    }
}
