//! Labels with their new names.

ghost use Rattle.std.specs.Prelude.{◌≡◌, ◌≤◌, ◌+◌, IfOk, option_map, length, map, take, drop};
ghost use Rattle.sem_words.specs.Lists.{list_items, text_bytes};
ghost use Rattle.asm_tree.specs.Views.{texts_view, text_option};
ghost use Rattle.asm_short_lang.specs.Sequence.{numbered};
ghost use Rattle.asm_short_lang.specs.Renaming.{in_place, replaced, label_with};
ghost use Rattle.asm_short_tree.specs.Bodies.{old_labels, new_labels, labels_view, place_by};

use crate::lists::pushed;
use asm_short_names::spelled;
use sem_words::{List, Text};
use std::alloc::{AllocError, Global};

/// A label, and the number of its new name in the sequence.
#[derive(Clone, Copy)]
pub struct NewLabel<'l> {
    pub old: &'l Text,
    pub new: u64,
}

/// The labels of the statements that stand round one, the innermost first.
#[derive(Clone, Copy)]
pub enum Labels<'l> {
    Nothing,
    Inside(&'l [NewLabel<'l>], &'l Labels<'l>),
}

/// The labels of a statement, with the next of the fresh numbers.
pub(crate) fn numbered_labels<'l>(
    alloc: Global,
    fresh: &[u64],
    before: usize,
    names: &'l [Text],
) -> Result<Vec<NewLabel<'l>>, AllocError>
    requires { before + length names.now ≤ length fresh.now }
    ensures olds { IfOk result (λ ls. old_labels ls.items ≡ texts_view names.now) }
    ensures news { IfOk result (λ ls. new_labels ls.items ≡ take (length names.now) (drop before (map numbered fresh.now))) }
{
    let mut labels = Vec::with_capacity(alloc, names.len())?;
    for i in 0..names.len() {
        let old = &names[i];
        let new = fresh[before + i];
        labels.push(NewLabel { old, new })?;
    }
    Ok(labels)
}

/// The new names of labels.
pub(crate) fn label_texts(alloc: Global, labels: &[NewLabel<'_>]) -> Result<List<Text>, AllocError>
    ensures { IfOk result (λ ts. texts_view (list_items ts) ≡ new_labels labels.now) }
{
    let empty = List::with_capacity(alloc, labels.len())?;
    let mut texts = empty;
    for label in labels {
        let text = Text::from_bytes(alloc, spelled(label.new).as_bytes())?;
        texts = pushed(texts, text)?;
    }
    Ok(texts)
}

// The first of these labels that has the name.
fn found<'l>(labels: &[NewLabel<'l>], name: &Text) -> Option<u64>
    ensures { option_map numbered result ≡ in_place (old_labels labels.now) (new_labels labels.now) (text_bytes name.now) }
{
    for label in labels {
        if label.old.as_bytes() == name.as_bytes() {
            return Some(label.new);
        }
    }
    None
}

// The number of the new name of a label, the innermost of this name.
fn number_of(around: &Labels<'_>, name: &Text) -> Option<u64>
    ensures { option_map numbered result ≡ place_by around.now (text_bytes name.now) }
{
    let mut around = around;
    while let Labels::Inside(labels, outer) = around {
        if let Some(new) = found(labels, name) {
            return Some(new);
        }
        around = outer;
    }
    None
}

// The new name of a label, or a name that is none as it is.
fn label_text(alloc: Global, around: &Labels<'_>, name: &Text) -> Result<Text, AllocError>
    ensures { IfOk result (λ t. text_bytes t ≡ replaced (labels_view around.now).olds (labels_view around.now).news (text_bytes name.now)) }
{
    match number_of(around, name) {
        Some(new) => {
            let text = Text::from_bytes(alloc, spelled(new).as_bytes())?;
            Ok(text)
        }
        None => {
            let text = Text::from_bytes(alloc, name.as_bytes())?;
            Ok(text)
        }
    }
}

/// The new name of a label that a statement leaves, if it names one.
pub(crate) fn target(
    alloc: Global,
    around: &Labels<'_>,
    label: &Option<Text>,
) -> Result<Option<Text>, AllocError>
    ensures { IfOk result (λ t. text_option t ≡ label_with (labels_view around.now) (text_option label.now)) }
{
    match label {
        None => Ok(None),
        Some(name) => {
            let text = label_text(alloc, around, name)?;
            Ok(Some(text))
        }
    }
}
