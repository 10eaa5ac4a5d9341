//! The statements of a function with new names.

ghost use Rattle.std.specs.Prelude.{◌≡◌, [], IfOk, map};
ghost use Rattle.sem_words.specs.Lists.{list_items};
ghost use Rattle.asm_tree.specs.Views.{stmts_view};
ghost use Rattle.asm_short_lang.specs.Sequence.{numbered, first_names};
ghost use Rattle.asm_short_lang.specs.Renaming.{labels_in_all, body_with};
ghost use Rattle.asm_short_tree.specs.Looking.{look_by};

use crate::count::count_stmts;
use crate::labels::Labels;
use crate::look::Look;
use crate::statements::{Renaming, renamed_stmts};
use asm_short_names::{Excluded, first_numbers};
use asm_tree::Stmt;
use indexmap::IndexSet;
use key_hashes::hashes_of;
use sem_words::List;
use std::alloc::{AllocError, Global};

// The numbers of the new names of all labels of these statements, in text order.
fn label_numbers(alloc: Global, body: &[Stmt]) -> Result<Vec<u64>, AllocError>
    ensures { IfOk result (λ ns. map numbered ns.items ≡ first_names [] (labels_in_all (stmts_view body.now))) }
{
    let mut count = 0;
    count_stmts(&mut count, body)?;
    let nothing = IndexSet::with_hasher(alloc, hashes_of(&[]));
    let excluded = Excluded {
        numbers: &nothing,
        kept: None,
    };
    let numbers = first_numbers(alloc, excluded, count)?;
    Ok(numbers)
}

/// The statements of a function, with new names for its labels.
pub fn renamed_body(
    alloc: Global,
    look: &Look<'_, '_>,
    body: &[Stmt],
) -> Result<List<Stmt>, AllocError>
    ensures { IfOk result (λ r. stmts_view (list_items r) ≡ body_with (look_by look.now) (stmts_view body.now)) }
{
    let numbers = label_numbers(alloc, body)?;
    let renaming = Renaming {
        look: *look,
        fresh: numbers.as_slice(),
    };
    let mut before = 0;
    let around = Labels::Nothing;
    let list = renamed_stmts(alloc, &renaming, &around, &mut before, body)?;
    Ok(list)
}
