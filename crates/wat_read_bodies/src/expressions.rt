//! Expressions.

ghost use Rattle.std.specs.Prelude.{◌≡◌, [], IfOk, map, length, ◌≤◌};
ghost use Rattle.sem_words.specs.Lists.{list_items};
ghost use Rattle.wasm_tree.specs.Views.{instr_of};
ghost use Rattle.wat_lang.specs.Modules as spec;
ghost use Rattle.wat_lang.specs.Rows.{number_rows};
ghost use Rattle.wat_read_names.specs.Bound.{space_names};
ghost use Rattle.wat_read_tokens.specs.Marks.{marks_of};

use crate::instrs::push_instr;
use key_hashes::KeyHashes;
use sem_words::List;
use std::alloc::{AllocError, Global};
use wasm_tree::Instr;
use wat_marks::MarkedToken;
use wat_read_labels::Labels;
use wat_read_names::{Ids, Spaces};
use wat_read_tokens::Wanted;

/// How many instructions there are, and one.
fn room_for(parts: &[MarkedToken<'_>]) -> usize {
    let mut count = 1usize;
    for token in parts {
        if Wanted::Instruction.is(token.mark) {
            count = count.saturating_add(1);
        }
    }
    count
}

/// The instructions of a field's expression, with the end that closes it.
pub fn code<'a>(
    alloc: Global,
    hashes: KeyHashes,
    spaces: &Spaces<'_>,
    locals: &Ids<'_>,
    parts: &[MarkedToken<'a>],
) -> Result<List<Instr>, AllocError>
    requires { number_rows (marks_of parts.now) ≡ [] }
    ensures { IfOk result (λ list. map instr_of (list_items list) ≡ spec.code_in (space_names spaces.now) locals.now (marks_of parts.now)) }
{
    let mut labels = Labels::new(alloc, hashes);
    let mut list = Vec::with_capacity(alloc, room_for(parts))?;
    for n in 0..parts.len() {
        let token = &parts[n];
        let behind = &parts[n + 1..];
        push_instr(
            alloc, &mut list, spaces, locals, &labels, token.mark, behind,
        )?;
        labels.after(token)?;
    }
    if list.push(Instr::End).is_err() {
        return Err(AllocError);
    }
    Ok(List::from_vec(list))
}
