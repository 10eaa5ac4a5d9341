//! The labels of the clauses of a switch.
ghost use Rattle.std.specs.Prelude.{◌≡◌, ◌<◌, ◌≤◌, ◌^◌, true, suc, length, IfOk};
ghost use Rattle.asm_tree.specs.Views.{clauses_view};
ghost use Rattle.asm_lang_valid.specs.Typing as typing;
ghost use Rattle.asm_lang_exec.specs.Meaning as meaning;
ghost use Rattle.asm2wasm_translation.specs.Bodies as code;
ghost use Rattle.switch_cases.specs.Cases.{with_target, IsWithin};

use crate::range::CaseRange;
use asm_tree::Clause;
use std::alloc::{AllocError, Global};

/// The number of the default, or how many clauses there are where there is none.
pub fn before_default(clauses: &[Clause]) -> usize
    ensures exact { result ≡ meaning.before_default (clauses_view clauses.now) }
    ensures within { result ≤ length clauses.now }
{
    for (i, clause) in clauses.iter().enumerate() {
        if clause.value.is_none() {
            return i;
        }
    }
    clauses.len()
}

/// The clause of each value from the least to the greatest of a switch whose values lie close together. Of cases with one
/// value the first counts.
pub fn target_labels(alloc: Global, clauses: &[Clause]) -> Result<Vec<u32>, AllocError>
    requires few { length clauses.now < 2 ^ 32 }
    requires dense { code.is_dense (typing.values (clauses_view clauses.now)) ≡ true }
    ensures { IfOk result (λ labels. labels.items ≡ code.targets (suc (code.span (typing.values (clauses_view clauses.now)))) (code.low (typing.values (clauses_view clauses.now))) (clauses_view clauses.now)) }
{
    let range = CaseRange::of(clauses);
    let default = before_default(clauses) as u32;
    let mut labels = vec![in alloc; default; range.span() + 1]?;
    let mut i = clauses.len();
    while i > 0 {
        i -= 1;
        set_target(&mut labels, range.low, clauses[i].value, i as u32);
    }
    Ok(labels)
}

fn set_target(labels: &mut Vec<u32>, low: i64, value: Option<i64>, clause: u32)
    requires { IsWithin value low (length labels.old.items) }
    ensures { labels.new.items ≡ with_target value low clause labels.old.items }
{
    match value {
        None => {}
        Some(value) => labels[value.abs_diff(low) as usize] = clause,
    }
}
