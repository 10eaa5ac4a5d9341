//! The clause of the value of a short switch.
ghost use Rattle.std.specs.Prelude.{◌≡◌, ◌<◌, ◌^◌, ◌++◌, true, OnOk, length};
ghost use Rattle.wasm_laws_trees.specs.Spelled.{flat};
ghost use Rattle.wasm_laws_write.specs.Lengths.{IsNarrow};
ghost use Rattle.wasm_laws_write.specs.Each.{EachIn};
ghost use Rattle.asm_tree.specs.Views.{clauses_view};
ghost use Rattle.asm_lang_valid.specs.Typing as typing;
ghost use Rattle.asm2wasm_translation.specs.Bodies as code;
ghost use Rattle.asm2wasm_emit_switches.specs.Cases.{one_clause, tests_for};

use crate::values::is_value;
use asm_tree::Clause;
use asm2wasm_emit_pieces::Output;
use sem_words::{Bin, List};
use std::alloc::{AllocError, Global};
use switch_cases::{CaseRange, before_default, target_labels, word_of};
use wasm_tree::Instr;

/// To the label of the clause of the value in the local `t`: label i is the place of clause i, and the last one the end
/// of the switch.
pub fn dispatch(
    output: &mut Output,
    alloc: Global,
    t: usize,
    clauses: &[Clause],
) -> Result<(), AllocError>
    requires few { length clauses.now < 2 ^ 32 }
    requires narrow { EachIn IsNarrow (code.dispatch t (clauses_view clauses.now)) }
    ensures { OnOk result (output.new ≡ output.old ++ flat (code.dispatch t (clauses_view clauses.now))) }
{
    if CaseRange::of(clauses).is_dense() {
        table_branch(output, alloc, t, clauses)
    } else {
        tests(output, t, clauses)
    }
}

// By a table.
fn table_branch(
    output: &mut Output,
    alloc: Global,
    t: usize,
    clauses: &[Clause],
) -> Result<(), AllocError>
    requires few { length clauses.now < 2 ^ 32 }
    requires dense { code.is_dense (typing.values (clauses_view clauses.now)) ≡ true }
    requires narrow { EachIn IsNarrow (code.table_branch t (clauses_view clauses.now)) }
    ensures { OnOk result (output.new ≡ output.old ++ flat (code.table_branch t (clauses_view clauses.now))) }
{
    let low = word_of(CaseRange::of(clauses).low);
    let labels = target_labels(alloc, clauses)?;
    let default = before_default(clauses) as u32;
    output.local_get(t)?;
    output.push(Instr::Const32(low))?;
    output.push(Instr::Bin32(Bin::Sub))?;
    output.push(Instr::BrTable(List::from_vec(labels), default))
}

// By a test for each case.
fn tests(output: &mut Output, t: usize, clauses: &[Clause]) -> Result<(), AllocError>
    requires few { length clauses.now < 2 ^ 32 }
    requires narrow { EachIn IsNarrow (code.case_branches t 0 (clauses_view clauses.now)) }
    ensures { OnOk result (output.new ≡ output.old ++ flat (tests_for t (clauses_view clauses.now))) }
{
    case_branches(output, t, clauses)?;
    output.push(Instr::Br(before_default(clauses) as u32))
}

fn case_branches(output: &mut Output, t: usize, clauses: &[Clause]) -> Result<(), AllocError>
    requires narrow { EachIn IsNarrow (code.case_branches t 0 (clauses_view clauses.now)) }
    ensures { OnOk result (output.new ≡ output.old ++ flat (code.case_branches t 0 (clauses_view clauses.now))) }
{
    for (i, clause) in clauses.iter().enumerate() {
        case_branch(output, t, i, clause.value)?;
    }
    Ok(())
}

fn case_branch(
    output: &mut Output,
    t: usize,
    i: usize,
    value: Option<i64>,
) -> Result<(), AllocError>
    requires narrow { EachIn IsNarrow (code.case_branches t i (one_clause value)) }
    ensures { OnOk result (output.new ≡ output.old ++ flat (code.case_branches t i (one_clause value))) }
{
    match value {
        None => Ok(()),
        Some(value) => {
            is_value(output, t, value)?;
            output.push(Instr::BrIf(i as u32))
        }
    }
}
