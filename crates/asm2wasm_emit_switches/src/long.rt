//! The number of the first clause of a long switch that is run.
ghost use Rattle.std.specs.Prelude.{◌≡◌, ◌<◌, ◌^◌, [], ◌∷◌, ◌++◌, OnOk};
ghost use Rattle.wasm_lang.specs.Instructions.{local_set};
ghost use Rattle.wasm_laws_trees.specs.Spelled.{flat};
ghost use Rattle.wasm_laws_write.specs.Lengths.{IsNarrow};
ghost use Rattle.wasm_laws_write.specs.Each.{EachIn};
ghost use Rattle.asm_tree.specs.Views.{clauses_view};
ghost use Rattle.asm2wasm_translation.specs.Values as value_codes;
ghost use Rattle.asm2wasm_translation.specs.Bodies as code;
ghost use Rattle.asm2wasm_emit_switches.specs.Cases.{one_clause};

use crate::values::is_value;
use asm_tree::Clause;
use asm2wasm_emit_pieces::Output;
use sem_words::Rel;
use std::alloc::AllocError;
use switch_cases::before_default;
use wasm_tree::Instr;

/// Into the local `k`, the number of the first clause that is run for the value in the local `t`.
pub fn first_clause(
    output: &mut Output,
    t: usize,
    k: usize,
    clauses: &[Clause],
) -> Result<(), AllocError>
    requires narrow { EachIn IsNarrow (code.first_clause t k (clauses_view clauses.now)) }
    ensures { OnOk result (output.new ≡ output.old ++ flat (code.first_clause t k (clauses_view clauses.now))) }
{
    output.push(Instr::Block(None))?;
    case_numbers(output, t, k, clauses)?;
    set_number(output, k, before_default(clauses))?;
    output.push(Instr::End)
}

/// Whether clause `j` is run.
pub fn reached(output: &mut Output, k: usize, j: usize) -> Result<(), AllocError>
    requires narrow { EachIn IsNarrow (code.reached k j) }
    ensures { OnOk result (output.new ≡ output.old ++ flat (code.reached k j)) }
{
    output.local_get(k)?;
    output.number(j)?;
    output.push(Instr::Rel32(Rel::LeU))
}

/// All clauses after one that was run are run.
pub fn all_further(output: &mut Output, k: usize) -> Result<(), AllocError>
    requires narrow { EachIn IsNarrow (code.all_further k) }
    ensures { OnOk result (output.new ≡ output.old ++ flat (code.all_further k)) }
{
    set_number(output, k, 0)
}

fn set_number(output: &mut Output, k: usize, number: usize) -> Result<(), AllocError>
    requires local { k < 2 ^ 32 }
    requires number { number < 2 ^ 32 }
    ensures { OnOk result (output.new ≡ output.old ++ flat (value_codes.plains (value_codes.number number ∷ local_set k ∷ []))) }
{
    output.number(number)?;
    output.local_set(k)
}

fn case_numbers(
    output: &mut Output,
    t: usize,
    k: usize,
    clauses: &[Clause],
) -> Result<(), AllocError>
    requires narrow { EachIn IsNarrow (code.case_numbers t k 0 (clauses_view clauses.now)) }
    ensures { OnOk result (output.new ≡ output.old ++ flat (code.case_numbers t k 0 (clauses_view clauses.now))) }
{
    for (i, clause) in clauses.iter().enumerate() {
        case_number(output, t, k, i, clause.value)?;
    }
    Ok(())
}

fn case_number(
    output: &mut Output,
    t: usize,
    k: usize,
    i: usize,
    value: Option<i64>,
) -> Result<(), AllocError>
    requires narrow { EachIn IsNarrow (code.case_numbers t k i (one_clause value)) }
    ensures { OnOk result (output.new ≡ output.old ++ flat (code.case_numbers t k i (one_clause value))) }
{
    match value {
        None => Ok(()),
        Some(value) => {
            set_number(output, k, i)?;
            is_value(output, t, value)?;
            output.push(Instr::BrIf(0))
        }
    }
}
