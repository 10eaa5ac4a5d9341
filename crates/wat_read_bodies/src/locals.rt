//! The locals of a function.

ghost use Rattle.std.specs.Prelude.{◌≡◌, ◌∷◌, ◌++◌, [], IfOk, OnOk, replicate, true, ◌+◌, ◌<◌, ◌^◌};
ghost use Rattle.sem_words.specs.Lists.{list_items};
ghost use Rattle.wasm_tree.specs.Views.{locals_in};
ghost use Rattle.wat_lang.specs.declared.parts.Part.TheVariants as heads;
ghost use Rattle.wat_lang.specs.Names as spec;
ghost use Rattle.wat_read_tokens.specs.Marks.{marks_of, only};
ghost use Rattle.wat_marks.specs.Views.{marked_of};

use sem_words::List;
use std::alloc::{AllocError, Global};
use wasm_lang::ValType;
use wasm_tree::Run;
use wat_lang::Part;
use wat_marks::MarkedToken;
use wat_read_tokens::{Wanted, value_type};

/// Whether one more local of the type goes into the run.
fn takes(run: Run, kind: ValType) -> bool
    ensures { result ≡ true → (run.kind ≡ kind) × (run.count + 1 < 2 ^ 32) }
{
    run.kind == kind && run.count < u32::MAX
}

fn push_local(runs: &mut Vec<Run>, kind: ValType) -> Result<(), AllocError>
    ensures { OnOk result (locals_in runs.new.items ≡ locals_in runs.old.items ++ kind ∷ []) }
{
    match runs.pop() {
        None => push_run(runs, 1, kind),
        Some(last) => {
            if takes(last, kind) {
                push_run(runs, last.count + 1, kind)
            } else {
                runs.push(last)?;
                push_run(runs, 1, kind)
            }
        }
    }
}

fn push_run(runs: &mut Vec<Run>, count: u32, kind: ValType) -> Result<(), AllocError>
    ensures { OnOk result (locals_in runs.new.items ≡ locals_in runs.old.items ++ replicate count kind) }
{
    runs.push(Run { count, kind })?;
    Ok(())
}

#[tactic(auto, using(wat_read_tokens::proofs::Tests::type_reads))]
fn push_local_of(runs: &mut Vec<Run>, token: &MarkedToken<'_>) -> Result<(), AllocError>
    ensures { OnOk result (locals_in runs.new.items ≡ locals_in runs.old.items ++ only (spec.types_part heads.Local (marked_of token.now).mark) (spec.type_of (marked_of token.now))) }
{
    if !Wanted::Type(Part::Local).is(token.mark) {
        return Ok(());
    }
    push_local(runs, value_type(token))?;
    Ok(())
}

/// The locals behind a function's parameters, in runs of one type.
pub fn local_runs(alloc: Global, parts: &[MarkedToken<'_>]) -> Result<List<Run>, AllocError>
    ensures { IfOk result (λ runs. locals_in (list_items runs) ≡ spec.types_in heads.Local (marks_of parts.now)) }
{
    let mut runs = Vec::new(alloc);
    for token in parts {
        push_local_of(&mut runs, token)?;
    }
    Ok(List::from_vec(runs))
}
