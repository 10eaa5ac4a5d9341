//! Function bodies (WebAssembly Core 1.0, section 5.5.13).
ghost use Rattle.std.specs.Prelude.{◌≡◌, ℕ, List, ◌+◌, ◌^◌, ◌++◌, map, replicate, IfOk, OnOk};
ghost use Rattle.wasm_lang.specs.declared.types.ValType.{ValType as PlainType};
ghost use Rattle.wasm_lang.specs.ReadingCode.{spelled};
ghost use Rattle.wasm_tree.specs.Views.{code_of, locals_in};
ghost use Rattle.wasm_binary_write.specs.Spelling.{items, instruction, vector, run, runs, same_type};
ghost use Rattle.wasm_binary_write.specs.Views.{joined_of};
ghost use Rattle.wasm_binary_write.specs.Runs.{runs_after, IsBelow};

use crate::instrs::push_instrs;
use crate::leb::push_wide;
use crate::spell::{Spell, push_vector, put_size};
use std::alloc::{AllocError, Global};
use wasm_tree::{Body, Code, Input, ReadError, Run, ValType, read_instr};

/// Runs of one type, joined: they may have more locals than one run can have.
#[derive(Clone, Copy)]
pub struct Joined {
    pub count: u128,
    pub kind: ValType,
}

impl Spell for Joined {
    ghost spelling = { λ r. run (joined_of r) };

    fn push_to(&self, alloc: Global, out: &mut Vec<u8>) -> Result<(), AllocError> {
        push_wide(out, self.count)?;
        self.kind.push_to(alloc, out)
    }
}

impl Spell for Body<'_> {
    ghost use Rattle.wasm_tree.specs.Views.{body_of};
    ghost use Rattle.wasm_binary_write.specs.Spelling.{body, sized};

    ghost spelling = { λ b. sized (body (body_of b)) };

    fn push_to(&self, alloc: Global, out: &mut Vec<u8>) -> Result<(), AllocError> {
        let start = out.len();
        push_locals(alloc, out, self.locals.as_slice())?;
        push_code(alloc, out, &self.code)?;
        put_size(out, start)
    }
}

// Instructions, also of lent bytes each in its shortest spelling.
fn push_code(alloc: Global, out: &mut Vec<u8>, code: &Code<'_>) -> Result<(), AllocError>
    ensures { OnOk result (out.new.items ≡ out.old.items ++ items instruction (code_of code.now)) }
{
    match code {
        Code::Own(list) => push_instrs(alloc, out, list.as_slice()),
        Code::Lent(bytes) => push_lent(alloc, out, bytes),
    }
}

// .. of bytes, up to the end, or up to bytes that are no instruction.
fn push_lent(alloc: Global, out: &mut Vec<u8>, bytes: &[u8]) -> Result<(), AllocError>
    ensures { OnOk result (out.new.items ≡ out.old.items ++ items instruction (spelled bytes.now)) }
{
    let mut rest = Input::new(bytes);
    for _turn in 0..bytes.len() {
        match read_instr(alloc, rest) {
            Ok((instr, after)) => {
                instr.push_to(alloc, out)?;
                rest = after;
            }
            Err(ReadError::Refused(_)) => return Ok(()),
            Err(ReadError::Memory) => return Err(AllocError),
        }
    }
    Ok(())
}

/// Appends the runs of locals, in the longest runs of one type.
pub fn push_locals(alloc: Global, out: &mut Vec<u8>, locals: &[Run]) -> Result<(), AllocError>
    ensures { OnOk result (out.new.items ≡ out.old.items ++ vector run (runs (locals_in locals.now))) }
{
    let list = runs_of(alloc, locals)?;
    push_vector(alloc, out, &list)
}

// The longest runs of one type.
fn runs_of(alloc: Global, locals: &[Run]) -> Result<Vec<Joined>, AllocError>
    ensures { IfOk result (λ v. map joined_of v.items ≡ runs (locals_in locals.now)) }
{
    let mut done = Vec::new(alloc);
    let mut last = None;
    for run in locals {
        last = next_run(&mut done, last, *run)?;
    }
    if let Some(run) = last {
        done.push(run)?;
    }
    Ok(done)
}

// The last runs, joined, after one more; those that it is not joined with are done.
fn next_run(
    done: &mut Vec<Joined>,
    before: Option<Joined>,
    run: Run,
) -> Result<Option<Joined>, AllocError>
    requires { IsBelow (2 ^ 127) before }
    ensures count { IfOk result (λ next. (limit : ℕ) → IsBelow limit before → IsBelow (limit + 2 ^ 32) next) }
    ensures value { IfOk result (λ next. (rest : List PlainType) → map joined_of done.new.items ++ runs_after next rest ≡ map joined_of done.old.items ++ runs_after before (replicate run.count run.kind ++ rest)) }
{
    if run.count == 0 {
        return Ok(before);
    }
    let next = Joined {
        count: u128::from(run.count),
        kind: run.kind,
    };
    let Some(last) = before else {
        return Ok(Some(next));
    };
    if is_same(last.kind, next.kind) {
        return Ok(Some(Joined {
            count: last.count + next.count,
            kind: last.kind,
        }));
    }
    done.push(last)?;
    Ok(Some(next))
}

fn is_same(a: ValType, b: ValType) -> bool
    ensures { result ≡ same_type a b }
{
    match (a, b) {
        (ValType::I32, ValType::I32) => true,
        (ValType::I32, ValType::I64) => false,
        (ValType::I64, ValType::I32) => false,
        (ValType::I64, ValType::I64) => true,
    }
}
