//! The instructions that were given so far.
ghost use Rattle.std.specs.Prelude.{◌≡◌, ◌<◌, ◌^◌, [], ◌∷◌, ◌++◌, OnOk, map};
ghost use Rattle.sem_words.specs.Lists.{list_items};
ghost use Rattle.wasm_lang.specs.Instructions.{end_mark, plain, local_get, local_set, local_tee, global_get, global_set, const32, call as call_instruction, call_indirect as call_entry};
ghost use Rattle.wasm_tree.specs.Views.{instr_of};
ghost use Rattle.asm2wasm_emit_pieces.specs.Endings as endings;
ghost use Rattle.asm2wasm_emit_pieces.specs.Endings.{without_else};

use sem_words::List;
use std::alloc::{AllocError, Global};
use std::marker::Model;
use wasm_tree::Instr;

/// Instructions that were given so far, in order.
#[derive(Drop)]
pub struct Output {
    code: Vec<Instr>,
}

impl Model for Output {
    ghost use Rattle.std.specs.Prelude.{List, map};
    ghost use Rattle.wasm_lang.specs.Instructions.{Instruction};
    ghost use Rattle.wasm_tree.specs.Views.{instr_of};

    ghost Value = { List Instruction };

    ghost view = { λ output. map instr_of output.code.items };
}

impl Output {
    /// None. It takes no memory.
    pub fn new(alloc: Global) -> Output
        ensures { result ≡ [] }
    {
        Output {
            code: Vec::new(alloc),
        }
    }

    /// One more instruction.
    pub fn push(&mut self, instr: Instr) -> Result<(), AllocError>
        ensures { OnOk result (self.new ≡ self.old ++ instr_of instr ∷ []) }
    {
        self.code.push(instr)?;
        Ok(())
    }

    /// Ends an `if` whose second arm was begun with an `Else`. An `Else` with nothing after it is taken back.
    pub fn end_arms(&mut self) -> Result<(), AllocError>
        ensures { OnOk result (self.new ≡ without_else self.old ++ end_mark ∷ []) }
    {
        drop_else(&mut self.code)?;
        self.push(Instr::End)
    }

    /// All of them.
    pub fn into_list(self) -> List<Instr>
        ensures { map instr_of (list_items result) ≡ self }
    {
        List::from_vec(self.code)
    }

    /// `local.get`, of a local below 2^32.
    pub fn local_get(&mut self, x: usize) -> Result<(), AllocError>
        requires { x < 2 ^ 32 }
        ensures { OnOk result (self.new ≡ self.old ++ plain (local_get x) ∷ []) }
    {
        self.push(Instr::LocalGet(x as u32))
    }

    /// `local.set`, of a local below 2^32.
    pub fn local_set(&mut self, x: usize) -> Result<(), AllocError>
        requires { x < 2 ^ 32 }
        ensures { OnOk result (self.new ≡ self.old ++ plain (local_set x) ∷ []) }
    {
        self.push(Instr::LocalSet(x as u32))
    }

    /// `local.tee`, of a local below 2^32.
    pub fn local_tee(&mut self, x: usize) -> Result<(), AllocError>
        requires { x < 2 ^ 32 }
        ensures { OnOk result (self.new ≡ self.old ++ plain (local_tee x) ∷ []) }
    {
        self.push(Instr::LocalTee(x as u32))
    }

    /// `global.get`, of a global below 2^32.
    pub fn global_get(&mut self, x: usize) -> Result<(), AllocError>
        requires { x < 2 ^ 32 }
        ensures { OnOk result (self.new ≡ self.old ++ plain (global_get x) ∷ []) }
    {
        self.push(Instr::GlobalGet(x as u32))
    }

    /// `global.set`, of a global below 2^32.
    pub fn global_set(&mut self, x: usize) -> Result<(), AllocError>
        requires { x < 2 ^ 32 }
        ensures { OnOk result (self.new ≡ self.old ++ plain (global_set x) ∷ []) }
    {
        self.push(Instr::GlobalSet(x as u32))
    }

    /// `i32.const`, of a number below 2^32.
    pub fn number(&mut self, n: usize) -> Result<(), AllocError>
        requires { n < 2 ^ 32 }
        ensures { OnOk result (self.new ≡ self.old ++ plain (const32 n) ∷ []) }
    {
        self.push(Instr::Const32(n as u32))
    }

    /// `call`, of a function below 2^32.
    pub fn call(&mut self, function: usize) -> Result<(), AllocError>
        requires { function < 2 ^ 32 }
        ensures { OnOk result (self.new ≡ self.old ++ call_instruction function ∷ []) }
    {
        self.push(Instr::Call(function as u32))
    }

    /// `call_indirect`, of a type below 2^32.
    pub fn call_indirect(&mut self, function_type: usize) -> Result<(), AllocError>
        requires { function_type < 2 ^ 32 }
        ensures { OnOk result (self.new ≡ self.old ++ call_entry function_type ∷ []) }
    {
        self.push(Instr::CallIndirect(function_type as u32))
    }
}

// Takes back an `Else` at the end.
fn drop_else(code: &mut Vec<Instr>) -> Result<(), AllocError>
    ensures { OnOk result (map instr_of code.new.items ≡ without_else (map instr_of code.old.items)) }
{
    let Some(last) = code.pop() else {
        return Ok(());
    };
    let marks = is_else(&last);
    if marks {
        return Ok(());
    }
    code.push(last)?;
    Ok(())
}

fn is_else(instr: &Instr) -> bool
    ensures { result ≡ endings.is_else (instr_of instr.now) }
{
    matches!(instr, Instr::Else)
}
