// The types that indirect calls name, those of one form counted once.

ghost use Rattle.std.specs.Prelude.{◌≡◌, ◌≤◌, ◌^◌, ◌++◌, ◌∷◌, [], List, map, Some, slice_get, IfOk};
ghost use Rattle.wasm_lang.specs.declared.types.ValType.{ValType};
ghost use Rattle.wasm_lang.specs.Modules.{FunctionType};
ghost use Rattle.wasm_tree.specs.Views.{instr_of, type_of};
ghost use Rattle.wasm_lang_valid.specs.Measures;
ghost use Rattle.wasm_lang_valid.specs.Measures.{distinct, is_among};
ghost use Rattle.wasm_validate_bodies.specs.Calls;
ghost use Rattle.wasm_validate_bodies.specs.Calls.{IsCalled, IsNoted};

use indexmap::IndexSet;
use std::alloc::{AllocError, Global};
use wasm_lang::ValType;
use wasm_tree::{FuncType, Instr};

/// The types that calls named so far: their numbers, and their forms.
#[derive(Drop)]
pub struct Called {
    numbers: IndexSet<u32>,
    forms: IndexSet<Vec<u8>>,
}

impl Called {
    /// No type yet.
    pub fn new(alloc: Global) -> Called
        ensures { (types : List FunctionType) → IsCalled result types [] }
    {
        Called {
            numbers: IndexSet::new(alloc),
            forms: IndexSet::new(alloc),
        }
    }

    /// The types that a body's indirect calls name come to those before.
    pub fn add(
        &mut self,
        alloc: Global,
        types: &[FuncType],
        code: &[Instr],
    ) -> Result<(), AllocError>
        ensures { IfOk result (λ _. (before : List FunctionType) → IsCalled self.old (map type_of types.now) before → IsCalled self.new (map type_of types.now) (before ++ Measures.called_in (map type_of types.now) (map instr_of code.now))) }
    {
        for instr in code {
            self.note(alloc, types, instr)?;
        }
        Ok(())
    }

    // The type that one instruction calls, if any.
    fn note(&mut self, alloc: Global, types: &[FuncType], instr: &Instr) -> Result<(), AllocError>
        ensures { IfOk result (λ _. (before : List FunctionType) → IsCalled self.old (map type_of types.now) before → IsCalled self.new (map type_of types.now) (before ++ Measures.called (map type_of types.now) (instr_of instr.now))) }
    {
        match instr {
            Instr::CallIndirect(number) => match types.get(*number as usize) {
                Some(called) => self.note_type(alloc, *number, called),
                None => Ok(()),
            },
            _ => Ok(()),
        }
    }

    // A type of this number.
    fn note_type(&mut self, alloc: Global, number: u32, called: &FuncType) -> Result<(), AllocError>
        ensures { IfOk result (λ _. (types before : List FunctionType) → slice_get types number ≡ Some (type_of called.now) → IsCalled self.old types before → IsCalled self.new types (before ++ type_of called.now ∷ [])) }
    {
        match self.numbers.insert(number) {
            Ok(true) => self.note_form(alloc, called),
            Ok(false) => Ok(()),
            Err(_) => Err(AllocError),
        }
    }

    // A type's form.
    fn note_form(&mut self, alloc: Global, called: &FuncType) -> Result<(), AllocError>
        ensures numbers { IfOk result (λ _. self.new.numbers ≡ self.old.numbers) }
        ensures forms { IfOk result (λ _. IsNoted (Calls.form (type_of called.now)) self.old.forms.keys self.new.forms.keys) }
    {
        let form = form_of(alloc, called)?;
        match self.forms.insert(form) {
            Ok(_) => Ok(()),
            Err(_) => Err(AllocError),
        }
    }

    /// Whether a type of this form is among them.
    pub fn has(&self, form: &Vec<u8>) -> bool
        ensures { (types called : List FunctionType) (t : FunctionType) → IsCalled self.now types called → form.now.items ≡ Calls.form t → result ≡ is_among t called }
    {
        self.forms.contains(form)
    }

    /// How many there are: no more than numbers of 32 bits.
    pub fn count(&self) -> usize
        ensures counted { (types called : List FunctionType) → IsCalled self.now types called → result ≡ distinct called }
        ensures few { (types called : List FunctionType) → IsCalled self.now types called → result ≤ 2 ^ 32 }
    {
        self.forms.len()
    }
}

/// A type's form in bytes: the parameters, a mark, and the results.
pub fn form_of(alloc: Global, function_type: &FuncType) -> Result<Vec<u8>, AllocError>
    ensures { IfOk result (λ form. form.items ≡ Calls.form (type_of function_type.now)) }
{
    let mut form = Vec::new(alloc);
    add_types(&mut form, function_type.params.as_slice())?;
    form.push(0x40)?;
    add_types(&mut form, function_type.results.as_slice())?;
    Ok(form)
}

fn add_types(form: &mut Vec<u8>, types: &[ValType]) -> Result<(), AllocError>
    ensures { IfOk result (λ _. form.new.items ≡ form.old.items ++ map Calls.byte_of types.now) }
{
    for t in types {
        form.push(byte_of(*t))?;
    }
    Ok(())
}

fn byte_of(t: ValType) -> u8
    ensures { result ≡ Calls.byte_of t }
{
    match t {
        ValType::I32 => 0x7f,
        ValType::I64 => 0x7e,
    }
}
