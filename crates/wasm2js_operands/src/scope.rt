//! What a body is in.
ghost use Rattle.std.specs.Prelude.{◌≡◌, map};
ghost use Rattle.wasm_tree.specs.Views.{type_of};
ghost use Rattle.wasm2js_operands.specs.Forms.{form_numbers};

use wasm_lang::{GlobalType, ValType};
use wasm_tree::FuncType;

/// What the code of a function may refer to.
#[derive(Clone, Copy)]
pub struct BodyScope<'a> {
    /// The module's types.
    pub types: &'a [FuncType],
    /// For each of them the least number of a type of its form.
    pub forms: &'a [u64],
    /// The number of each function's type, imported ones first.
    pub functions: &'a [u32],
    /// Whether the module has a table, and a memory.
    pub table: bool,
    pub memory: bool,
    /// Imported ones first.
    pub globals: &'a [GlobalType],
    /// Parameters first.
    pub locals: &'a [ValType],
    pub returns: Option<ValType>,
    ghost least: { forms.now ≡ form_numbers (map type_of types.now) },
}

impl<'a> BodyScope<'a> {
    ghost use Rattle.std.specs.Prelude.{◌<◌, length, option_map, option_copied, slice_get, Some};
    ghost use Rattle.wasm_lang_valid.specs.Typing as typing;
    ghost use Rattle.wasm2js_translation.specs.Bodies.{form_number};
    ghost use Rattle.wasm2js_operands.specs.Scopes.{context_in};

    /// A type of the module.
    pub fn type_at(&self, number: u32) -> Option<&'a FuncType>
        ensures { option_map type_of (option_copied result) ≡ slice_get (context_in self.now).types number }
    {
        self.types.get(number as usize)
    }

    /// The least number of a type of the form that the type of this number has.
    pub fn form_at(&self, number: u32) -> u64
        requires { number < length (context_in self.now).types }
        ensures { Some result ≡ option_map (form_number (context_in self.now).types) (slice_get (context_in self.now).types number) }
    {
        self.forms[number as usize]
    }

    /// The type of a function.
    pub fn function_type(&self, function: u32) -> Option<&'a FuncType>
        ensures { option_map type_of (option_copied result) ≡ typing.type_of (context_in self.now) function }
    {
        match self.functions.get(function as usize) {
            None => None,
            Some(number) => self.type_at(*number),
        }
    }
}
