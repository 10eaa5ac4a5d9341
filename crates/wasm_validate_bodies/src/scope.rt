// What a body may refer to.

ghost use Rattle.std.specs.Prelude.{◌≡◌, Some, None, slice_get, MatchOption};
ghost use Rattle.wasm_tree.specs.Views;
ghost use Rattle.wasm_lang_valid.specs.Typing;
ghost use Rattle.wasm_validate_bodies.specs.Scopes.{outside};

use wasm_lang::{GlobalType, ValType};
use wasm_tree::FuncType;

/// The module's types, its functions by the numbers of their types, whether it has a table and a memory, its
/// globals, and of the body the locals, the parameters first, and the result.
#[derive(Clone, Copy)]
pub struct Scope<'a> {
    pub types: &'a [FuncType],
    pub functions: &'a [u32],
    pub table: bool,
    pub memory: bool,
    pub globals: &'a [GlobalType],
    pub locals: &'a [ValType],
    pub result: Option<ValType>,
}

impl Scope<'_> {
    /// The type of a local.
    pub fn local(&self, x: u32) -> Option<ValType>
        ensures { result ≡ slice_get (outside self.now).locals x }
    {
        self.locals.get(x as usize).copied()
    }

    /// The type of a global.
    pub fn global(&self, x: u32) -> Option<GlobalType>
        ensures { result ≡ slice_get (outside self.now).globals x }
    {
        self.globals.get(x as usize).copied()
    }

    /// A type.
    pub fn function_type(&self, t: u32) -> Option<&FuncType>
        ensures { MatchOption result (slice_get (outside self.now).types t ≡ None) (λ f. slice_get (outside self.now).types t ≡ Some (Views.type_of f.now)) }
    {
        self.types.get(t as usize)
    }

    /// The type of a function.
    pub fn type_of(&self, f: u32) -> Option<&FuncType>
        ensures { MatchOption result (Typing.type_of (outside self.now) f ≡ None) (λ t. Typing.type_of (outside self.now) f ≡ Some (Views.type_of t.now)) }
    {
        match self.functions.get(f as usize) {
            Some(t) => self.function_type(*t),
            None => None,
        }
    }
}

/// The result of a function of this type, which has at most one.
pub fn result_of(function_type: &FuncType) -> Option<ValType>
    ensures { result ≡ Typing.result_of (Views.type_of function_type.now) }
{
    function_type.results.get(0).copied()
}
