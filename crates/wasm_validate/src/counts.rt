// What is counted of the bodies.

ghost use Rattle.std.specs.Prelude.{◌≡◌, ◌++◌, [], List, max, map, cond, Some, None, IfOk};
ghost use Rattle.wasm_lang.specs.Limits.{levels};
ghost use Rattle.wasm_lang.specs.Modules.{FunctionType};
ghost use Rattle.wasm_tree.specs.Views.{instr_of, type_of};
ghost use Rattle.wasm_lang_valid.specs.Measures;
ghost use Rattle.wasm_lang_valid.specs.Runnable.{or_else};
ghost use Rattle.wasm_validate_bodies.specs.Calls.{IsCalled};

use std::alloc::{AllocError, Global};
use wasm_tree::{FuncType, Instr};
use wasm_validate_bodies::{Called, has_mul_div, larger, levels_of};

/// The levels of the deepest body, the greatest number of slots, the number of the first function that multiplies
/// or divides words of 64 bits, and the types that indirect calls name.
#[derive(Drop)]
pub struct Counts {
    pub levels: usize,
    pub slots: usize,
    pub mul_div: Option<usize>,
    pub called: Called,
}

impl Counts {
    /// Of no body.
    pub fn new(alloc: Global) -> Counts
        ensures levels { result.levels ≡ 0 }
        ensures slots { result.slots ≡ 0 }
        ensures mul_div { result.mul_div ≡ None }
        ensures called { (types : List FunctionType) → IsCalled result.called types [] }
    {
        Counts {
            levels: 0,
            slots: 0,
            mul_div: None,
            called: Called::new(alloc),
        }
    }

    /// One more body, of the function of this number, with so many slots.
    pub fn add(
        &mut self,
        alloc: Global,
        types: &[FuncType],
        function: usize,
        slots: usize,
        code: &[Instr],
    ) -> Result<(), AllocError>
        ensures levels { self.new.levels ≡ max self.old.levels (levels (map instr_of code.now)) }
        ensures slots { self.new.slots ≡ max self.old.slots slots }
        ensures mul_div { self.new.mul_div ≡ or_else self.old.mul_div (cond (Measures.has_mul_div (map instr_of code.now)) (Some function) None) }
        ensures called { IfOk result (λ _. (before : List FunctionType) → IsCalled self.old.called (map type_of types.now) before → IsCalled self.new.called (map type_of types.now) (before ++ Measures.called_in (map type_of types.now) (map instr_of code.now))) }
    {
        self.levels = larger(self.levels, levels_of(code));
        self.slots = larger(self.slots, slots);
        self.mul_div = first(self.mul_div, function, has_mul_div(code));
        self.called.add(alloc, types, code)
    }
}

// The first number, or this one where it counts.
fn first(before: Option<usize>, function: usize, counts: bool) -> Option<usize>
    ensures { result ≡ or_else before (cond counts (Some function) None) }
{
    match before {
        Some(n) => Some(n),
        None if counts => Some(function),
        None => None,
    }
}
