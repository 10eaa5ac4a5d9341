//! The numbers of one function.
ghost use Rattle.std.specs.Prelude.{◌≡◌, IfOk};
ghost use Rattle.sem_words.specs.Lists.{text_bytes};
ghost use Rattle.asm_lang_valid.specs.Typing.{named};
ghost use Rattle.asm_names.specs.Meanings.{meaning_view};
ghost use Rattle.asm_names.specs.Members.{IsNumbered};
ghost use Rattle.asm2wasm_translation.specs.Numbers as code;
ghost use Rattle.asm2wasm_numbers.specs.Places.{place_seen};
ghost use Rattle.asm2wasm_numbers.specs.Functions.{scope_said};

use crate::module::ModuleNumbers;
use crate::names::local_slots;
use crate::place::Place;
use asm_names::{Meaning, Scope};
use asm_tree::Function;
use name_slots::Slots;
use sem_words::Text;
use std::alloc::{AllocError, Global};
use std::marker::Model;

/// The places of the variables of one function, and what names mean in it. Its contracts see the module and the function.
#[derive(Drop)]
pub struct FunctionNumbers<'m, 'a> {
    module: &'m ModuleNumbers<'a>,
    function: &'a Function,
    scope: Scope<'m, 'a>,
    // parameters and locals
    slots: Slots<'a>,
}

impl<'m, 'a> Model for FunctionNumbers<'m, 'a> {
    ghost use Rattle.std.specs.Coded.{codes};
    ghost use Rattle.asm_tree.specs.contracts.tree.Expr as exprs;
    ghost use Rattle.asm_tree.specs.contracts.tree.Stmt as stmts;
    ghost use Rattle.asm2wasm_numbers.specs.Functions.{Within, IsWithin};

    ghost Value = { Within };

    ghost coded = { Prim.hlevel (codes, exprs.the_row.coded, stmts.the_row.coded) };

    ghost view = { λ n. record { home = n.«module».now; function = n.function.now } };

    ghost invariant = { λ n. IsWithin n.«module».now n.function.now n.scope n.slots };
}

impl<'m, 'a> FunctionNumbers<'m, 'a> {
    /// The numbers of a function of the module.
    pub fn new(
        alloc: Global,
        module: &'m ModuleNumbers<'a>,
        function: &'a Function,
    ) -> Result<FunctionNumbers<'m, 'a>, AllocError>
        ensures home { IfOk result (λ numbers. numbers.home ≡ «module».now) }
        ensures function { IfOk result (λ numbers. numbers.function ≡ function.now) }
    {
        let scope = Scope::new(alloc, module.environment(), function)?;
        let slots = local_slots(alloc, function)?;
        Ok(FunctionNumbers {
            module,
            function,
            scope,
            slots,
        })
    }

    /// What a name means in the function, or None where it isn't declared.
    pub fn meaning(&self, name: &Text) -> Option<Meaning<'a>>
        ensures known { meaning_view result ≡ named (scope_said self.now) (text_bytes name.now) }
        ensures numbered { IsNumbered (scope_said self.now).home result }
    {
        self.scope.meaning(name.as_bytes())
    }

    /// Where a variable stands.
    pub fn place(&self, name: &Text) -> Place
        ensures { place_seen result ≡ code.place_of (scope_said self.now) (text_bytes name.now) }
    {
        match self.slots.slot(name.as_bytes()) {
            Some(slot) => Place::Local(slot),
            None => self.module.global_place(name.as_bytes()),
        }
    }

    /// The first local that holds no variable.
    pub fn first_scratch(&self) -> usize
        ensures { result ≡ code.first_scratch (scope_said self.now).within }
    {
        let params = self.function.params.as_slice();
        let locals = self.function.locals.as_slice();
        params.len() + locals.len()
    }

    /// The numbers of the module.
    pub fn module(&self) -> &'m ModuleNumbers<'a>
        ensures { result.now ≡ self.now.home }
    {
        self.module
    }

    /// The function.
    pub fn function(&self) -> &'a Function
        ensures { result.now ≡ self.now.function }
    {
        self.function
    }
}
