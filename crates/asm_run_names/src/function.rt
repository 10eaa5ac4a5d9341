//! The names of one function.
ghost use Rattle.std.specs.Prelude.{◌≡◌, IfOk};
ghost use Rattle.sem_words.specs.Lists.{text_bytes};
ghost use Rattle.asm_tree.specs.Views.{function_view};
ghost use Rattle.asm_lang_valid.specs.Typing.{named};
ghost use Rattle.asm_names.specs.Meanings.{meaning_view};
ghost use Rattle.asm_names.specs.Members.{IsNumbered};
ghost use Rattle.asm_run_code.specs.Names as code;
ghost use Rattle.asm_run_names.specs.Names.{scope_said};
ghost use Rattle.asm_run_names.specs.Callees.{callee_of};

use crate::callee::{Callee, called};
use crate::kinds::kind_of;
use crate::module::ModuleNames;
use crate::names::local_slots;
use crate::numbers::small;
use asm_names::{Meaning, Scope};
use asm_tree::Function;
use heap_lang::ViewKind;
use name_slots::Slots;
use sem_words::Text;
use std::alloc::{AllocError, Global};
use std::marker::Model;

/// The slots of the variables of one function, and what names mean in it. Its contracts see the module and the function.
pub struct FunctionNames<'m, 'a> {
    module: &'m ModuleNames<'a>,
    function: &'a Function,
    scope: Scope<'m, 'a>,
    // parameters and locals
    slots: Slots<'a>,
    // the first slot after theirs
    free: u32,
}

/// By hand, so that their end is one call wherever they are let go.
impl Drop for FunctionNames<'_, '_> {
    fn drop(self) {
        let FunctionNames {
            module: _,
            function: _,
            scope: _,
            slots: _,
            free: _,
        } = self;
    }
}

impl<'m, 'a> Model for FunctionNames<'m, 'a> {
    ghost use Rattle.std.specs.Coded.{codes};
    ghost use Rattle.asm_tree.specs.contracts.tree.Expr as exprs;
    ghost use Rattle.asm_tree.specs.contracts.tree.Stmt as stmts;
    ghost use Rattle.asm_run_names.specs.Names.{Within, IsWithin};

    ghost Value = { Within };

    ghost coded = { Prim.hlevel (codes, exprs.the_row.coded, stmts.the_row.coded) };

    ghost view = { λ n. record { home = n.«module».now; function = n.function.now } };

    ghost invariant = { λ n. IsWithin n.«module».now n.function.now n.scope n.slots n.free };
}

impl<'m, 'a> FunctionNames<'m, 'a> {
    /// The names of a function of the module. That its variables have slots of 32 bits is tested here once.
    pub fn new(
        alloc: Global,
        module: &'m ModuleNames<'a>,
        function: &'a Function,
    ) -> Result<FunctionNames<'m, 'a>, AllocError>
        ensures home { IfOk result (λ names. names.home ≡ «module».now) }
        ensures function { IfOk result (λ names. names.function ≡ function.now) }
    {
        let free = free_slot(function)?;
        let slots = local_slots(alloc, function)?;
        match Scope::new(alloc, module.environment(), function) {
            Ok(scope) => Ok(FunctionNames {
                module,
                function,
                scope,
                slots,
                free,
            }),
            Err(error) => Err(error),
        }
    }

    /// What a name means in the function, or None where it isn't declared.
    pub fn meaning(&self, name: &Text) -> Option<Meaning<'a>>
        ensures known { meaning_view result ≡ named (scope_said self.now) (text_bytes name.now) }
        ensures numbered { IsNumbered (scope_said self.now).home result }
    {
        self.scope.meaning(name.as_bytes())
    }

    /// How the elements of a view are accessed.
    pub fn view_kind(&self, name: &Text) -> ViewKind
        ensures { result ≡ code.view_kind (named (scope_said self.now) (text_bytes name.now)) }
    {
        kind_of(self.meaning(name))
    }

    /// What a call by a name calls.
    pub fn callee(&self, name: &Text) -> Result<Callee, AllocError>
        ensures { IfOk result (λ callee. callee ≡ callee_of (scope_said self.now).home (text_bytes name.now) (named (scope_said self.now) (text_bytes name.now))) }
    {
        called(self.module, name, self.meaning(name))
    }

    /// The slot of a local variable.
    pub fn slot(&self, name: &Text) -> Option<u32>
        ensures { result ≡ code.local_slot (scope_said self.now) (text_bytes name.now) }
    {
        // it has 32 bits, and the slots of variables lie below it
        let _free = self.free;
        match self.slots.slot(name.as_bytes()) {
            Some(slot) => Some(slot as u32),
            None => None,
        }
    }

    /// The number of a variable of the module.
    pub fn global(&self, name: &Text) -> Result<u32, AllocError>
        ensures { IfOk result (λ n. n ≡ code.global_slot (scope_said self.now) (text_bytes name.now)) }
    {
        small(self.module.global(name))
    }

    /// The first slot after those of the variables.
    pub fn first_free(&self) -> u32
        ensures { result ≡ code.first_free (scope_said self.now).within }
    {
        self.free
    }

    /// The names of the module.
    pub fn module(&self) -> &'m ModuleNames<'a>
        ensures { result.now ≡ self.now.home }
    {
        self.module
    }

    /// The function.
    pub fn function(&self) -> &'a Function
        ensures { result.now ≡ self.now.function }
    {
        self.function
    }
}

// The first slot after those of the variables of a function.
fn free_slot(function: &Function) -> Result<u32, AllocError>
    ensures { IfOk result (λ free. free ≡ code.first_free (function_view function.now)) }
{
    let params = function.params.as_slice();
    let locals = function.locals.as_slice();
    small(params.len() + locals.len())
}
