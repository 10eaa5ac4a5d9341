//! The names of a module.
ghost use Rattle.std.specs.Prelude.{◌≡◌, IfOk, map};
ghost use Rattle.std.specs.Option.{unwrap_or};
ghost use Rattle.sem_words.specs.Lists.{text_bytes};
ghost use Rattle.asm_tree.specs.Views.{module_view};
ghost use Rattle.asm_lang_valid.specs.Refusal.{function_number};
ghost use Rattle.asm_names.specs.Environments.{IsComplete};
ghost use Rattle.asm2wasm_translation.specs.Numbers.{slot_of, global_names};
ghost use Rattle.asm_run_code.specs.Names as code;

use crate::names::{Places, places_of};
use asm_names::Environment;
use asm_tree::Module;
use sem_words::Text;
use std::alloc::{AllocError, Global};
use std::marker::Model;

/// The numbers of a module's functions, int variables and tables, each found by a map, and what its names mean. Its contracts see
/// the module itself.
pub struct ModuleNames<'a> {
    module: &'a Module,
    environment: Environment<'a>,
    places: Places<'a>,
}

/// By hand, so that their end is one call wherever they are let go.
impl Drop for ModuleNames<'_> {
    fn drop(self) {
        let ModuleNames {
            module: _,
            environment: _,
            places: _,
        } = self;
    }
}

impl<'a> Model for ModuleNames<'a> {
    ghost use Rattle.std.specs.Coded.{codes};
    ghost use Rattle.asm_tree.specs.declared.tree.Module.{Module as Tree};
    ghost use Rattle.asm_tree.specs.contracts.tree.Expr as exprs;
    ghost use Rattle.asm_tree.specs.contracts.tree.Stmt as stmts;
    ghost use Rattle.asm_run_names.specs.Names.{AreNames};

    ghost Value = { Tree };

    ghost coded = { Prim.hlevel (codes, exprs.the_row.coded, stmts.the_row.coded) };

    ghost view = { λ n. n.«module».now };

    ghost invariant = { λ n. AreNames n.«module».now n.environment n.places.functions n.places.globals n.places.tables };
}

impl<'a> ModuleNames<'a> {
    /// The names of a module.
    pub fn new(alloc: Global, module: &'a Module) -> Result<ModuleNames<'a>, AllocError>
        ensures { IfOk result (λ names. names ≡ «module».now) }
    {
        let places = places_of(alloc, module)?;
        match Environment::new(alloc, module) {
            Ok(environment) => Ok(ModuleNames {
                module,
                environment,
                places,
            }),
            Err(error) => Err(error),
        }
    }

    /// The module.
    pub fn module(&self) -> &'a Module
        ensures { result.now ≡ self.now }
    {
        self.module
    }

    /// What its names mean.
    pub fn environment(&self) -> &Environment<'a>
        ensures of { result.now.home.now ≡ self.now }
        ensures complete { IsComplete result.now }
    {
        &self.environment
    }

    /// The number of the first function of this name, or how many there are.
    pub fn function_number(&self, name: &Text) -> usize
        ensures { result ≡ function_number (module_view self.now).functions (text_bytes name.now) }
    {
        self.places.functions.slot_or_len(name.as_bytes())
    }

    /// The number of an int variable, or 0.
    pub fn global(&self, name: &Text) -> usize
        ensures { result ≡ unwrap_or (slot_of (global_names (module_view self.now)) (text_bytes name.now)) 0 }
    {
        match self.places.globals.slot(name.as_bytes()) {
            Some(slot) => slot,
            None => 0,
        }
    }

    /// The number of a table, or 0.
    pub fn table(&self, name: &Text) -> usize
        ensures { result ≡ code.table_number (module_view self.now) (text_bytes name.now) }
    {
        match self.places.tables.slot(name.as_bytes()) {
            Some(slot) => slot,
            None => 0,
        }
    }
}
