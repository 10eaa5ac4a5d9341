//! What has been read of a module.

ghost use Rattle.std.specs.Prelude.{◌≡◌};
ghost use Rattle.asm_lang.specs.Heights.{exports_height};
ghost use Rattle.asm_lang.specs.Machine.{module_of};
ghost use Rattle.asm_lang.specs.Modules as plain;
ghost use Rattle.asm_grammar_nodes.specs.Views.{exports_view, heading_view, module_view};
ghost use Rattle.asm_grammar_decls.specs.Variables.{variables_of};
ghost use Rattle.asm_grammar_functions.specs.Bodies.{functions_of};
ghost use Rattle.asm_grammar_outside.specs.Outside.{tables_of};

use crate::tall::TallModule;
use asm_grammar_functions::{TallFunctions, leaves};
use asm_grammar_nodes::{
    ExportTree, ExportsTree, Heading, Height, ModuleTree, TableTree, VariableTree,
};
use sem_words::List;
use std::alloc::Global;
use std::mem;

/// The parts of a module, as far as they have been read. A part that has not begun says nothing.
pub struct Parts {
    pub heading: Heading,
    pub variables: List<VariableTree>,
    pub functions: TallFunctions,
    pub tables: List<TableTree>,
    pub exports: List<ExportTree>,
}

/// By hand, as all that the readings hold, so that its end is one call wherever it is let go.
impl Drop for Parts {
    fn drop(self) {
        let Parts {
            heading: _,
            variables: _,
            functions: _,
            tables: _,
            exports: _,
        } = self;
    }
}

impl Parts {
    ghost use Rattle.std.specs.Prelude.{◌≡◌, []};

    /// With a heading alone.
    pub fn new(alloc: Global, heading: Heading) -> Parts
        ensures heading { result.heading ≡ heading }
        ensures variables { variables_of result.variables ≡ [] }
    {
        Parts {
            heading,
            variables: List::new(alloc),
            functions: TallFunctions::new(alloc),
            tables: List::new(alloc),
            exports: List::new(alloc),
        }
    }

    /// Goes on after the global variables, with no function and no table as yet.
    pub fn end_globals(&mut self, alloc: Global)
        ensures heading { self.new.heading ≡ self.old.heading }
        ensures variables { self.new.variables ≡ self.old.variables }
        ensures functions { functions_of self.new.functions ≡ [] }
        ensures tables { tables_of self.new.tables ≡ [] }
    {
        self.functions = TallFunctions::new(alloc);
        self.tables = List::new(alloc);
    }

    /// Goes on after the functions, with no table as yet.
    pub fn end_functions(&mut self, alloc: Global)
        ensures heading { self.new.heading ≡ self.old.heading }
        ensures variables { self.new.variables ≡ self.old.variables }
        ensures functions { self.new.functions ≡ self.old.functions }
        ensures tables { tables_of self.new.tables ≡ [] }
    {
        self.tables = List::new(alloc);
    }

    /// Takes all out.
    pub fn taken(&mut self, alloc: Global) -> Parts
        ensures { result ≡ self.old }
    {
        let heading = Heading {
            name: None,
            params: List::new(alloc),
        };
        mem::replace(self, Parts::new(alloc, heading))
    }

    /// The whole module.
    pub fn whole(self, exports: ExportsTree) -> TallModule
        ensures { module_view result.tree ≡ module_of (heading_view self.heading) (variables_of self.variables) (functions_of self.functions) (tables_of self.tables) (exports_view exports) }
    {
        let Parts {
            heading,
            variables,
            functions,
            tables,
            exports: _,
        } = self;
        let TallFunctions {
            trees,
            greatest,
            ..
        } = functions;
        let ends = leaves(tables.len()).or(exports_height(&exports));
        let height = leaves(variables.len()).or(greatest).or(ends).above();
        let tree = ModuleTree {
            heading,
            globals: variables,
            functions: trees,
            tables,
            exports,
        };
        TallModule { tree, height }
    }
}

fn exports_height(exports: &ExportsTree) -> Height
    ensures { result.count ≡ exports_height (plain.exports_of (exports_view exports.now)) }
{
    match exports {
        ExportsTree::One(_, _) => Height::leaf(),
        ExportsTree::Many(exports) => leaves(exports.len()),
    }
}
