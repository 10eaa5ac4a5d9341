//! From WebAssembly to asm.js: the names of a translated module are declared once, and used for what they mean.

ghost use Rattle.wasm2js_laws_acceptance.specs.NamesLaws.{VariablesHaveNoRows, FunctionsHaveNoRows, TablesHaveNoRows, ExportsHaveNoRows, NamesHaveNoRows};

/// What a module declares: its variables, functions, tables and exports.
pub fn declarations()
    ensures variables { VariablesHaveNoRows }
    ensures functions { FunctionsHaveNoRows }
    ensures tables { TablesHaveNoRows }
    ensures exports { ExportsHaveNoRows }
{}

/// A module is refused for no name, where its functions are typed.
pub fn names_of_modules()
    ensures { NamesHaveNoRows }
{}
