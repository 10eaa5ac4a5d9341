//! How many nodes and switch clauses the tokens of a module spell, where its nodes stand, and how long its names are.

ghost use Rattle.std.specs.Prelude.{◌≤◌, ◌+◌, ◌*◌, ℕ, List, Ok, length, drop};
ghost use Rattle.std.specs.List.{All, Contains, concat};
ghost use Rattle.asm_lang_tokens.specs.Text.{PlacedToken, IsReading};
ghost use Rattle.asm_lang.specs.Lexemes.{Lexeme, lexemes_of};
ghost use Rattle.asm_lang.specs.Trees.{ModuleTree};
ghost use Rattle.asm_lang.specs.Grammar.{IsModule};
ghost use Rattle.asm_lang.specs.Modules.{module_of, module_places};
ghost use Rattle.asm2wasm_lang.specs.Counts.{module_clauses, offsets};
ghost use Rattle.asm2wasm_lang.specs.Names.{module_names};

/// The nodes of a module and its switch clauses are together at most twice as many as its tokens.
pub fn nodes_and_clauses()
    ensures { (tree : ModuleTree) (xs : List Lexeme) → IsModule tree xs → length (module_places tree) + module_clauses (module_of tree) ≤ 2 * length xs }
{}

/// Each node of a module stands at a token, but the module itself, which is the first and has place 0.
pub fn places_of_nodes()
    ensures { (tree : ModuleTree) (xs : List Lexeme) → IsModule tree xs → All (Contains (offsets xs)) (drop 1 (module_places tree)) }
{}

/// The names of a module's functions, the keys of its exports and the names of the foreign members that it imports as ints
/// are together at most as long as the text that says the module.
pub fn names_in_a_text()
    ensures { (text : List ℕ) (tokens : List PlacedToken) (tree : ModuleTree) → IsReading text (Ok tokens) → IsModule tree (lexemes_of tokens) → length (concat (module_names (module_of tree))) ≤ length text }
{}
