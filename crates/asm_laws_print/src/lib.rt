//! asm.js: the canonical pieces of a tree are tokens that spell the tree.
#![tactic(auto)]

ghost use Rattle.std.specs.Prelude.{Bool, List, [], false, ◌≡◌, ◌≤◌, ℕ};
ghost use Rattle.std.specs.List.{AllByRecursion};
ghost use Rattle.asm_lang_tokens.specs.Text.{PlacedToken, HasForm};
ghost use Rattle.asm_lang.specs.Lexemes.{Lexeme, lexemes_of};
ghost use Rattle.asm_lang.specs.Trees.{ModuleTree};
ghost use Rattle.asm_lang.specs.Grammar.{IsModule};
ghost use Rattle.asm_lang.specs.Modules.{Expr, Module, module_of};
ghost use Rattle.asm_lang.specs.Printing.{expr_text, module_pieces, canonical_text};
ghost use Rattle.asm_laws_print.specs.Spelled.{Spells, FitsExpr, IsRead};
ghost use Rattle.asm_laws_print.specs.Fitting.{FitsModule, IsModuleRead};

/// The tokens of the canonical pieces of an expression are a spelling of it.
pub fn printed_expressions()
    ensures { (e : Expr) → FitsExpr e → (b c : Bool) (xs ys : List Lexeme) → Spells b (expr_text e) c xs ys → IsRead 0 e xs ys }
{}

/// The tokens of the canonical pieces of a module are a spelling of it.
pub fn module_pieces_are_spelled()
    ensures { (m : Module) → FitsModule m → (c : Bool) (xs : List Lexeme) → Spells false (module_pieces m) c xs [] → IsModuleRead m xs }
{}

/// Each module that tokens of a text spell is one that can be printed and read again.
pub fn read_modules_fit()
    ensures { (tokens : List PlacedToken) (tree : ModuleTree) → AllByRecursion HasForm tokens → IsModule tree (lexemes_of tokens) → FitsModule (module_of tree) }
{}

ghost use Rattle.asm_lang.specs.Heights.{module_height, height_limit, IsWellFormed};
ghost use Rattle.asm_lang.specs.Texts.{IsTextOf};

/// Which modules are well formed, without the tokens.
pub fn well_formed_modules()
    ensures fits { (m : Module) → IsWellFormed m → FitsModule m }
    ensures well_formed { (m : Module) → FitsModule m → module_height m ≤ height_limit → IsWellFormed m }
{}

/// The canonical text of a well-formed module is cut into tokens that are a spelling of the module, and of no other one.
pub fn printed_modules()
    ensures again { (m : Module) → IsWellFormed m → IsTextOf (canonical_text m) m }
    ensures only { (m n : Module) → IsWellFormed m → IsTextOf (canonical_text m) n → n ≡ m }
{}

/// A text is one of one module at most, and then the canonical text of that module is one of it too.
pub fn texts_of_modules()
    ensures one { (text : List ℕ) (m n : Module) → IsTextOf text m → IsTextOf text n → m ≡ n }
    ensures canonical { (text : List ℕ) (m : Module) → IsTextOf text m → IsTextOf (canonical_text m) m }
    ensures apart { (m n : Module) → IsWellFormed m → IsWellFormed n → canonical_text m ≡ canonical_text n → m ≡ n }
{}
