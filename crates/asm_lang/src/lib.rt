//! asm.js: the grammar of modules over tokens, the modules that tokens and texts say, and why others say none.
//!
//! A token list is a module of the grammar, or it has exactly one place and kind of fault.
#![tactic(auto)]

ghost use Rattle.std.specs.Prelude.{◌≡◌, ◌≤◌, ◌+◌, ℕ, List, Ok, length, drop};
ghost use Rattle.asm_lang.specs.Lexemes.{Lexeme};
ghost use Rattle.asm_lang.specs.Trees.{ModuleTree};
ghost use Rattle.asm_lang.specs.Grammar.{IsModule};
ghost use Rattle.asm_lang.specs.Faults.{IsFirstFault, IsMissingUse, IsNegativeZero, IsPair, Verdict};
ghost use Rattle.asm_lang.specs.Machine.{run, at_start, failed, grammar, no_use_asm};

/// The grammar gives tokens one module at most, and reading them token by token finds it.
pub fn modules_of_tokens()
    ensures one { (xs : List Lexeme) (m n : ModuleTree) → IsModule m xs → IsModule n xs → m ≡ n }
    ensures complete { (xs : List Lexeme) (m : ModuleTree) → IsModule m xs → run at_start xs ≡ Ok m }
    ensures sound { (xs : List Lexeme) (m : ModuleTree) → run at_start xs ≡ Ok m → IsModule m xs }
{}

/// Tokens are a module or have a fault. Where reading token by token stops is the first place that breaks the grammar.
pub fn faults_of_tokens()
    ensures verdict { (xs : List Lexeme) → Verdict xs }
    ensures negative_zero { (xs : List Lexeme) (k : ℕ) → k + 1 ≤ length xs → run at_start xs ≡ failed grammar (drop (k + 1) xs) → IsPair xs k → IsNegativeZero xs k }
    ensures missing_use { (xs : List Lexeme) (k : ℕ) → k ≤ length xs → run at_start xs ≡ failed no_use_asm (drop k xs) → IsMissingUse xs k }
    ensures first { (xs : List Lexeme) (k : ℕ) → k ≤ length xs → run at_start xs ≡ failed grammar (drop k xs) → ((j : ℕ) → j + 1 ≡ k → ¬ IsPair xs j) → IsFirstFault xs k }
{}
