//! The grammar of the text form of WebAssembly, read token by token: tokens have one marking at most, and tokens that are no
//! module have one first fault.
#![tactic(auto)]

ghost use Rattle.std.specs.Prelude.{◌≡◌, ◌⊎◌, ℕ, List, Some, None};
ghost use Rattle.wasm_lang.specs.Modules.{WasmModule};
ghost use Rattle.wat_lang.specs.declared.fault.Row.{Row};
ghost use Rattle.wat_lang.specs.Tokens.{string, Token, Reading, IsReading};
ghost use Rattle.wat_lang.specs.Grammar.{Item, Marked, Derives, IsGrammatical, IsFirstFault};
ghost use Rattle.wat_lang.specs.Texts.{SaysModule, IsFault};
ghost use Rattle.wat_laws_grammar.specs.Machine.{feed, run, fed, start};

/// What is derived of some items is read, with its marks, and nothing else is. What a string stands for is nothing to the grammar.
pub fn derivations_are_runs()
    ensures one { (is : List Item) (ms ns : List Marked) (ts : List Token) → Derives is ms ts → Derives is ns ts → ms ≡ ns }
    ensures complete { (is : List Item) (ms : List Marked) (ts : List Token) → Derives is ms ts → run is ts ≡ Some ms }
    ensures sound { (is : List Item) (ms : List Marked) (ts : List Token) → run is ts ≡ Some ms → Derives is ms ts }
    ensures strings { (is : List Item) (v u : List ℕ) → feed is (string v) ≡ feed is (string u) }
{}

/// Tokens are a module or break the grammar, at one place: where reading stops.
pub fn first_faults()
    ensures verdict { (ts : List Token) → ((ms : List Marked) × IsGrammatical ms ts) ⊎ ((k : ℕ) × IsFirstFault ts k) }
    ensures first { (ts : List Token) → run start ts ≡ None → IsFirstFault ts (fed start ts) }
    ensures one { (ts : List Token) (j k : ℕ) → IsFirstFault ts j → IsFirstFault ts k → j ≡ k }
{}

/// A text has tokens or a first fault of them, and no second reading.
pub fn readings_of_a_text()
    ensures some { (text : List ℕ) → (r : Reading) × IsReading text r }
    ensures one { (text : List ℕ) (r s : Reading) → IsReading text r → IsReading text s → r ≡ s }
{}

/// A text says a module or has a fault, and nothing else: one module at most, one row at one place at most, never both.
pub fn one_verdict()
    ensures verdict { (text : List ℕ) → ((m : WasmModule) × SaysModule text m) ⊎ ((row : Row) × (at : ℕ) × IsFault text row at) }
    ensures one_module { (text : List ℕ) (m n : WasmModule) → SaysModule text m → SaysModule text n → m ≡ n }
    ensures one_fault { (text : List ℕ) (r s : Row) (a b : ℕ) → IsFault text r a → IsFault text s b → (r ≡ s) × (a ≡ b) }
    ensures not_both { (text : List ℕ) (m : WasmModule) (row : Row) (at : ℕ) → SaysModule text m → ¬ IsFault text row at }
{}
