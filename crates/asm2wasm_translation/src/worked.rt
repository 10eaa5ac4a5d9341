//! Worked code and sessions. Each function does nothing, and its contract is what the check computes of small modules.
ghost use Rattle.std.specs.Prelude.{◌≡◌, ◌∷◌, [], None, codes};
ghost use Rattle.session_lang.specs.Observation.{done, call_returned};
ghost use Rattle.session_lang.specs.CallingForms.{script_to_wasm};
ghost use Rattle.wasm_lang_exec.specs.Fits as machine;
ghost use Rattle.wasm_lang_exec.specs.Session.{wasm};
ghost use Rattle.asm2wasm_lang.specs.Calling.{IsCalledAs};
ghost use Rattle.asm2wasm_translation.specs.Modules.{translation};
ghost use Rattle.asm2wasm_translation.specs.Pieces.{operating, operating_script, long_switch, long_script, small_elements, small_script, bodies, storing, literal_indices, dividing, continuing, switching, few_cases, dense_cases, tabled, tabled_script, storing_script};
ghost use Rattle.asm2wasm_translation.specs.Worked.{ShowsSame, body, storing_code, literal_indices_code, dividing_code, continuing_code, few_code, dense_code, first_code, first_part, all_clauses_code, clauses_part, gave, imported, giving_back, wide_export, of_seven, IsAlike};

/// `H[a>>2]=H[b>>2]=c`: both indices wait on the stack, so that two scratch locals serve both stores.
pub fn a_store_in_a_store()
    ensures { bodies storing ≡ body 2 storing_code ∷ [] }
{}

/// `H[-1]=H[3]=a`: where an element begins is known of an index that is a literal.
pub fn literals_as_indices()
    ensures { bodies literal_indices ≡ body 2 literal_indices_code ∷ [] }
{}

/// `(a|0)/(b|0)|0`: the divisors 0 and -1 go by the product.
pub fn a_guarded_quotient()
    ensures { bodies dividing ≡ body 2 dividing_code ∷ [] }
{}

/// `outer:while(a)while(b)continue outer;`
pub fn a_labelled_continue()
    ensures { bodies continuing ≡ body 0 continuing_code ∷ [] }
{}

/// A switch with a default, by tests; one of values that lie close together, by a table; and the parts
/// of one of many clauses.
pub fn switches()
    ensures by_tests { bodies (switching few_cases) ≡ body 2 few_code ∷ [] }
    ensures by_table { bodies (switching dense_cases) ≡ body 2 dense_code ∷ [] }
    ensures first_of_many { first_part ≡ first_code }
    ensures many_clauses { clauses_part ≡ all_clauses_code }
{}

/// Table calls in the arguments of a table call, a foreign function, and a labelled loop.
pub fn tables_and_loops()
    ensures { IsAlike tabled 0 tabled_script 100 1000 (imported (codes "g") (2 ∷ []) ∷ gave 1010 ∷ imported (codes "g") (2 ∷ []) ∷ imported (codes "g") (4 ∷ []) ∷ gave 1006 ∷ []) done [] }
{}

/// A store in a store, and the outer one outside the heap and inside the memory.
pub fn stores()
    ensures { IsAlike storing 8 storing_script 10 1000 (call_returned ∷ call_returned ∷ []) done (9 ∷ 0 ∷ 0 ∷ 0 ∷ 7 ∷ 0 ∷ 0 ∷ 0 ∷ []) }
{}

/// Loops, switches, operators of all kinds, and small elements: both sessions show the same.
pub fn the_same()
    ensures operators { ShowsSame operating 0 operating_script 100 10000 }
    ensures many_clauses { ShowsSame long_switch 0 long_script 10 20000 }
    ensures elements { ShowsSame small_elements 8 small_script 10 1000 }
{}

/// A function that gives back its argument. A module whose function takes 64 bits and wraps them takes the same script and shows
/// the same; it isn't called as asked, and the translation is.
pub fn a_wide_export()
    ensures fits { machine.misfit wide_export (script_to_wasm of_seven) ≡ None }
    ensures shows_the_same { (wasm wide_export (script_to_wasm of_seven) 10).events ≡ gave 7 ∷ [] }
    ensures wide { IsCalledAs giving_back 4096 wide_export → ⊥ }
    ensures narrow { IsCalledAs giving_back 4096 (translation giving_back 4096) }
{}
