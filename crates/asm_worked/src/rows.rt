//! The rows. Each function does nothing, and its contract is what the check computes of a module.
ghost use Rattle.std.specs.Prelude.{◌≡◌, ◌∷◌, ◌++◌, [], Some, None, pos, codes, replicate};
ghost use Rattle.session_lang.specs.Script.{give};
ghost use Rattle.session_lang.specs.Observation.{call_returned, done, stopped, no_reply, running, ended};
ghost use Rattle.asm_lang_exec.specs.Fits.{misfit};
ghost use Rattle.asm_worked.specs.Forms.{called, replied, script, gave, words, imported};
ghost use Rattle.asm_worked.specs.Worked.{Says, Shows};
ghost use Rattle.asm_worked.specs.Rows as rows;

/// `a+b|0`: 2147483647 + 1 is -2147483648, and 4294967295, as an int, is -1. Results are shown as words.
pub fn sums()
    ensures text { Says rows.sum_text rows.sum }
    ensures wrap { Shows rows.sum 0 rows.sum_script 2 (ended (gave 2147483648 ∷ gave 4294967295 ∷ []) done []) }
{}

/// `(a|0)/(b|0)|0`: -2147483648 by -1 wraps, 7 by 0 is 0, and -7 by 2 is -3.
pub fn quotients()
    ensures text { Says rows.quotient_text rows.quotient }
    ensures guarded { Shows rows.quotient 0 rows.quotient_script 3 (ended (gave 2147483648 ∷ gave 0 ∷ gave 4294967293 ∷ []) done []) }
{}

/// A comparison leaves a boolean in an int variable: `true + true` is 2 and `false + false` is 0.
pub fn comparisons()
    ensures text { Says rows.comparison_text rows.comparison }
    ensures add { Shows rows.comparison 0 rows.comparison_script 2 (ended (gave 2 ∷ gave 0 ∷ []) done []) }
{}

/// With 4,096 bytes, element 1,024 of an `Int32Array` is outside: nothing is written, and what is read
/// is undefined, so 0 as an int. With four bytes more it is there.
pub fn outside_the_view()
    ensures text { Says rows.outside_text rows.outside }
    ensures nothing { Shows rows.outside 4096 rows.outside_script 1 (ended (gave 0 ∷ []) done (replicate 4096 0)) }
    ensures written { Shows rows.outside 4100 rows.outside_script 1 (ended (gave 9 ∷ []) done (replicate 4096 0 ++ 9 ∷ 0 ∷ 0 ∷ 0 ∷ [])) }
{}

/// -2 in an `Int32Array` is 254 in a `Uint8Array`, and its high half -1 in an `Int16Array`.
pub fn views_of_one_buffer()
    ensures text { Says rows.mixed_text rows.mixed }
    ensures mixed { Shows rows.mixed 4 rows.mixed_script 2 (ended (gave 254 ∷ gave 4294967295 ∷ []) done (254 ∷ 255 ∷ 255 ∷ 255 ∷ [])) }
{}

/// A foreign function is called with one argument for its result, and with two for none.
pub fn calls_of_two_shapes()
    ensures text { Says rows.two_shapes_text rows.two_shapes }
    ensures shapes { Shows rows.two_shapes 0 rows.two_shapes_script 1 (ended (imported (codes "f") (1 ∷ []) ∷ imported (codes "f") (1 ∷ 2 ∷ []) ∷ call_returned ∷ []) done []) }
{}

/// `(g(a|0)|0)+1|0`, where the host answers 41 and then 2^32 + 41, 41 alone, or 41 and then throws.
pub fn replies()
    ensures text { Says rows.asking_text rows.asking }
    ensures enough { Shows rows.asking 0 rows.answered_script 2 (ended (imported (codes "g") (7 ∷ []) ∷ gave 42 ∷ imported (codes "g") (4294967295 ∷ []) ∷ gave 42 ∷ []) done []) }
    ensures too_few { Shows rows.asking 0 rows.unanswered_script 2 (ended (imported (codes "g") (7 ∷ []) ∷ gave 42 ∷ []) (no_reply (codes "g") (words (4294967295 ∷ []))) []) }
    ensures throws { Shows rows.asking 0 rows.thrown_script 2 (ended (imported (codes "g") (7 ∷ []) ∷ gave 42 ∷ []) (stopped (codes "g") (words (4294967295 ∷ []))) []) }
{}

/// `while(1)g();` ends where no reply is left or one throws; the call of the script is one unit and
/// each turn another, so that a budget of two lets one turn be seen.
pub fn loops_without_an_end()
    ensures text { Says rows.forever_text rows.forever }
    ensures too_few { Shows rows.forever 0 rows.three_replies 1000000 (ended (imported (codes "g") [] ∷ imported (codes "g") [] ∷ imported (codes "g") [] ∷ []) (no_reply (codes "g") []) []) }
    ensures throws { Shows rows.forever 0 rows.second_throws 1000000 (ended (imported (codes "g") [] ∷ []) (stopped (codes "g") []) []) }
    ensures two_units { Shows rows.forever 0 rows.three_replies 2 (running (imported (codes "g") [] ∷ [])) }
    ensures no_unit { Shows rows.forever 0 rows.three_replies 0 (running []) }
{}

/// `t[e&3](1)|0`, where -1 is masked to 3 and 5 to 1. The call through the table is a unit.
pub fn tables()
    ensures text { Says rows.tabled_text rows.tabled }
    ensures by_mask { Shows rows.tabled 0 rows.tabled_script 4 (ended (gave 41 ∷ gave 21 ∷ []) done []) }
    ensures still_runs { Shows rows.tabled 0 rows.tabled_script 3 (running (gave 41 ∷ [])) }
{}

/// A switch goes on from its case to the end of its clauses.
pub fn switches()
    ensures text { Says rows.falling_text rows.falling }
    ensures fall_through { Shows rows.falling 0 rows.falling_script 3 (ended (gave 111 ∷ gave 110 ∷ gave 100 ∷ []) done []) }
{}

/// 2 + 4, where `continue outer` and `break outer` leave an inner loop for the outer one, and `break`
/// leaves the inner one: a call, five turns of the outer loop and four of the inner are ten units.
pub fn labels()
    ensures text { Says rows.evens_text rows.evens }
    ensures lead_to_their_loop { Shows rows.evens 0 rows.evens_script 10 (ended (gave 6 ∷ []) done []) }
    ensures still_runs { Shows rows.evens 0 rows.evens_script 9 (running []) }
{}

/// 3 + 2 + 1 + 0: a caller's parameters are back after its call, and each of the four calls is a unit.
pub fn recursion()
    ensures text { Says rows.triangle_text rows.triangle }
    ensures comes_back { Shows rows.triangle 0 rows.triangle_script 4 (ended (gave 6 ∷ []) done []) }
    ensures still_runs { Shows rows.triangle 0 rows.triangle_script 3 (running []) }
{}

/// Arguments are evaluated from left to right, and a store's index before its value.
pub fn order_of_evaluation()
    ensures text { Says rows.ordered_text rows.ordered }
    ensures from_the_left { Shows rows.ordered 4 rows.ordered_script 1 (ended (imported (codes "g") (5 ∷ 5 ∷ []) ∷ gave 1 ∷ []) done (0 ∷ 7 ∷ 0 ∷ 0 ∷ [])) }
{}

/// A variable of the module begins with the host's value, and keeps what a call leaves in it.
pub fn imported_values()
    ensures text { Says rows.counter_text rows.counter }
    ensures kept { Shows rows.counter 0 rows.counter_script 2 (ended (gave 1005 ∷ gave 998 ∷ []) done []) }
{}

/// The heap begins with the script's bytes, and a reply's bytes are there when its call comes back.
pub fn bytes_of_the_host()
    ensures text { Says rows.heard_text rows.heard }
    ensures written { Shows rows.heard 8 rows.heard_script 1 (ended (imported (codes "g") [] ∷ gave 10 ∷ []) done (7 ∷ 0 ∷ 0 ∷ 0 ∷ 1 ∷ 2 ∷ 0 ∷ 0 ∷ [])) }
{}

/// The line of the first part that doesn't fit: an argument too few, one that is no word, an export
/// that isn't there, bytes without a heap or past its end; and 0 where a variable's value isn't given.
pub fn misfits()
    ensures too_few { misfit rows.sum 4096 (script (called (codes "f") (pos 1 ∷ pos 2 ∷ []) 1 ∷ called (codes "f") (pos 1 ∷ []) 2 ∷ []) []) ≡ Some 2 }
    ensures too_large { misfit rows.sum 4096 (script (called (codes "f") (pos 1 ∷ pos 4294967296 ∷ []) 1 ∷ []) []) ≡ Some 1 }
    ensures unknown { misfit rows.sum 4096 (script (called (codes "g") [] 1 ∷ []) []) ≡ Some 1 }
    ensures no_heap { misfit rows.forever 4096 (script (called (codes "f") [] 1 ∷ []) (replied (give 0 (record { at = 0; bytes = []; line = 2 } ∷ [])) 2 ∷ [])) ≡ Some 2 }
    ensures past_the_heap { misfit rows.outside 4 (script (called (codes "g") [] 1 ∷ []) (replied (give 0 (record { at = 3; bytes = 1 ∷ 2 ∷ []; line = 2 } ∷ [])) 2 ∷ [])) ≡ Some 2 }
    ensures not_given { misfit rows.counter 4096 (script (called (codes "f") (pos 5 ∷ []) 1 ∷ []) []) ≡ Some 0 }
    ensures nothing_to_do { misfit rows.sum 4096 (script [] []) ≡ None }
{}
