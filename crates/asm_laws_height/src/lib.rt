//! asm.js: the limit on the height of a module's nodes, and the token at which a node above it is complete.
#![tactic(auto)]

ghost use Rattle.std.specs.Prelude.{◌≡◌, ◌≤◌, ◌+◌, ◌++◌, ℕ, ℤ, Bool, true, false, List, Option, Some, Ok, Err, length, take, drop, max, min, nat_lt};
ghost use Rattle.sem_words.specs.declared.js_value.JsOp.{JsOp};
ghost use Rattle.sem_words.specs.declared.js_value.JsUnary.{JsUnary};
ghost use Rattle.asm_lang.specs.Lexemes.{Class, Lexeme};
ghost use Rattle.asm_lang.specs.Trees.{ExprTree, assignment, store, unary, binary, conditional, listed, ExprTrees, StmtTree, plain, if_else, returns, while_loop, for_loop, StmtTrees, ClauseTrees, ModuleTree};
ghost use Rattle.asm_lang.specs.Grammar.{IsModule, under};
ghost use Rattle.asm_lang.specs.Modules.{expr_of};
ghost use Rattle.asm_lang.specs.Machine.{Refusal, is_quiet, State, closes, after_expr, in_rest, ends, after_arm, after_body, at_stmts, in_case, Step, more_exprs, more_stmts_of, run, at_start};
ghost use Rattle.asm_lang.specs.HighNodes.{BeginsHigh, IsHeightFault};
ghost use Rattle.asm_lang.specs.TreeHeights.{height, all_height, part_height, body_height, whole_height};
ghost use Rattle.asm_laws_height.specs.Peaks.{refused, high, run_low, step_peak, after};
ghost use Rattle.asm_laws_height.specs.Rises.{Rise, risen, level, rise_after, one_more, second_operand, ExprRise, StmtRise, capped_rise};

/// Reading within a limit finds a module exactly where reading finds it and its height is within the limit.
pub fn low_modules()
    ensures low_read { (limit : ℕ) (xs : List Lexeme) (m : ModuleTree) → run at_start xs ≡ Ok m → whole_height m ≤ limit → run_low limit at_start xs ≡ Ok m }
    ensures low_found { (limit : ℕ) (xs : List Lexeme) (m : ModuleTree) → run_low limit at_start xs ≡ Ok m → run at_start xs ≡ Ok m }
    ensures low_within { (limit : ℕ) (xs : List Lexeme) (m : ModuleTree) → run_low limit at_start xs ≡ Ok m → whole_height m ≤ limit }
    ensures peak_within { (xs ys : List Lexeme) (m : ModuleTree) → IsModule m (xs ++ ys) → step_peak (after at_start xs) ≤ whole_height m }
{}

/// Reading within a limit stops at the first token that completes a node above it. Where it finds a module, or the grammar
/// refuses a token, no node above the limit is complete anywhere; and then the refusal is that of reading without a limit.
pub fn height_faults()
    ensures height { (limit : ℕ) (xs : List Lexeme) (k : ℕ) → k ≤ length xs → run_low limit at_start xs ≡ Err (high (drop k xs)) → IsHeightFault limit xs k }
    ensures height_only { (limit : ℕ) (xs : List Lexeme) (k : ℕ) → IsHeightFault limit xs k → run_low limit at_start xs ≡ Err (high (drop k xs)) }
    ensures grammar { (limit : ℕ) (xs : List Lexeme) (r : Refusal) → run_low limit at_start xs ≡ Err (refused r) → run at_start xs ≡ Err r }
    ensures none_in_refused { (limit : ℕ) (xs : List Lexeme) (r : Refusal) → run_low limit at_start xs ≡ Err (refused r) → (n : ℕ) → ¬ BeginsHigh limit (take n xs) }
    ensures none_in_found { (limit : ℕ) (xs : List Lexeme) (m : ModuleTree) → run_low limit at_start xs ≡ Ok m → (n : ℕ) → ¬ BeginsHigh limit (take n xs) }
{}

/// Two numbers for what is open round a node: those of one thing round another, and what a cap on all of them leaves.
pub fn rises()
    ensures compose { (r s : Rise) (h : ℕ) → risen (rise_after r s) h ≡ risen r (risen s h) }
    ensures capped { (cap : ℕ) (r : Rise) (h : ℕ) → min (risen r h) cap ≡ min (risen (capped_rise cap r) (min h cap)) cap }
    ensures compares { (limit h : ℕ) → nat_lt limit (min h (limit + 1)) ≡ nat_lt limit h }
    ensures capped_after { (cap : ℕ) (r s : Rise) → capped_rise cap (rise_after r s) ≡ capped_rise cap (rise_after (capped_rise cap r) (capped_rise cap s)) }
{}

/// What is open round an expression.
pub fn expression_rises()
    ensures closed { (c : Class) (q : is_quiet c ≡ true) (k : ExprTree → Step) → ExprRise level (λ e. closes c q (k e)) }
    ensures prefix { (r : Rise) (p at : ℕ) (op : JsUnary) (k : ExprTree → State) → ExprRise r k → ExprRise (rise_after r (one_more 0)) (λ e. after_expr p (unary at op e) k) }
    ensures operand { (r : Rise) (p at : ℕ) (l : ExprTree) (op : JsOp) (k : ExprTree → State) → ExprRise r k → ExprRise (rise_after r (second_operand op (expr_of l))) (λ e. after_expr p (binary at l op e) k) }
    ensures assigned { (r : Rise) (p at : ℕ) (n : List ℕ) (k : ExprTree → State) → ExprRise r k → ExprRise (rise_after r (one_more 0)) (λ e. after_expr p (assignment at n e) k) }
    ensures stored { (r : Rise) (p at : ℕ) (n : List ℕ) (i : ExprTree) (k : ExprTree → State) → ExprRise r k → ExprRise (rise_after r (one_more (height i))) (λ e. after_expr p (store at n i e) k) }
    ensures third { (r : Rise) (p at : ℕ) (c a : ExprTree) (k : ExprTree → State) → ExprRise r k → ExprRise (rise_after r (one_more (max (height c) (height a)))) (λ e. after_expr p (conditional at c a e) k) }
    ensures in_list { (r : Rise) (p at : ℕ) (es : ExprTrees) (k : ExprTree → State) → ExprRise r k → ExprRise (rise_after r (one_more (all_height es))) (λ e. in_rest (more_exprs es e) (λ fs. after_expr p (listed at fs) k)) }
    ensures argument { (c : Class) (q : is_quiet c ≡ true) (es : ExprTrees) (k : ExprTrees → Step) → ExprRise level (λ e. in_rest (more_exprs es e) (λ fs. closes c q (k fs))) }
    ensures statement { (b : Bool) (r : Rise) (at : ℕ) (k : StmtTree → State) → StmtRise b r k → ExprRise (rise_after r (one_more 0)) (λ e. ends (k (plain at e))) }
    ensures returned { (b : Bool) (r : Rise) (at : ℕ) (k : StmtTree → State) → StmtRise b r k → ExprRise (rise_after r (one_more 0)) (λ e. ends (k (returns at (Some e)))) }
{}

/// What is open round a statement.
pub fn statement_rises()
    ensures listed_one { (ss : StmtTrees) (k : StmtTrees → Step) → StmtRise false level (λ s. at_stmts (more_stmts_of ss s) k) }
    ensures in_clause { (v : ℤ) (ss : StmtTrees) (k : ClauseTrees → Step) → StmtRise false level (λ s. in_case v (more_stmts_of ss s) k) }
    ensures under_label { (b : Bool) (r : Rise) (n : Lexeme) (k : StmtTree → State) → StmtRise b r k → StmtRise false r (λ s. k (under n s)) }
    ensures arm { (b : Bool) (r : Rise) (at : ℕ) (c : ExprTree) (k : StmtTree → State) → StmtRise b r k → StmtRise true (rise_after r (one_more (height c))) (λ s. after_arm at c s k) }
    ensures other_arm { (b : Bool) (r : Rise) (at : ℕ) (c : ExprTree) (a : StmtTree) (k : StmtTree → State) → StmtRise b r k → StmtRise true (rise_after r (one_more (max (height c) (body_height a)))) (λ s. k (if_else at c a s)) }
    ensures while_body { (b : Bool) (r : Rise) (at : ℕ) (c : ExprTree) (k : StmtTree → State) → StmtRise b r k → StmtRise true (rise_after r (one_more (height c))) (λ s. k (while_loop at c s)) }
    ensures for_body { (b : Bool) (r : Rise) (at : ℕ) (x y z : Option ExprTree) (k : StmtTree → State) → StmtRise b r k → StmtRise true (rise_after r (one_more (max (part_height x) (max (part_height y) (part_height z))))) (λ s. k (for_loop at x y z s)) }
    ensures do_body { (k : StmtTree → Step) → StmtRise true level (λ s. after_body s (k s)) }
{}
