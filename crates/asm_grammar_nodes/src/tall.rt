//! Expressions with their heights.

ghost use Rattle.std.specs.Prelude.{◌≡◌};
ghost use Rattle.sem_words.specs.Lists.{list_items};
ghost use Rattle.asm_lang.specs.TreeHeights as heights;
ghost use Rattle.asm_grammar_nodes.specs.Heights.{counted};
ghost use Rattle.asm_grammar_nodes.specs.Views.{expr_view, exprs_view};

use crate::height::Height;
use crate::lexeme::Word;
use crate::rise::Rise;
use crate::sums::{binary_tree, is_chain, is_sum};
use crate::tree::ExprTree;
use sem_words::{JsOp, JsUnary, List};
use std::alloc::{AllocError, Global};

/// An expression, and how high it is. It stands in a box from its first node on, so that what holds it is small.
#[derive(Drop)]
pub struct TallExpr {
    tree: Box<ExprTree>,
    height: Height,
    ghost high: { height.count ≡ counted (heights.height (expr_view tree.value)) },
}

/// Expressions of a list so far, and how high the highest is.
#[derive(Drop)]
pub struct TallExprs {
    trees: List<ExprTree>,
    height: Height,
    ghost high: { height.count ≡ counted (heights.all_height (exprs_view (list_items trees))) },
}

impl TallExprs {
    ghost use Rattle.std.specs.Prelude.{◌≡◌, IfOk};
    ghost use Rattle.asm_lang.specs.Trees.{no_expr};
    ghost use Rattle.asm_lang.specs.Machine.{more_exprs};
    ghost use Rattle.asm_grammar_nodes.specs.Tall.{tall_view, talls_view};

    pub fn new(alloc: Global) -> TallExprs
        ensures { talls_view result ≡ no_expr }
    {
        TallExprs {
            trees: List::new(alloc),
            height: Height::none(),
        }
    }

    /// The list with one more at its end.
    #[tactic(auto, using(crate::proofs::Levels::expression_levels))]
    pub fn with(self, expr: TallExpr) -> Result<TallExprs, AllocError>
        ensures { IfOk result (λ r. talls_view r ≡ more_exprs (talls_view self) (tall_view expr)) }
    {
        let TallExprs { mut trees, height } = self;
        let height = height.or(expr.height);
        match trees.push(Box::into_inner(expr.tree)) {
            Ok(()) => Ok(TallExprs { trees, height }),
            Err(_) => Err(AllocError),
        }
    }

    /// Of the highest one, or 0.
    pub fn height(&self) -> Height
        ensures { result.count ≡ counted (heights.all_height (talls_view self.now)) }
    {
        self.height
    }
}

impl TallExpr {
    ghost use Rattle.std.specs.Prelude.{◌≡◌, IfOk, pos, neg_ℤ};
    ghost use Rattle.asm_lang.specs.Trees.{literal, decimals, variable, element, call, table_call, assignment, store, unary, binary, conditional, listed};
    ghost use Rattle.asm_lang.specs.Modules.{expr_of};
    ghost use Rattle.asm_laws_height.specs.Rises.{second_operand, capped_rise};
    ghost use Rattle.sem_words.specs.Lists.{text_bytes};
    ghost use Rattle.asm_grammar_nodes.specs.Rises.{rise_view};
    ghost use Rattle.asm_grammar_nodes.specs.Views.{expr_option};
    ghost use Rattle.asm_grammar_nodes.specs.Tall.{tall_view, talls_view, tall_option};

    pub fn height(&self) -> Height
        ensures { result.count ≡ counted (heights.height (tall_view self.now)) }
    {
        self.height
    }

    pub(crate) fn into_tree(self) -> Box<ExprTree>
        ensures { expr_view result.value ≡ tall_view self }
    {
        self.tree
    }

    // A node of this height.
    fn boxed(alloc: Global, tree: ExprTree, height: Height) -> Result<TallExpr, AllocError>
        requires high { height.count ≡ counted (heights.height (expr_view tree)) }
        ensures { IfOk result (λ r. tall_view r ≡ expr_view tree) }
    {
        let tree = Box::new(alloc, tree)?;
        Ok(TallExpr { tree, height })
    }

    #[tactic(auto, using(crate::proofs::Levels::expression_levels))]
    pub fn literal(alloc: Global, at: u64, value: u64) -> Result<TallExpr, AllocError>
        ensures { IfOk result (λ r. tall_view r ≡ literal at (pos value)) }
    {
        TallExpr::boxed(alloc, ExprTree::Literal(at, value), Height::leaf())
    }

    /// A literal with a minus sign.
    #[tactic(auto, using(crate::proofs::Levels::expression_levels))]
    pub fn negative(alloc: Global, at: u64, value: u64) -> Result<TallExpr, AllocError>
        ensures { IfOk result (λ r. tall_view r ≡ literal at (neg_ℤ (pos value))) }
    {
        TallExpr::boxed(alloc, ExprTree::Negative(at, value), Height::leaf())
    }

    #[tactic(auto, using(crate::proofs::Levels::expression_levels))]
    pub fn decimals(alloc: Global, token: Word) -> Result<TallExpr, AllocError>
        ensures { IfOk result (λ r. tall_view r ≡ decimals token.at (text_bytes token.text)) }
    {
        let tree = ExprTree::Decimals(token.at, token.text);
        TallExpr::boxed(alloc, tree, Height::leaf())
    }

    #[tactic(auto, using(crate::proofs::Levels::expression_levels))]
    pub fn variable(alloc: Global, name: Word) -> Result<TallExpr, AllocError>
        ensures { IfOk result (λ r. tall_view r ≡ variable name.at (text_bytes name.text)) }
    {
        let tree = ExprTree::Variable(name.at, name.text);
        TallExpr::boxed(alloc, tree, Height::leaf())
    }

    #[tactic(auto, using(crate::proofs::Levels::expression_levels))]
    pub fn element(alloc: Global, name: Word, index: TallExpr) -> Result<TallExpr, AllocError>
        ensures { IfOk result (λ r. tall_view r ≡ element name.at (text_bytes name.text) (tall_view index)) }
    {
        let height = index.height.above();
        let tree = ExprTree::Element(name.at, name.text, index.tree);
        TallExpr::boxed(alloc, tree, height)
    }

    #[tactic(auto, using(crate::proofs::Levels::expression_levels))]
    pub fn call(alloc: Global, name: Word, arguments: TallExprs) -> Result<TallExpr, AllocError>
        ensures { IfOk result (λ r. tall_view r ≡ call name.at (text_bytes name.text) (talls_view arguments)) }
    {
        let height = arguments.height.above();
        let tree = ExprTree::Call(name.at, name.text, arguments.trees);
        TallExpr::boxed(alloc, tree, height)
    }

    #[tactic(auto, using(crate::proofs::Levels::expression_levels))]
    pub fn table_call(
        alloc: Global,
        name: Word,
        index: TallExpr,
        arguments: TallExprs,
    ) -> Result<TallExpr, AllocError>
        ensures { IfOk result (λ r. tall_view r ≡ table_call name.at (text_bytes name.text) (tall_view index) (talls_view arguments)) }
    {
        let height = index.height.or(arguments.height).above();
        let tree = ExprTree::TableCall(name.at, name.text, index.tree, arguments.trees);
        TallExpr::boxed(alloc, tree, height)
    }

    #[tactic(auto, using(crate::proofs::Levels::expression_levels))]
    pub fn assignment(
        alloc: Global,
        at: u64,
        name: Word,
        value: TallExpr,
    ) -> Result<TallExpr, AllocError>
        ensures { IfOk result (λ r. tall_view r ≡ assignment at (text_bytes name.text) (tall_view value)) }
    {
        let height = value.height.above();
        let tree = ExprTree::Assignment(at, name.text, value.tree);
        TallExpr::boxed(alloc, tree, height)
    }

    #[tactic(auto, using(crate::proofs::Levels::expression_levels))]
    pub fn store(
        alloc: Global,
        at: u64,
        name: Word,
        index: TallExpr,
        value: TallExpr,
    ) -> Result<TallExpr, AllocError>
        ensures { IfOk result (λ r. tall_view r ≡ store at (text_bytes name.text) (tall_view index) (tall_view value)) }
    {
        let height = index.height.or(value.height).above();
        let tree = ExprTree::Store(at, name.text, index.tree, value.tree);
        TallExpr::boxed(alloc, tree, height)
    }

    #[tactic(auto, using(crate::proofs::Levels::expression_levels))]
    pub fn unary(
        alloc: Global,
        at: u64,
        operator: JsUnary,
        operand: TallExpr,
    ) -> Result<TallExpr, AllocError>
        ensures { IfOk result (λ r. tall_view r ≡ unary at operator (tall_view operand)) }
    {
        let height = operand.height.above();
        let tree = ExprTree::Unary(at, operator, operand.tree);
        TallExpr::boxed(alloc, tree, height)
    }

    #[tactic(auto, using(crate::proofs::Levels::expression_levels))]
    pub fn conditional(
        alloc: Global,
        at: u64,
        condition: TallExpr,
        first: TallExpr,
        second: TallExpr,
    ) -> Result<TallExpr, AllocError>
        ensures { IfOk result (λ r. tall_view r ≡ conditional at (tall_view condition) (tall_view first) (tall_view second)) }
    {
        let parts = first.height.or(second.height);
        let height = condition.height.or(parts).above();
        let tree = ExprTree::Conditional(at, condition.tree, first.tree, second.tree);
        TallExpr::boxed(alloc, tree, height)
    }

    #[tactic(auto, using(crate::proofs::Levels::expression_levels))]
    pub fn listed(alloc: Global, at: u64, parts: TallExprs) -> Result<TallExpr, AllocError>
        ensures { IfOk result (λ r. tall_view r ≡ listed at (talls_view parts)) }
    {
        let height = parts.height.above();
        let tree = ExprTree::Listed(at, parts.trees);
        TallExpr::boxed(alloc, tree, height)
    }

    /// What a binary node round its second operand makes, where this is the first one.
    #[tactic(auto, using(crate::proofs::Levels::second_operands))]
    pub fn second_operand(&self, operator: JsOp) -> Rise
        ensures { rise_view result ≡ capped_rise 1001 (second_operand operator (expr_of (tall_view self.now))) }
    {
        if is_sum(operator) && is_chain(&self.tree) {
            Rise::from_floor(self.height)
        } else {
            Rise::one_more(self.height)
        }
    }

    /// Sums are held flat: a further operand of a sum is put at its end.
    #[tactic(auto, using(crate::proofs::Levels::second_operands))]
    pub fn binary(
        alloc: Global,
        at: u64,
        left: TallExpr,
        operator: JsOp,
        right: TallExpr,
    ) -> Result<TallExpr, AllocError>
        ensures { IfOk result (λ r. tall_view r ≡ binary at (tall_view left) operator (tall_view right)) }
    {
        let height = left.second_operand(operator).risen(right.height);
        let tree = binary_tree(alloc, at, left.tree, operator, right.tree)?;
        TallExpr::boxed(alloc, tree, height)
    }

    #[tactic(auto, using(crate::proofs::Views::views))]
    pub(crate) fn option_tree(expr: Option<TallExpr>) -> Option<Box<ExprTree>>
        ensures { expr_option result ≡ tall_option expr }
    {
        match expr {
            None => None,
            Some(expr) => Some(expr.into_tree()),
        }
    }

    /// Of no expression it is 0.
    pub(crate) fn option_height(expr: &Option<TallExpr>) -> Height
        ensures { result.count ≡ counted (heights.part_height (tall_option expr.now)) }
    {
        match expr {
            None => Height::none(),
            Some(expr) => expr.height(),
        }
    }
}
