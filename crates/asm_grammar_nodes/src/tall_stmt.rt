//! Statements with their heights.

ghost use Rattle.std.specs.Prelude.{◌≡◌};
ghost use Rattle.sem_words.specs.Lists.{list_items};
ghost use Rattle.asm_lang.specs.TreeHeights as heights;
ghost use Rattle.asm_grammar_nodes.specs.Heights.{counted};
ghost use Rattle.asm_grammar_nodes.specs.Views.{stmt_view, stmts_view, clauses_view};

use crate::height::Height;
use crate::lexeme::Word;
use crate::tall::TallExpr;
use crate::tree::{ClauseTree, ForHeadTree, StmtTree};
use sem_words::{List, Text};
use std::alloc::{AllocError, Global};

/// A statement, how high it is, and how high as the whole body of a loop or an `if`: a block adds nothing there.
#[derive(Drop)]
pub struct TallStmt {
    tree: StmtTree,
    height: Height,
    as_body: Height,
    ghost high: { height.count ≡ counted (heights.stmt_height (stmt_view tree)) },
    ghost high_body: { as_body.count ≡ counted (heights.body_height (stmt_view tree)) },
}

/// Statements of a list so far, and how high the highest is.
#[derive(Drop)]
pub struct TallStmts {
    trees: List<StmtTree>,
    height: Height,
    ghost high: { height.count ≡ counted (heights.block_height (stmts_view (list_items trees))) },
}

/// Clauses of a switch so far, and how high their highest statement is.
#[derive(Drop)]
pub struct TallClauses {
    clauses: List<ClauseTree>,
    height: Height,
    ghost high: { height.count ≡ counted (heights.cases_height (clauses_view (list_items clauses))) },
}

impl TallStmts {
    ghost use Rattle.std.specs.Prelude.{◌≡◌, IfOk};
    ghost use Rattle.asm_lang.specs.Trees.{no_stmt};
    ghost use Rattle.asm_lang.specs.Machine.{more_stmts_of};
    ghost use Rattle.asm_grammar_nodes.specs.Tall.{stmt_tall_view, stmts_tall_view};

    pub fn new(alloc: Global) -> TallStmts
        ensures { stmts_tall_view result ≡ no_stmt }
    {
        TallStmts {
            trees: List::new(alloc),
            height: Height::none(),
        }
    }

    /// The list with one more at its end.
    #[tactic(auto, using(crate::proofs::StmtLevels::statement_levels))]
    pub fn with(self, stmt: TallStmt) -> Result<TallStmts, AllocError>
        ensures { IfOk result (λ r. stmts_tall_view r ≡ more_stmts_of (stmts_tall_view self) (stmt_tall_view stmt)) }
    {
        let TallStmts { mut trees, height } = self;
        let height = height.or(stmt.height);
        match trees.push(stmt.tree) {
            Ok(()) => Ok(TallStmts { trees, height }),
            Err(_) => Err(AllocError),
        }
    }

    /// Of the highest one, or 0.
    pub fn height(&self) -> Height
        ensures { result.count ≡ counted (heights.block_height (stmts_tall_view self.now)) }
    {
        self.height
    }

    pub fn into_trees(self) -> List<StmtTree>
        ensures { stmts_view (list_items result) ≡ stmts_tall_view self }
    {
        self.trees
    }
}

impl TallClauses {
    ghost use Rattle.std.specs.Prelude.{◌≡◌, IfOk};
    ghost use Rattle.asm_lang.specs.Trees.{no_clause};
    ghost use Rattle.asm_grammar_nodes.specs.Views.{more_clauses};
    ghost use Rattle.asm_grammar_nodes.specs.Tall.{stmts_tall_view, clauses_tall_view};

    pub fn new(alloc: Global) -> TallClauses
        ensures { clauses_tall_view result ≡ no_clause }
    {
        TallClauses {
            clauses: List::new(alloc),
            height: Height::none(),
        }
    }

    /// The list with one more clause at its end.
    #[tactic(auto, using(crate::proofs::StmtLevels::statement_levels))]
    pub fn with(self, value: Option<i128>, body: TallStmts) -> Result<TallClauses, AllocError>
        ensures { IfOk result (λ r. clauses_tall_view r ≡ more_clauses (clauses_tall_view self) value (stmts_tall_view body)) }
    {
        let TallClauses {
            mut clauses,
            height,
        } = self;
        let height = height.or(body.height);
        let clause = ClauseTree {
            value,
            body: body.trees,
        };
        match clauses.push(clause) {
            Ok(()) => Ok(TallClauses { clauses, height }),
            Err(_) => Err(AllocError),
        }
    }

    /// Of the highest statement in them, or 0.
    pub fn height(&self) -> Height
        ensures { result.count ≡ counted (heights.cases_height (clauses_tall_view self.now)) }
    {
        self.height
    }
}

impl TallStmt {
    ghost use Rattle.std.specs.Prelude.{◌≡◌, Some, None, IfOk};
    ghost use Rattle.asm_lang.specs.Trees.{block, plain, empty, if_only, if_else, returns, while_loop, do_loop, for_loop, breaks, continues, switches};
    ghost use Rattle.asm_grammar_nodes.specs.Views.{words_view, under_all, name_option};
    ghost use Rattle.asm_grammar_nodes.specs.Tall.{tall_view, tall_option, stmt_tall_view, stmts_tall_view, clauses_tall_view};

    pub fn height(&self) -> Height
        ensures { result.count ≡ counted (heights.stmt_height (stmt_tall_view self.now)) }
    {
        self.height
    }

    /// As the whole body of a loop or an `if`.
    pub fn as_body(&self) -> Height
        ensures { result.count ≡ counted (heights.body_height (stmt_tall_view self.now)) }
    {
        self.as_body
    }

    /// A statement that is as high as a body as it is elsewhere.
    fn alone(tree: StmtTree, height: Height) -> TallStmt
        requires high { height.count ≡ counted (heights.stmt_height (stmt_view tree)) }
        requires high_body { height.count ≡ counted (heights.body_height (stmt_view tree)) }
        ensures { stmt_tall_view result ≡ stmt_view tree }
    {
        TallStmt {
            tree,
            height,
            as_body: height,
        }
    }

    #[tactic(auto, using(crate::proofs::StmtLevels::statement_levels))]
    pub fn block(at: u64, body: TallStmts) -> TallStmt
        ensures { stmt_tall_view result ≡ block at (stmts_tall_view body) }
    {
        TallStmt {
            height: body.height.above(),
            as_body: body.height.or(Height::leaf()),
            tree: StmtTree::Block(at, body.trees),
        }
    }

    #[tactic(auto, using(crate::proofs::StmtLevels::statement_levels))]
    pub fn plain(at: u64, expr: TallExpr) -> TallStmt
        ensures { stmt_tall_view result ≡ plain at (tall_view expr) }
    {
        let height = expr.height().above();
        TallStmt::alone(StmtTree::Plain(at, expr.into_tree()), height)
    }

    #[tactic(auto, using(crate::proofs::StmtLevels::statement_levels))]
    pub fn empty(at: u64) -> TallStmt
        ensures { stmt_tall_view result ≡ empty at }
    {
        TallStmt::alone(StmtTree::Empty(at), Height::leaf())
    }

    #[tactic(auto, using(crate::proofs::StmtLevels::statement_levels))]
    pub fn if_only(
        alloc: Global,
        at: u64,
        condition: TallExpr,
        body: TallStmt,
    ) -> Result<TallStmt, AllocError>
        ensures { IfOk result (λ r. stmt_tall_view r ≡ if_only at (tall_view condition) (stmt_tall_view body)) }
    {
        let height = condition.height().or(body.as_body).above();
        let body = Box::new(alloc, body.tree)?;
        let tree = StmtTree::If(at, condition.into_tree(), body, None);
        Ok(TallStmt::alone(tree, height))
    }

    #[tactic(auto, using(crate::proofs::StmtLevels::statement_levels))]
    pub fn if_else(
        alloc: Global,
        at: u64,
        condition: TallExpr,
        first: TallStmt,
        second: TallStmt,
    ) -> Result<TallStmt, AllocError>
        ensures { IfOk result (λ r. stmt_tall_view r ≡ if_else at (tall_view condition) (stmt_tall_view first) (stmt_tall_view second)) }
    {
        let bodies = first.as_body.or(second.as_body);
        let height = condition.height().or(bodies).above();
        let first = Box::new(alloc, first.tree)?;
        let second = Box::new(alloc, second.tree)?;
        let tree = StmtTree::If(at, condition.into_tree(), first, Some(second));
        Ok(TallStmt::alone(tree, height))
    }

    #[tactic(auto, using(crate::proofs::StmtLevels::statement_levels))]
    pub fn returns(at: u64, value: Option<TallExpr>) -> TallStmt
        ensures { stmt_tall_view result ≡ returns at (tall_option value) }
    {
        let height = TallExpr::option_height(&value).above();
        TallStmt::alone(StmtTree::Return(at, TallExpr::option_tree(value)), height)
    }

    #[tactic(auto, using(crate::proofs::StmtLevels::statement_levels))]
    pub fn while_loop(
        alloc: Global,
        at: u64,
        condition: TallExpr,
        body: TallStmt,
    ) -> Result<TallStmt, AllocError>
        ensures { IfOk result (λ r. stmt_tall_view r ≡ while_loop at (tall_view condition) (stmt_tall_view body)) }
    {
        let height = condition.height().or(body.as_body).above();
        let body = Box::new(alloc, body.tree)?;
        let tree = StmtTree::While(at, condition.into_tree(), body);
        Ok(TallStmt::alone(tree, height))
    }

    #[tactic(auto, using(crate::proofs::StmtLevels::statement_levels))]
    pub fn do_loop(
        alloc: Global,
        at: u64,
        body: TallStmt,
        condition: TallExpr,
    ) -> Result<TallStmt, AllocError>
        ensures { IfOk result (λ r. stmt_tall_view r ≡ do_loop at (stmt_tall_view body) (tall_view condition)) }
    {
        let height = condition.height().or(body.as_body).above();
        let body = Box::new(alloc, body.tree)?;
        let tree = StmtTree::DoWhile(at, body, condition.into_tree());
        Ok(TallStmt::alone(tree, height))
    }

    #[tactic(auto, using(crate::proofs::StmtLevels::statement_levels))]
    pub fn for_loop(
        alloc: Global,
        at: u64,
        first: Option<TallExpr>,
        condition: Option<TallExpr>,
        step: Option<TallExpr>,
        body: TallStmt,
    ) -> Result<TallStmt, AllocError>
        ensures { IfOk result (λ r. stmt_tall_view r ≡ for_loop at (tall_option first) (tall_option condition) (tall_option step) (stmt_tall_view body)) }
    {
        let heads = TallExpr::option_height(&first).or(TallExpr::option_height(&condition));
        let height = heads
            .or(TallExpr::option_height(&step))
            .or(body.as_body)
            .above();
        let body = Box::new(alloc, body.tree)?;
        let head = ForHeadTree {
            start: TallExpr::option_tree(first),
            condition: TallExpr::option_tree(condition),
            step: TallExpr::option_tree(step),
        };
        let tree = StmtTree::For(at, Box::new(alloc, head)?, body);
        Ok(TallStmt::alone(tree, height))
    }

    #[tactic(auto, using(crate::proofs::StmtLevels::statement_levels))]
    pub fn breaks(at: u64, label: Option<Text>) -> TallStmt
        ensures { stmt_tall_view result ≡ breaks at (name_option label) }
    {
        TallStmt::alone(StmtTree::Break(at, label), Height::leaf())
    }

    #[tactic(auto, using(crate::proofs::StmtLevels::statement_levels))]
    pub fn continues(at: u64, label: Option<Text>) -> TallStmt
        ensures { stmt_tall_view result ≡ continues at (name_option label) }
    {
        TallStmt::alone(StmtTree::Continue(at, label), Height::leaf())
    }

    /// A statement under labels, in text order.
    #[tactic(auto, using(crate::proofs::StmtLevels::statement_levels))]
    pub fn labelled(
        alloc: Global,
        labels: List<Word>,
        body: TallStmt,
    ) -> Result<TallStmt, AllocError>
        ensures { IfOk result (λ r. stmt_tall_view r ≡ under_all (words_view (list_items labels)) (stmt_tall_view body)) }
    {
        let height = body.height;
        let as_body = if labels.is_empty() {
            body.as_body
        } else {
            height
        };
        let tree = StmtTree::Labelled(labels, Box::new(alloc, body.tree)?);
        Ok(TallStmt {
            tree,
            height,
            as_body,
        })
    }

    #[tactic(auto, using(crate::proofs::StmtLevels::statement_levels))]
    pub fn switch(at: u64, subject: TallExpr, clauses: TallClauses) -> TallStmt
        ensures { stmt_tall_view result ≡ switches at (tall_view subject) (clauses_tall_view clauses) }
    {
        let height = subject.height().or(clauses.height).above();
        let tree = StmtTree::Switch(at, subject.into_tree(), clauses.clauses);
        TallStmt::alone(tree, height)
    }
}
