//! Statements of a list.

ghost use Rattle.std.specs.Prelude.{◌≡◌};
ghost use Rattle.asm_laws_height.specs.Peaks.{last_height};
ghost use Rattle.asm_grammar_nodes.specs.Heights.{counted};
ghost use Rattle.asm_grammar_nodes.specs.Tall.{stmts_tall_view};

use asm_grammar_nodes::{Height, TallStmt, TallStmts};
use std::alloc::{AllocError, Global};

/// The statements of a list so far, and how high the last of them is.
pub(crate) struct Items {
    stmts: TallStmts,
    last: Height,
    ghost ends: { last.count ≡ counted (last_height (stmts_tall_view stmts)) },
}

/// By hand, so that the end of a list is one call wherever it is let go.
impl Drop for Items {
    fn drop(self) {
        let Items { stmts: _, last: _ } = self;
    }
}

impl Items {
    ghost use Rattle.std.specs.Prelude.{IfOk};
    ghost use Rattle.asm_lang.specs.Trees.{no_stmt};
    ghost use Rattle.asm_lang.specs.Machine.{more_stmts_of};
    ghost use Rattle.asm_grammar_nodes.specs.Tall.{stmt_tall_view};
    ghost use Rattle.asm_grammar_stmts.specs.Items.{items_view};

    pub(crate) fn new(alloc: Global) -> Items
        ensures { items_view result ≡ no_stmt }
    {
        Items {
            stmts: TallStmts::new(alloc),
            last: Height::none(),
        }
    }

    /// The list with one more at its end.
    #[tactic(auto, using(crate::proofs::RisingStacks::items))]
    pub(crate) fn with(self, stmt: TallStmt) -> Result<Items, AllocError>
        ensures { IfOk result (λ r. items_view r ≡ more_stmts_of (items_view self) (stmt_tall_view stmt)) }
    {
        let Items { stmts, last: _ } = self;
        let last = stmt.height();
        match stmts.with(stmt) {
            Ok(stmts) => Ok(Items { stmts, last }),
            Err(error) => Err(error),
        }
    }

    /// Of the last one, or 0.
    pub(crate) fn last(&self) -> Height
        ensures { result.count ≡ counted (last_height (items_view self.now)) }
    {
        self.last
    }

    pub(crate) fn into_stmts(self) -> TallStmts
        ensures { stmts_tall_view result ≡ items_view self }
    {
        let Items { stmts, last: _ } = self;
        stmts
    }
}
