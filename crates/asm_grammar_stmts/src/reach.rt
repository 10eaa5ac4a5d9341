//! How high what ends with a statement is.

ghost use Rattle.std.specs.Prelude.{◌≡◌};
ghost use Rattle.asm_lang.specs.TreeHeights.{counted as stmt_count};
ghost use Rattle.asm_laws_height.specs.Rises.{risen};
ghost use Rattle.asm_grammar_nodes.specs.Heights.{counted};
ghost use Rattle.asm_grammar_nodes.specs.Rises.{rise_view};
ghost use Rattle.asm_grammar_nodes.specs.Tall.{stmt_tall_view};
ghost use Rattle.asm_grammar_stmts.specs.Reach.{reach_view, in_list, after_do, capped_body, under_label};

use asm_grammar_nodes::{Height, Rise, TallStmt};

/// What frames make of the height of a statement in them, and whether the statement is a whole body there.
#[derive(Clone, Copy)]
pub(crate) struct Reach {
    pub(crate) rise: Rise,
    pub(crate) whole: bool,
}

impl Reach {
    /// In a list.
    pub(crate) fn in_list() -> Reach
        ensures { reach_view result ≡ in_list }
    {
        Reach {
            rise: Rise::level(),
            whole: false,
        }
    }

    /// Between `do` and its `while`.
    pub(crate) fn after_do() -> Reach
        ensures { reach_view result ≡ after_do }
    {
        Reach {
            rise: Rise::level(),
            whole: true,
        }
    }

    /// In a statement within this whose last part is a body, and whose other parts are at most so high.
    pub(crate) fn body(self, parts: Height) -> Reach
        ensures { reach_view result ≡ capped_body (reach_view self) parts.count }
    {
        Reach {
            rise: self.rise.after(Rise::one_more(parts)),
            whole: true,
        }
    }

    /// Under labels within this.
    pub(crate) fn under_label(self) -> Reach
        ensures { reach_view result ≡ under_label (reach_view self) }
    {
        Reach {
            rise: self.rise,
            whole: false,
        }
    }

    /// How high the highest node is that ends with the statement.
    pub(crate) fn risen(self, stmt: &TallStmt) -> Height
        ensures { result.count ≡ counted (risen (rise_view self.rise) (counted (stmt_count self.whole (stmt_tall_view stmt.now)))) }
    {
        if self.whole {
            self.rise.risen(stmt.as_body())
        } else {
            self.rise.risen(stmt.height())
        }
    }
}
