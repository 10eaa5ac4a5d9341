//! What the parser of asm.js builds: tokens by class, and trees with the place of each node.
#![tactic(auto)]

mod declarations;
mod height;
mod lexeme;
mod rise;
mod sums;
mod tall;
mod tall_stmt;
mod tree;

pub use declarations::{
    ExportTree, ExportsTree, FunctionTree, Heading, InitTree, ModuleTree, ParamTree, TableTree,
    VariableTree,
};
pub use height::{HEIGHT_LIMIT, Height};
pub use lexeme::{Class, Lexeme, Word};
pub use rise::Rise;
pub use sums::{is_chain, is_sum};
pub use tall::{TallExpr, TallExprs};
pub use tall_stmt::{TallClauses, TallStmt, TallStmts};
pub use tree::{Addend, ClauseTree, ExprTree, ForHeadTree, StmtTree};
