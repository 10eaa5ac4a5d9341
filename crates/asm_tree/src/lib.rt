//! The trees of asm.js modules, as users of the parser see them.
#![tactic(auto)]

mod tree;

pub use tree::{
    Clause, Export, Exports, Expr, ForHead, Function, Global_, Init, Link, Local, Module, Param,
    Parsed, Stmt, Table,
};
