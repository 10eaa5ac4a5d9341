//! The declarations of a module, with their places.

use crate::tree::StmtTree;
use sem_words::{List, Text};

/// What a declaration gives its name.
#[derive(Drop)]
pub enum InitTree {
    Number(i128),
    /// A number with a dot; whether a minus sign stands before it.
    Decimal(bool, Text),
    /// `foreign.member|0`
    ForeignInt(Text, Text),
    /// `+foreign.member`
    ForeignDouble(Text, Text),
    /// `module.member`
    Member(Text, Text),
    /// `stdlib.Math.member`, without the `Math`
    Math(Text, Text),
    /// `new stdlib.member(heap)`
    View(Text, Text, Text),
}

/// A global variable, or a local one.
#[derive(Drop)]
pub struct VariableTree {
    pub at: u64,
    pub name: Text,
    pub init: InitTree,
}

#[derive(Drop)]
pub struct ParamTree {
    pub at: u64,
    pub name: Text,
    /// Marked by `p = +p`, and not by `p = p|0`.
    pub double: bool,
}

#[derive(Drop)]
pub struct FunctionTree {
    pub at: u64,
    pub name: Text,
    pub params: List<ParamTree>,
    pub locals: List<VariableTree>,
    pub body: List<StmtTree>,
}

#[derive(Drop)]
pub struct TableTree {
    pub at: u64,
    pub name: Text,
    pub members: List<Text>,
}

#[derive(Drop)]
pub struct ExportTree {
    pub at: u64,
    pub key: Text,
    pub function: Text,
}

#[derive(Drop)]
pub enum ExportsTree {
    One(u64, Text),
    Many(List<ExportTree>),
}

/// The name of a module, and at most three parameters.
#[derive(Drop)]
pub struct Heading {
    pub name: Option<Text>,
    pub params: List<Text>,
}

#[derive(Drop)]
pub struct ModuleTree {
    pub heading: Heading,
    pub globals: List<VariableTree>,
    pub functions: List<FunctionTree>,
    pub tables: List<TableTree>,
    pub exports: ExportsTree,
}
