//! Modules of asm.js as values.

ghost use Rattle.std.specs.Prelude.{◌≡◌, IfOk, IfErr};
ghost use Rattle.asm_tree.specs.declared.tree.Stmt.TheVariants.{Labelled};
ghost use Rattle.asm_tree.specs.declared.tree.Expr.TheVariants.{Chain};
ghost use Rattle.asm_tree.specs.Forms.{IsUnlabelled, IsNoChain};

use sem_words::{JsOp, JsUnary, List, Text};

#[derive(Debug, Drop)]
pub struct Module {
    pub name: Option<Text>,
    /// At most three.
    pub params: List<Text>,
    pub globals: List<Global_>,
    pub functions: List<Function>,
    pub tables: List<Table>,
    pub exports: Exports,
}

#[derive(PartialEq, Eq, Debug, Drop)]
pub struct Global_ {
    pub name: Text,
    pub init: Init,
}

/// What a declaration gives its name.
#[derive(PartialEq, Eq, Debug, Drop)]
pub enum Init {
    /// A literal; one past 64 bits with its sign is held as the nearest number.
    Number(i64),
    /// A number with a dot; a minus sign is its first byte.
    Decimal(Text),
    /// `foreign.member|0`
    ForeignInt(Text, Text),
    /// `+foreign.member`
    ForeignDouble(Text, Text),
    /// `module.member`
    Member(Text, Text),
    /// `stdlib.Math.member`, without the `Math`
    Math(Text, Text),
    /// `new stdlib.member(heap)`
    View(Text, Text, Text),
}

#[derive(Debug, Drop)]
pub struct Function {
    pub name: Text,
    pub params: List<Param>,
    pub locals: List<Local>,
    pub body: List<Stmt>,
}

#[derive(PartialEq, Eq, Debug, Drop)]
pub struct Param {
    pub name: Text,
    /// Marked by `p = +p`, and not by `p = p|0`.
    pub double: bool,
}

#[derive(PartialEq, Eq, Debug, Drop)]
pub struct Local {
    pub name: Text,
    pub init: Init,
}

#[derive(PartialEq, Eq, Debug, Drop)]
pub struct Table {
    pub name: Text,
    pub members: List<Text>,
}

#[derive(PartialEq, Eq, Debug, Drop)]
pub enum Exports {
    One(Text),
    Many(List<Export>),
}

#[derive(PartialEq, Eq, Debug, Drop)]
pub struct Export {
    pub key: Text,
    pub function: Text,
}

/// A statement. An expression is aligned to 16 bytes, so it stands last in `If` and `Switch`: a statement has 96 bytes so, and not 112.
#[derive(Debug)]
#[cycle(stmts)]
pub enum Stmt {
    Block(List<Stmt>),
    Plain(Expr),
    Empty,
    /// `if` and `else`, and the condition.
    If(Box<Stmt>, Option<Box<Stmt>>, Expr),
    Return(Option<Expr>),
    While(Expr, Box<Stmt>),
    DoWhile(Box<Stmt>, Expr),
    For(Box<ForHead>, Box<Stmt>),
    Break(Option<Text>),
    Continue(Option<Text>),
    Labelled(List<Text>, Box<Stmt>),
    /// The clauses, and what they are chosen by.
    Switch(List<Clause>, Expr),
}

impl Stmt {
    /// The labels and the statement under them, or a statement without labels as it is.
    pub fn into_labelled(self) -> Result<(List<Text>, Box<Stmt>), Stmt>
        ensures labelled { IfOk result (λ r. self ≡ Labelled r.0 r.1) }
        ensures unlabelled { IfErr result (λ s. (s ≡ self) × IsUnlabelled self) }
    {
        match self {
            Stmt::Labelled(labels, stmt) => Ok((labels, stmt)),
            stmt => Err(stmt),
        }
    }
}

/// By hand, so that the end of a statement is one call wherever it is let go.
impl Drop for Stmt {
    #[cycle(stmts)]
    fn drop(self) {
        match self {
            Stmt::Block(_) => {}
            Stmt::Plain(_) => {}
            Stmt::Empty => {}
            Stmt::If(_, _, _) => {}
            Stmt::Return(_) => {}
            Stmt::While(_, _) => {}
            Stmt::DoWhile(_, _) => {}
            Stmt::For(_, _) => {}
            Stmt::Break(_) => {}
            Stmt::Continue(_) => {}
            Stmt::Labelled(_, _) => {}
            Stmt::Switch(_, _) => {}
        }
    }
}

/// What stands in the parentheses of a `for`. In a box of its own, so that no other statement is as large.
#[derive(Debug, Drop)]
pub struct ForHead {
    pub start: Option<Expr>,
    pub condition: Option<Expr>,
    pub step: Option<Expr>,
}

/// A clause of a switch: a case with its value, or the default.
#[derive(Debug, Drop)]
#[cycle(stmts)]
pub struct Clause {
    pub value: Option<i64>,
    pub body: List<Stmt>,
}

#[derive(Debug)]
#[cycle(exprs)]
pub enum Expr {
    Lit(i128),
    Decimal(Text),
    Var(Text),
    Index(Text, Box<Expr>),
    Call(Text, List<Expr>),
    TableCall(Text, Box<Expr>, List<Expr>),
    Assign(Text, Box<Expr>),
    Store(Text, Box<Expr>, Box<Expr>),
    Unary(JsUnary, Box<Expr>),
    Binary(JsOp, Box<Expr>, Box<Expr>),
    /// A first operand, and further ones with `+` or `-` before them.
    Chain(Box<Expr>, List<Link>),
    Cond(Box<Expr>, Box<Expr>, Box<Expr>),
    Comma(List<Expr>),
}

impl Expr {
    /// The first operand of a chain and the further ones, or an expression that is no chain as it is.
    pub fn into_chain(self) -> Result<(Box<Expr>, List<Link>), Expr>
        ensures chain { IfOk result (λ r. self ≡ Chain r.0 r.1) }
        ensures other { IfErr result (λ e. (e ≡ self) × IsNoChain self) }
    {
        match self {
            Expr::Chain(first, links) => Ok((first, links)),
            expr => Err(expr),
        }
    }
}

/// By hand, so that the end of an expression is one call wherever it is let go.
impl Drop for Expr {
    #[cycle(exprs)]
    fn drop(self) {
        match self {
            Expr::Lit(_) => {}
            Expr::Decimal(_) => {}
            Expr::Var(_) => {}
            Expr::Index(_, _) => {}
            Expr::Call(_, _) => {}
            Expr::TableCall(_, _, _) => {}
            Expr::Assign(_, _) => {}
            Expr::Store(_, _, _) => {}
            Expr::Unary(_, _) => {}
            Expr::Binary(_, _, _) => {}
            Expr::Chain(_, _) => {}
            Expr::Cond(_, _, _) => {}
            Expr::Comma(_) => {}
        }
    }
}

#[derive(Debug, Drop)]
#[cycle(exprs)]
pub struct Link {
    pub minus: bool,
    pub operand: Expr,
}

/// A module, and the offset of each of its nodes in text order.
#[derive(Debug, Drop)]
pub struct Parsed {
    pub module: Module,
    pub places: List<u64>,
}
