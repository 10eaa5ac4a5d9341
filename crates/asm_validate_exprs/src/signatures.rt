// The signatures of functions and tables.

ghost use Rattle.std.specs.Prelude.{◌≡◌, ◌&&◌, true};
ghost use Rattle.asm_types.specs.Types.{is_below};
ghost use Rattle.asm_tree.specs.Views.{stmt_view, stmts_view, function_view, table_view, expr_view};
ghost use Rattle.asm_lang_valid.specs.Scope as scopes;
ghost use Rattle.asm_lang_valid.specs.Typing as typing;
ghost use Rattle.asm_names.specs.Meanings.{meaning_view};
ghost use Rattle.asm_names.specs.Scopes.{scope_view};
ghost use Rattle.asm_validate_exprs.specs.Contexts.{IsContext};
ghost use Rattle.asm_validate_exprs.specs.Signatures.{signature_view, signature_option};

use crate::context::Context;
use crate::literals::is_masked;
use asm_names::Meaning;
use asm_tree::{Expr, Function, Stmt, Table};
use asm_types::{ValueType, below};

/// How many arguments a function takes, all of them ints, and whether it has a result, which is signed.
#[derive(Clone, Copy, PartialEq, Eq)]
pub struct Signature {
    pub params: usize,
    pub result: bool,
}

/// Whether a statement is a return with an expression.
#[tactic(auto, using(asm_tree::proofs::Views::views))]
fn gives_value(stmt: &Stmt) -> bool
    ensures { result ≡ scopes.gives_value (stmt_view stmt.now) }
{
    match stmt {
        Stmt::Return(value) => match value {
            Some(_) => true,
            None => false,
        },
        Stmt::Block(_)
        | Stmt::Plain(_)
        | Stmt::Empty
        | Stmt::If(_, None, _)
        | Stmt::If(_, Some(_), _)
        | Stmt::While(_, _)
        | Stmt::DoWhile(_, _)
        | Stmt::For(_, _)
        | Stmt::Break(_)
        | Stmt::Continue(_)
        | Stmt::Labelled(_, _)
        | Stmt::Switch(_, _) => false,
    }
}

/// Whether the last of these statements is one.
#[tactic(auto, using(crate::proofs::Lengths::last_is))]
fn last_gives_value(stmts: &[Stmt]) -> bool
    ensures { result ≡ scopes.last_gives_value (stmts_view stmts.now) }
{
    let count = stmts.len();
    if count == 0 {
        return false;
    }
    gives_value(&stmts[count - 1])
}

/// The signature of a function.
#[tactic(auto, using(crate::proofs::Lengths::params_length))]
pub fn signature_of(function: &Function) -> Signature
    ensures { signature_view result ≡ scopes.signature_of (function_view function.now) }
{
    Signature {
        params: function.params.len(),
        result: last_gives_value(function.body.as_slice()),
    }
}

/// .. of what a name means, if it is a function.
pub fn function_signature(meaning: Option<Meaning<'_>>) -> Option<Signature>
    ensures { signature_option result ≡ scopes.function_signature (meaning_view meaning.entry) }
{
    match meaning {
        Some(Meaning::Function(function)) => Some(signature_of(function)),
        None
        | Some(
            Meaning::Int
            | Meaning::Outside
            | Meaning::Foreign(_)
            | Meaning::Builtin(_)
            | Meaning::View(_)
            | Meaning::Table(_)
            | Meaning::Parameter,
        ) => None,
    }
}

/// .. of a table's first member.
fn first_member(context: &Context<'_, '_>, table: &Table) -> Option<Signature>
    requires { IsContext context.now }
    ensures { signature_option result ≡ scopes.first_member (scope_view context.now.scope).home (table_view table.now).members }
{
    match table.members.get(0) {
        None => None,
        Some(name) => function_signature(context.module_meaning(name)),
    }
}

/// Whether a signature has so many arguments, and a result where one is asked for.
fn matches(signature: Option<Signature>, count: usize, asked: bool) -> bool
    ensures { result ≡ typing.matches (signature_option signature) count asked }
{
    match signature {
        None => false,
        Some(signature) => count == signature.params && asked == signature.result,
    }
}

/// What is known of arguments: whether all are below int, and whether all are below extern.
#[derive(Clone, Copy)]
pub struct Arguments {
    pub count: usize,
    pub ints: bool,
    pub externs: bool,
}

impl Arguments {
    /// So many, of which no type is seen yet.
    pub fn unseen(count: usize) -> Arguments
        ensures { result ≡ record { count = count; ints = true; externs = true } }
    {
        Arguments {
            count,
            ints: true,
            externs: true,
        }
    }

    /// After one of this type was seen.
    pub fn seen(self, t: ValueType) -> Arguments
        ensures count { result.count ≡ self.count }
        ensures ints { result.ints ≡ (self.ints && is_below t ValueType.Int) }
        ensures externs { result.externs ≡ (self.externs && is_below t ValueType.Extern) }
    {
        Arguments {
            count: self.count,
            ints: self.ints && below(t, ValueType::Int),
            externs: self.externs && below(t, ValueType::Extern),
        }
    }
}

/// Whether a call fits what a name means.
pub fn callee_fits(meaning: Option<Meaning<'_>>, asked: bool, arguments: Arguments) -> bool
    ensures { result ≡ typing.callee_fits (meaning_view meaning.entry) asked arguments.count arguments.ints arguments.externs }
{
    match meaning {
        Some(Meaning::Function(function)) => {
            matches(Some(signature_of(function)), arguments.count, asked) && arguments.ints
        }
        Some(Meaning::Foreign(_)) => arguments.externs,
        None
        | Some(
            Meaning::Int
            | Meaning::Outside
            | Meaning::Builtin(_)
            | Meaning::View(_)
            | Meaning::Table(_)
            | Meaning::Parameter,
        ) => false,
    }
}

/// Whether a call of a table fits what a name means.
pub fn table_fits(
    context: &Context<'_, '_>,
    meaning: Option<Meaning<'_>>,
    asked: bool,
    arguments: Arguments,
) -> bool
    requires { IsContext context.now }
    ensures { result ≡ typing.table_fits (scope_view context.now.scope).home (meaning_view meaning.entry) asked arguments.count arguments.ints }
{
    match meaning {
        Some(Meaning::Table(table)) => {
            matches(first_member(context, table), arguments.count, asked) && arguments.ints
        }
        None
        | Some(
            Meaning::Int
            | Meaning::Outside
            | Meaning::Foreign(_)
            | Meaning::Builtin(_)
            | Meaning::View(_)
            | Meaning::Function(_)
            | Meaning::Parameter,
        ) => false,
    }
}

/// Whether an index is masked by the length of the table less one.
#[tactic(auto, using(crate::proofs::Lengths::texts_length))]
pub fn mask_fits(meaning: Option<Meaning<'_>>, index: &Expr) -> bool
    ensures { result ≡ typing.mask_fits (meaning_view meaning.entry) (expr_view index.now) }
{
    match meaning {
        Some(Meaning::Table(table)) => is_masked(table.members.len(), index),
        None
        | Some(
            Meaning::Int
            | Meaning::Outside
            | Meaning::Foreign(_)
            | Meaning::Builtin(_)
            | Meaning::View(_)
            | Meaning::Function(_)
            | Meaning::Parameter,
        ) => false,
    }
}
