// The rows of calls, by what is known of their arguments.

ghost use Rattle.std.specs.Prelude.{◌≡◌, ◌++◌, ◌&&◌, Some, true, false, IfOk};
ghost use Rattle.asm_tree.specs.Views.{expr_view};
ghost use Rattle.asm_lang_valid.specs.declared.rule.Rule.TheVariants as rules;
ghost use Rattle.asm_lang_valid.specs.Rows.{first, need};
ghost use Rattle.asm_lang_valid.specs.Typing as typing;
ghost use Rattle.asm_lang_valid.specs.TypeRows as rows;
ghost use Rattle.asm_names.specs.Meanings.{meaning_view};
ghost use Rattle.asm_names.specs.Scopes.{scope_view};
ghost use Rattle.asm_validate_exprs.specs.Contexts.{IsContext};
ghost use Rattle.asm_validate_exprs.specs.Forms.{builtin_rows};
ghost use Rattle.asm_validate_exprs.specs.Found.{row_of};

use crate::context::Context;
use crate::literals::or_zero;
use crate::node::{needs, typed};
use crate::signatures::{Arguments, callee_fits, mask_fits, table_fits};
use asm_lang_valid::{Builtin, Met, Rule};
use asm_names::Meaning;
use asm_tree::Expr;
use asm_types::ValueType;
use sem_words::JsOp;

fn is_outside(meaning: Option<Meaning<'_>>) -> bool
    ensures { result ≡ rows.is_outside (meaning_view meaning.entry) }
{
    matches!(meaning, Some(Meaning::Outside))
}

/// Whether a name is a function of the standard library.
pub fn is_builtin(meaning: Option<Meaning<'_>>) -> bool
    ensures { result ≡ typing.is_builtin (meaning_view meaning.entry) }
{
    matches!(meaning, Some(Meaning::Builtin(_)))
}

/// The row of a name that is used at a node.
pub fn used(meaning: Option<Meaning<'_>>, node: u64) -> Result<(), Met>
    ensures { first (rows.used (meaning_view meaning.entry) node) ≡ row_of result }
{
    needs(!is_outside(meaning), Rule::OutsideInteger, node)
}

/// The rows of a call of a function or a foreign one, with a result or without.
#[tactic(auto, using(crate::proofs::Sequences::sequences))]
pub fn called(
    meaning: Option<Meaning<'_>>,
    asked: bool,
    arguments: Arguments,
    node: u64,
) -> Result<(), Met>
    ensures row { first (rows.used (meaning_view meaning.entry) node ++ need (typing.callee_fits (meaning_view meaning.entry) asked arguments.count arguments.ints arguments.externs) rules.CallShape node) ≡ row_of result }
    ensures fits { IfOk result (λ _. typing.callee_fits (meaning_view meaning.entry) asked arguments.count arguments.ints arguments.externs ≡ true) }
{
    used(meaning, node)?;
    needs(
        callee_fits(meaning, asked, arguments),
        Rule::CallShape,
        node,
    )
}

/// .. of a table.
#[tactic(auto, using(crate::proofs::Sequences::sequences))]
pub fn table_called(
    context: &Context<'_, '_>,
    meaning: Option<Meaning<'_>>,
    asked: bool,
    arguments: Arguments,
    index: &Expr,
    node: u64,
) -> Result<(), Met>
    requires { IsContext context.now }
    ensures row { first (rows.used (meaning_view meaning.entry) node ++ (need (typing.table_fits (scope_view context.now.scope).home (meaning_view meaning.entry) asked arguments.count arguments.ints) rules.CallShape node ++ need (typing.mask_fits (meaning_view meaning.entry) (expr_view index.now)) rules.TableMask node)) ≡ row_of result }
    ensures fits { IfOk result (λ _. typing.table_fits (scope_view context.now.scope).home (meaning_view meaning.entry) asked arguments.count arguments.ints ≡ true) }
    ensures masked { IfOk result (λ _. typing.mask_fits (meaning_view meaning.entry) (expr_view index.now) ≡ true) }
{
    used(meaning, node)?;
    needs(
        table_fits(context, meaning, asked, arguments),
        Rule::CallShape,
        node,
    )?;
    needs(mask_fits(meaning, index), Rule::TableMask, node)
}

/// The first row of a call of a table where none may stand.
#[tactic(auto, using(crate::proofs::Sequences::sequences))]
pub fn table_refused(meaning: Option<Meaning<'_>>, node: u64) -> Met
    ensures { first (rows.used (meaning_view meaning.entry) node ++ need false rules.CallShape node) ≡ Some result }
{
    match used(meaning, node) {
        Ok(()) => Met {
            rule: Rule::CallShape,
            node,
        },
        Err(met) => met,
    }
}

/// The type of a call of the standard library.
fn builtin_call(meaning: Option<Meaning<'_>>, arguments: Arguments) -> Option<ValueType>
    ensures { result ≡ typing.builtin_call (meaning_view meaning.entry) arguments.count arguments.ints }
{
    match meaning {
        Some(Meaning::Builtin(Builtin::Imul)) => {
            (arguments.count == 2 && arguments.ints).then_some(ValueType::Signed)
        }
        Some(Meaning::Builtin(Builtin::Clz32)) => {
            (arguments.count == 1 && arguments.ints).then_some(ValueType::Fixnum)
        }
        None
        | Some(
            Meaning::Int
            | Meaning::Outside
            | Meaning::Foreign(_)
            | Meaning::View(_)
            | Meaning::Function(_)
            | Meaning::Table(_)
            | Meaning::Parameter,
        ) => None,
    }
}

/// The type of a call where only one of the standard library may stand, or its first row.
#[tactic(auto, using(crate::proofs::Sequences::sequences))]
pub fn builtin_called(
    meaning: Option<Meaning<'_>>,
    arguments: Arguments,
    node: u64,
) -> Result<ValueType, Met>
    ensures row { first (builtin_rows (meaning_view meaning.entry) arguments.count arguments.ints node) ≡ row_of result }
    ensures typed { IfOk result (λ t. typing.builtin_call (meaning_view meaning.entry) arguments.count arguments.ints ≡ Some t) }
{
    used(meaning, node)?;
    typed(builtin_call(meaning, arguments), Rule::CallShape, node)
}

/// Whether an expression is a call that isn't one of the standard library.
#[tactic(auto, using(asm_tree::proofs::Views::views))]
pub fn is_call(context: &Context<'_, '_>, expr: &Expr) -> bool
    requires { IsContext context.now }
    ensures { result ≡ typing.is_call (scope_view context.now.scope) (expr_view expr.now) }
{
    match expr {
        Expr::Call(name, _) => !is_builtin(context.meaning(name)),
        Expr::TableCall(_, _, _) => true,
        Expr::Lit(_)
        | Expr::Decimal(_)
        | Expr::Var(_)
        | Expr::Index(_, _)
        | Expr::Assign(_, _)
        | Expr::Store(_, _, _)
        | Expr::Unary(_, _)
        | Expr::Binary(_, _, _)
        | Expr::Chain(_, _)
        | Expr::Cond(_, _, _)
        | Expr::Comma(_) => false,
    }
}

/// Whether an operation is such a call with `|0`.
pub fn is_coerced_call(context: &Context<'_, '_>, op: JsOp, left: &Expr, right: &Expr) -> bool
    requires { IsContext context.now }
    ensures { result ≡ (typing.is_call (scope_view context.now.scope) (expr_view left.now) && typing.or_zero op (expr_view right.now)) }
{
    is_call(context, left) && or_zero(op, right)
}
