// Expressions as parts of statements.

ghost use Rattle.std.specs.Prelude.{◌≡◌, ◌+◌, ◌++◌, ◌<◌, ◌^◌, IfOk};
ghost use Rattle.asm_tree.specs.Views.{expr_view, expr_option};
ghost use Rattle.asm_lang_valid.specs.declared.rule.Rule.TheVariants as rules;
ghost use Rattle.asm_lang_valid.specs.Rows.{first, need, expr_count, option_count};
ghost use Rattle.asm_lang_valid.specs.Typing as typing;
ghost use Rattle.asm_lang_valid.specs.TypeRows as rows;
ghost use Rattle.asm_names.specs.Scopes.{scope_view};
ghost use Rattle.asm_validate_exprs.specs.Contexts.{IsContext};
ghost use Rattle.asm_validate_exprs.specs.Found.{row_of};

use asm_lang_valid::{Met, Rule};
use asm_tree::Expr;
use asm_types::{ValueType, below};
use asm_validate_exprs::{Context, judge, judge_effect, needs, signature_of};

/// A condition. `at` is the number of the next node.
#[tactic(auto, using(asm_validate_exprs::proofs::Steps::steps))]
pub fn condition(context: &Context<'_, '_>, expr: &Expr, at: &mut u64) -> Result<(), Met>
    requires known { IsContext context.now }
    requires room { at.old + expr_count (expr_view expr.now) < 2 ^ 64 }
    ensures row { first (rows.condition_rows (scope_view context.now.scope) at.old (expr_view expr.now)) ≡ row_of result }
    ensures counted { IfOk result (λ _. at.new ≡ at.old + expr_count (expr_view expr.now)) }
{
    let node = *at;
    let t = judge(context, expr, at)?;
    needs(below(t, ValueType::Int), Rule::Operand, node)
}

/// .. that may be left out.
#[tactic(auto, using(asm_validate_exprs::proofs::Steps::steps))]
pub fn optional_condition(
    context: &Context<'_, '_>,
    expr: &Option<Expr>,
    at: &mut u64,
) -> Result<(), Met>
    requires known { IsContext context.now }
    requires room { at.old + option_count (expr_option expr.now) < 2 ^ 64 }
    ensures row { first (rows.option_rows (scope_view context.now.scope) at.old (expr_option expr.now)) ≡ row_of result }
    ensures counted { IfOk result (λ _. at.new ≡ at.old + option_count (expr_option expr.now)) }
{
    match expr {
        None => Ok(()),
        Some(expr) => condition(context, expr, at),
    }
}

/// The first or the third part of a `for`.
#[tactic(auto, using(asm_validate_exprs::proofs::Steps::steps))]
pub fn optional_part(
    context: &Context<'_, '_>,
    expr: &Option<Expr>,
    at: &mut u64,
) -> Result<(), Met>
    requires known { IsContext context.now }
    requires room { at.old + option_count (expr_option expr.now) < 2 ^ 64 }
    ensures row { first (rows.part_rows (scope_view context.now.scope) at.old (expr_option expr.now)) ≡ row_of result }
    ensures counted { IfOk result (λ _. at.new ≡ at.old + option_count (expr_option expr.now)) }
{
    match expr {
        None => Ok(()),
        Some(expr) => judge_effect(context, expr, at),
    }
}

/// The subject of a switch.
#[tactic(auto, using(asm_validate_exprs::proofs::Steps::steps))]
pub fn subject(context: &Context<'_, '_>, expr: &Expr, at: &mut u64) -> Result<(), Met>
    requires known { IsContext context.now }
    requires room { at.old + expr_count (expr_view expr.now) < 2 ^ 64 }
    ensures row { first (rows.expr_rows (scope_view context.now.scope) at.old (expr_view expr.now) ++ need (rows.agrees ValueType.Signed (typing.type_of (scope_view context.now.scope) (expr_view expr.now))) rules.Operand at.old) ≡ row_of result }
    ensures counted { IfOk result (λ _. at.new ≡ at.old + expr_count (expr_view expr.now)) }
{
    let node = *at;
    let t = judge(context, expr, at)?;
    needs(below(t, ValueType::Signed), Rule::Operand, node)
}

/// Whether the function has a result.
fn has_result(context: &Context<'_, '_>) -> bool
    requires { IsContext context.now }
    ensures { result ≡ typing.result_of (scope_view context.now.scope) }
{
    signature_of(context.function()).result
}

/// What a return at a node gives.
#[tactic(auto, using(asm_validate_exprs::proofs::Steps::steps))]
pub fn returned(
    context: &Context<'_, '_>,
    value: &Option<Expr>,
    node: u64,
    at: &mut u64,
) -> Result<(), Met>
    requires known { IsContext context.now }
    requires room { at.old + option_count (expr_option value.now) < 2 ^ 64 }
    ensures row { first (rows.value_rows (scope_view context.now.scope) at.old (expr_option value.now) ++ need (typing.return_fits (scope_view context.now.scope) (expr_option value.now)) rules.ReturnKind node) ≡ row_of result }
    ensures counted { IfOk result (λ _. at.new ≡ at.old + option_count (expr_option value.now)) }
{
    match value {
        None => needs(!has_result(context), Rule::ReturnKind, node),
        Some(expr) => {
            let t = judge(context, expr, at)?;
            let fits = has_result(context) && below(t, ValueType::Signed);
            needs(fits, Rule::ReturnKind, node)
        }
    }
}
