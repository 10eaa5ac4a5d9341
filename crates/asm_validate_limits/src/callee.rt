// Where calls stand, and what their callees are.

ghost use Rattle.std.specs.Prelude.{◌≡◌, ◌+◌, ◌<◌, ◌==◌};
ghost use Rattle.asm_tree.specs.Views.{expr_view, module_view};
ghost use Rattle.sem_words.specs.Lists.{text_bytes};
ghost use Rattle.asm_lang_valid.specs.Scope.{a_foreign};
ghost use Rattle.asm_lang_valid.specs.Typing as typing;
ghost use Rattle.asm_lang_valid.specs.Typing.{or_zero};
ghost use Rattle.asm_lang_valid.specs.LimitRows.{callee_marks};
ghost use Rattle.asm_names.specs.Meanings.{meaning_view};
ghost use Rattle.asm_names.specs.Members.{IsMember, IsNumbered};
ghost use Rattle.asm_validate_limits.specs.Passes.{IsOf, Tallied};
ghost use Rattle.asm_validate_limits.specs.Places as places;

use crate::numbers::MOST_PARAMS;
use crate::tally::{Tally, needs, use_call};
use asm_names::{Meaning, Member};
use asm_tree::Expr;
use asm_validate_names::AsmRefusal;
use sem_words::JsOp;

/// Where an expression stands.
#[derive(Clone, Copy)]
pub enum Place {
    /// No call of a function of the module or a foreign one stands here.
    Operand,
    /// The result of a call is taken.
    Valued,
    /// A call is made for its effect.
    Effect,
}

/// The place of a left operand before this right one: a call stands before `|0`.
pub fn left_place(op: JsOp, right: &Expr) -> Place
    ensures { result ≡ places.left_place op (expr_view right.now) }
{
    if is_or_zero(op, right) {
        Place::Valued
    } else {
        Place::Operand
    }
}

fn is_or_zero(op: JsOp, right: &Expr) -> bool
    ensures { result ≡ or_zero op (expr_view right.now) }
{
    op == JsOp::Or && is_literal(0, right)
}

fn is_literal(n: u64, expr: &Expr) -> bool
    ensures { result ≡ typing.is_literal n (expr_view expr.now) }
{
    match literal(expr) {
        Some(value) => value == i128::from(n),
        None => false,
    }
}

// The value of a literal.
#[tactic(auto, using(asm_tree::proofs::Views::views))]
fn literal(expr: &Expr) -> Option<i128>
    ensures { result ≡ places.literal_of (expr_view expr.now) }
{
    match expr {
        Expr::Lit(value) => Some(*value),
        _ => None,
    }
}

/// The place of a part of a comma expression with so many parts: the last one gives the value.
pub fn part_place(i: usize, count: usize) -> Place
    requires { i < count }
    ensures { result ≡ places.part_place (i + 1 == count) }
{
    if i + 1 == count {
        Place::Operand
    } else {
        Place::Effect
    }
}

/// The callee of a call at a node, with so many arguments.
pub fn callee_limits<'a>(
    tally: &mut Tally<'a>,
    place: Place,
    callee: Option<Meaning<'a>>,
    count: usize,
    node: u64,
) -> Result<(), AsmRefusal>
    requires of { IsOf (module_view tally.old.home.now) tally.old }
    requires numbered { IsNumbered (module_view tally.old.home.now) callee }
    ensures { Tallied (places.called_marks place (meaning_view callee.entry) count node) 0 tally.old tally.new result }
{
    match callee {
        Some(Meaning::Foreign(member)) => foreign_limits(tally, place, member, count, node),
        _ => Ok(()),
    }
}

fn foreign_limits<'a>(
    tally: &mut Tally<'a>,
    place: Place,
    member: Member<'a>,
    count: usize,
    node: u64,
) -> Result<(), AsmRefusal>
    requires of { IsOf (module_view tally.old.home.now) tally.old }
    requires member { IsMember (module_view tally.old.home.now) (text_bytes member.name.now) member.declaration }
    ensures { Tallied (places.called_marks place (a_foreign (text_bytes member.entry.name.now)) count node) 0 tally.old tally.new result }
{
    match place {
        Place::Operand => Ok(()),
        Place::Valued => outward_limits(tally, member, count, true, node),
        Place::Effect => outward_limits(tally, member, count, false, node),
    }
}

fn outward_limits<'a>(
    tally: &mut Tally<'a>,
    member: Member<'a>,
    count: usize,
    valued: bool,
    node: u64,
) -> Result<(), AsmRefusal>
    requires of { IsOf (module_view tally.old.home.now) tally.old }
    requires member { IsMember (module_view tally.old.home.now) (text_bytes member.name.now) member.declaration }
    ensures { Tallied (callee_marks (a_foreign (text_bytes member.entry.name.now)) valued count node) 0 tally.old tally.new result }
{
    needs(count <= MOST_PARAMS, node)?;
    use_call(tally, member, count as u32, valued, node)
}
