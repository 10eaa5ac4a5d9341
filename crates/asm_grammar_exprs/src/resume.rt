//! A token after an expression that is complete so far.

ghost use Rattle.std.specs.Prelude.{◌≡◌, IfOk, nat_le, if◌then◌else◌};
ghost use Rattle.asm_lang.specs.Trees.{ExprTree, ExprTrees, listed, no_expr, one_expr};
ghost use Rattle.asm_lang.specs.Lexemes.{Lexeme as Token, comma};
ghost use Rattle.asm_lang.specs.Machine.{State, goes, stuck, at_expr, after_name, after_index, after_expr, in_rest, more_exprs, feed};
ghost use Rattle.asm_grammar_nodes.specs.Views.{lexeme_view, word_view};
ghost use Rattle.asm_grammar_nodes.specs.Tall.{tall_view, talls_view};
ghost use Rattle.asm_grammar_exprs.specs.Views.{expr_step_view, frames_view, node_view, listing_view, enclosure_view};
ghost use Rattle.asm_grammar_exprs.specs.Infix.{infix_step};
ghost use Rattle.asm_grammar_exprs.specs.declared.frame.Listing.TheVariants as listings;

use crate::frame::{Callee, Enclosure, Frame, Kind, Listing, Node};
use crate::frames::Frames;
use crate::infix::{Infix, infix_of, level_of};
use crate::item::itemed;
use crate::state::{ExprStep, Innermost, on};
use asm_grammar_nodes::{Class, Lexeme, TallExpr, TallExprs, Word};
use std::alloc::{AllocError, Global};

/// The level of what follows an assignment's `=`, the `?` or `:` of a conditional, or a comma.
const PART_LEVEL: u8 = 1;

/// After a name.
#[tactic(auto, using(crate::proofs::Views::views))]
pub(crate) fn name_step(
    alloc: Global,
    level: u8,
    name: Word,
    frames: Frames,
    token: &Lexeme<'_>,
) -> Result<ExprStep, AllocError>
    ensures { IfOk result (λ r. (k : ExprTree → State) → expr_step_view r k (lexeme_view token.now) ≡ feed (after_name level (word_view name) (frames_view frames k)) (lexeme_view token.now)) }
{
    match token.class {
        Class::OpenBracket => {
            let kind = Kind::Closed(Enclosure::Brackets(name));
            let frames = frames.push(Frame { level, kind })?;
            Ok(on(0, Innermost::Operand, frames))
        }
        Class::OpenParen => Ok(on(level, Innermost::Arguments(Callee::Function(name)), frames)),
        Class::Equals => {
            let at = token.at;
            assigned(level, Node::Assignment { name, at }, frames)
        }
        _ => {
            let variable = TallExpr::variable(alloc, name)?;
            resumed(alloc, level, variable, frames, token)
        }
    }
}

/// After an element.
#[tactic(auto, using(crate::proofs::Views::views))]
pub(crate) fn index_step(
    alloc: Global,
    level: u8,
    name: Word,
    index: TallExpr,
    frames: Frames,
    token: &Lexeme<'_>,
) -> Result<ExprStep, AllocError>
    ensures { IfOk result (λ r. (k : ExprTree → State) → expr_step_view r k (lexeme_view token.now) ≡ feed (after_index level (word_view name) (tall_view index) (frames_view frames k)) (lexeme_view token.now)) }
{
    match token.class {
        Class::OpenParen => {
            let callee = Callee::Element(name, index);
            Ok(on(level, Innermost::Arguments(callee), frames))
        }
        Class::Equals => {
            let at = token.at;
            assigned(level, Node::Store { name, index, at }, frames)
        }
        _ => {
            let element = TallExpr::element(alloc, name, index)?;
            resumed(alloc, level, element, frames, token)
        }
    }
}

/// An `=` after what this node assigns to.
#[tactic(auto, using(crate::proofs::Views::views))]
fn assigned(level: u8, node: Node, frames: Frames) -> Result<ExprStep, AllocError>
    ensures { IfOk result (λ r. (k : ExprTree → State) (t : Token) → expr_step_view r k t ≡ (if nat_le level 1 then goes (at_expr 1 (λ e. after_expr level (node_view node e) (frames_view frames k))) else stuck t)) }
{
    if level > PART_LEVEL {
        return Ok(ExprStep::Stuck);
    }
    let kind = Kind::Node(node);
    let frames = frames.push(Frame { level, kind })?;
    Ok(on(PART_LEVEL, Innermost::Operand, frames))
}

/// After an expression that goes on with this token.
#[tactic(auto, using(crate::proofs::Views::views))]
fn infixed(
    alloc: Global,
    next: Infix,
    level: u8,
    expr: TallExpr,
    frames: Frames,
    token: &Lexeme<'_>,
) -> Result<ExprStep, AllocError>
    ensures { IfOk result (λ r. (k : ExprTree → State) → expr_step_view r k (lexeme_view token.now) ≡ infix_step next (lexeme_view token.now) level (tall_view expr) (frames_view frames k)) }
{
    let at = token.at;
    match next {
        Infix::Operator(operator) => {
            let kind = Kind::Node(Node::Binary {
                left: expr,
                operator,
                at,
            });
            let frames = frames.push(Frame { level, kind })?;
            Ok(on(level_of(operator) + 1, Innermost::Operand, frames))
        }
        Infix::Choice => {
            let kind = Kind::Closed(Enclosure::Choice(expr, at));
            let frames = frames.push(Frame { level, kind })?;
            Ok(on(PART_LEVEL, Innermost::Operand, frames))
        }
        Infix::Comma => second_part(alloc, level, expr, at, frames),
        Infix::Refused => Ok(ExprStep::Stuck),
    }
}

/// After the first comma, whose place this is.
#[tactic(auto, using(crate::proofs::Views::views))]
fn second_part(
    alloc: Global,
    level: u8,
    expr: TallExpr,
    at: u64,
    frames: Frames,
) -> Result<ExprStep, AllocError>
    ensures { IfOk result (λ r. (k : ExprTree → State) (t : Token) → expr_step_view r k t ≡ goes (at_expr 1 (λ f. in_rest (one_expr (tall_view expr) (one_expr f no_expr)) (λ es. after_expr level (listed at es) (frames_view frames k))))) }
{
    let parts = TallExprs::new(alloc).with(expr)?;
    next_item(level, parts, Listing::Commas(at), frames)
}

/// After a comma.
#[tactic(auto, using(crate::proofs::Views::views))]
fn next_item(
    level: u8,
    so_far: TallExprs,
    listing: Listing,
    frames: Frames,
) -> Result<ExprStep, AllocError>
    ensures goes_on { IfOk result (λ r. (k : ExprTree → State) (t : Token) (es : ExprTrees) → talls_view so_far ≡ es → expr_step_view r k t ≡ goes (at_expr 1 (λ e. in_rest (more_exprs es e) (listing_view level listing (frames_view frames k))))) }
    ensures at_comma { IfOk result (λ r. (k : ExprTree → State) (t : Token) → t.class ≡ comma → expr_step_view r k t ≡ feed (in_rest (talls_view so_far) (listing_view level listing (frames_view frames k))) t) }
{
    let frames = itemed(level, so_far, listing, frames)?;
    Ok(on(PART_LEVEL, Innermost::Operand, frames))
}

/// After an expression, with what encloses it.
#[tactic(auto, using(crate::proofs::Views::views))]
fn closed(
    level: u8,
    enclosure: Enclosure,
    expr: TallExpr,
    frames: Frames,
    token: &Lexeme<'_>,
) -> Result<ExprStep, AllocError>
    ensures { IfOk result (λ r. (k : ExprTree → State) → expr_step_view r k (lexeme_view token.now) ≡ feed (enclosure_view level enclosure (frames_view frames k) (tall_view expr)) (lexeme_view token.now)) }
{
    match enclosure {
        Enclosure::Parentheses => match token.class {
            Class::CloseParen => Ok(on(level, Innermost::Complete(expr), frames)),
            _ => Ok(ExprStep::Stuck),
        },
        Enclosure::Brackets(name) => match token.class {
            Class::CloseBracket => Ok(on(level, Innermost::Element(name, expr), frames)),
            _ => Ok(ExprStep::Stuck),
        },
        Enclosure::Choice(condition, at) => match token.class {
            Class::Colon => {
                let first = expr;
                let node = Node::Conditional {
                    condition,
                    first,
                    at,
                };
                let kind = Kind::Node(node);
                let frames = frames.push(Frame { level, kind })?;
                Ok(on(PART_LEVEL, Innermost::Operand, frames))
            }
            _ => Ok(ExprStep::Stuck),
        },
    }
}

/// After the last argument so far, where no comma follows.
#[tactic(auto, using(crate::proofs::Views::views))]
fn called(
    alloc: Global,
    level: u8,
    callee: Callee,
    arguments: TallExprs,
    frames: Frames,
    token: &Lexeme<'_>,
) -> Result<ExprStep, AllocError>
    ensures { IfOk result (λ r. (k : ExprTree → State) → expr_step_view r k (lexeme_view token.now) ≡ feed (listing_view level (listings.Arguments callee) (frames_view frames k) (talls_view arguments)) (lexeme_view token.now)) }
{
    match token.class {
        Class::CloseParen => {
            let call = callee.called(alloc, arguments)?;
            Ok(on(level, Innermost::Complete(call), frames))
        }
        _ => Ok(ExprStep::Stuck),
    }
}

/// After an expression of this level.
#[tactic(auto, using(crate::proofs::Views::views))]
pub(crate) fn resumed(
    alloc: Global,
    level: u8,
    expr: TallExpr,
    frames: Frames,
    token: &Lexeme<'_>,
) -> Result<ExprStep, AllocError>
    ensures { IfOk result (λ r. (k : ExprTree → State) → expr_step_view r k (lexeme_view token.now) ≡ feed (after_expr level (tall_view expr) (frames_view frames k)) (lexeme_view token.now)) }
{
    let mut level = level;
    let mut expr = expr;
    let mut frames = frames;
    loop {
        if let Some(next) = infix_of(level, token.class) {
            return infixed(alloc, next, level, expr, frames, token);
        }
        let Some(frame) = frames.pop() else {
            return Ok(ExprStep::Done(expr));
        };
        level = frame.level;
        match frame.kind {
            Kind::Node(node) => expr = node.around(alloc, expr)?,
            Kind::Closed(enclosure) => return closed(level, enclosure, expr, frames, token),
            Kind::Item(so_far, listing) => {
                let so_far = so_far.with(expr)?;
                if let Class::Comma = token.class {
                    return next_item(level, so_far, listing, frames);
                }
                match listing {
                    Listing::Commas(at) => expr = TallExpr::listed(alloc, at, so_far)?,
                    Listing::Arguments(callee) => {
                        return called(alloc, level, callee, so_far, frames, token);
                    }
                }
            }
        }
    }
}
