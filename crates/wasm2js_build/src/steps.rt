//! Single steps of straight code, what they change, and their statements.
ghost use Rattle.std.specs.Prelude.{◌≡◌, ◌||◌, IfOk};
ghost use Rattle.asm_lang.specs.Modules as plain;
ghost use Rattle.asm_tree.specs.Views.{expr_view, stmt_view};
ghost use Rattle.wasm2js_translation.specs.Delays as delays;
ghost use Rattle.wasm2js_translation.specs.Names as names;
ghost use Rattle.wasm2js_translation.specs.Words as words;
ghost use Rattle.wasm2js_translation.specs.Words.{simple_statement, signed_number};
ghost use Rattle.wasm2js_nodes.specs.Names.{name_view, fixed_view};
ghost use Rattle.wasm2js_terms.specs.Atoms.{atom_view};
ghost use Rattle.wasm2js_terms.specs.Waits.{delayed_view, delays_view, late_term, late_terms};
ghost use Rattle.wasm2js_build.specs.Steps.{step_view, steps_view, is_spoiled, is_put};

use crate::building::{argument_list, late_expr, late_int, late_number};
use asm_tree::{Expr, Stmt};
use sem_words::JsOp;
use std::alloc::{AllocError, Global};
use wasm2js_nodes::{
    Fixed, Name, binary, call, if_only, natural, plainly, put_in, same_name, shifted, signed,
    store_in, trap_call,
};
use wasm2js_terms::{Atom, Delayed, Term};

/// A step that is no choice between others.
#[derive(Clone, Copy)]
pub enum Step<'a> {
    /// `name=term;`
    Put(Name, &'a Term<'a>),
    /// `name=helper(terms)|0;`
    Ask(Name, Fixed, &'a [Term<'a>]),
    /// `helper(terms);`
    Tell(Fixed, &'a [Term<'a>]),
    /// `if(term>>>0>most)$trap(kind);`
    Guard(&'a Term<'a>, u64, u32),
    /// `$trap(kind);`
    Stop(u32),
    /// `$u8[at>>0]=term;`
    WriteByte(&'a Term<'a>, &'a Term<'a>),
    /// `$w[at>>2]=term;`
    WriteWhole(&'a Term<'a>, &'a Term<'a>),
}

/// What is about to happen to variables.
#[derive(Clone, Copy)]
pub(crate) enum Change<'a, 's> {
    One(&'a Step<'s>),
    /// The first steps or the second ones.
    Either(&'a [Step<'s>], &'a [Step<'s>]),
}

/// Whether a step puts a word into a variable.
pub(crate) fn puts(step: &Step<'_>, name: Name) -> bool
    ensures { result ≡ delays.puts (step_view step.now) (name_view name) }
{
    match step {
        Step::Put(to, _) => same_name(*to, name),
        Step::Ask(to, _, _) => same_name(*to, name),
        _ => false,
    }
}

// Whether a variable is the one that a helper may leave a high word in.
fn is_spare(name: Name) -> bool
    ensures { result ≡ names.same_name (names.fixed names.spare_high) (name_view name) }
{
    same_name(Name::Always(Fixed::SpareHigh), name)
}

/// Whether a step changes a variable.
pub(crate) fn changes(step: &Step<'_>, name: Name) -> bool
    ensures { result ≡ delays.changes (step_view step.now) (name_view name) }
{
    match step {
        Step::Put(to, _) => same_name(*to, name),
        Step::Ask(to, _, _) => same_name(*to, name) || is_spare(name),
        Step::Tell(_, _) => is_spare(name),
        _ => false,
    }
}

fn one_puts(steps: &[Step<'_>], name: Name) -> bool
    ensures { result ≡ delays.one_puts (steps_view steps.now) (name_view name) }
{
    for step in steps {
        if puts(step, name) {
            return true;
        }
    }
    false
}

pub(crate) fn one_changes(steps: &[Step<'_>], name: Name) -> bool
    ensures { result ≡ delays.one_changes (steps_view steps.now) (name_view name) }
{
    for step in steps {
        if changes(step, name) {
            return true;
        }
    }
    false
}

// Whether a word is a variable's that changes.
fn is_of_changed(step: &Step<'_>, word: Atom) -> bool
    ensures { result ≡ delays.reads_one (delays.changes (step_view step.now)) (atom_view word) }
{
    match word {
        Atom::Number(_) => false,
        Atom::Read(name) => changes(step, name),
    }
}

fn is_of_one_changed(first: &[Step<'_>], second: &[Step<'_>], word: Atom) -> bool
    ensures { result ≡ delays.reads_one (λ m. delays.one_changes (steps_view first.now) m || delays.one_changes (steps_view second.now) m) (atom_view word) }
{
    match word {
        Atom::Number(_) => false,
        Atom::Read(name) => one_changes(first, name) || one_changes(second, name),
    }
}

/// Whether a word that waits is written before the change: it is that of a variable that changes, or waits for one that only some of the steps put.
pub(crate) fn spoils(change: Change<'_, '_>, delayed: Delayed) -> bool
    ensures { result ≡ is_spoiled change.entry (delayed_view delayed) }
{
    match change {
        Change::One(step) => is_of_changed(step, delayed.word),
        Change::Either(first, second) => {
            is_of_one_changed(first, second, delayed.word)
                || one_puts(first, delayed.name) != one_puts(second, delayed.name)
        }
    }
}

/// Whether the change puts a word into a variable.
pub(crate) fn replaces(change: Change<'_, '_>, name: Name) -> bool
    ensures { result ≡ is_put change.entry (name_view name) }
{
    match change {
        Change::One(step) => puts(step, name),
        Change::Either(first, _) => one_puts(first, name),
    }
}

/// The statement of a step, where these words wait.
pub(crate) fn statement(
    alloc: Global,
    waits: &[Delayed],
    step: &Step<'_>,
) -> Result<Stmt, AllocError>
    ensures { IfOk result (λ s. stmt_view s ≡ simple_statement (delays.in_place (delays_view waits.now) (step_view step.now))) }
{
    match step {
        Step::Put(to, value) => put_statement(alloc, waits, *to, value),
        Step::Ask(to, helper, arguments) => ask_statement(alloc, waits, *to, *helper, arguments),
        Step::Tell(helper, arguments) => tell_statement(alloc, waits, *helper, arguments),
        Step::Guard(value, most, kind) => guard_statement(alloc, waits, value, *most, *kind),
        Step::Stop(kind) => trap_call(alloc, *kind),
        Step::WriteByte(at, value) => byte_statement(alloc, waits, at, value),
        Step::WriteWhole(at, value) => whole_statement(alloc, waits, at, value),
    }
}

fn put_statement(
    alloc: Global,
    waits: &[Delayed],
    to: Name,
    value: &Term<'_>,
) -> Result<Stmt, AllocError>
    ensures { IfOk result (λ s. stmt_view s ≡ simple_statement (words.put (name_view to) (late_term waits.now value.now))) }
{
    let value = late_int(alloc, waits, value)?;
    put_in(alloc, to, value)
}

// `helper(arguments)`
fn helper_call(
    alloc: Global,
    waits: &[Delayed],
    helper: Fixed,
    arguments: &[Term<'_>],
) -> Result<Expr, AllocError>
    ensures { IfOk result (λ e. expr_view e ≡ words.called (fixed_view helper) (words.arguments (late_terms waits.now arguments.now))) }
{
    let arguments = argument_list(alloc, waits, arguments)?;
    call(alloc, Name::Always(helper), arguments)
}

fn ask_statement(
    alloc: Global,
    waits: &[Delayed],
    to: Name,
    helper: Fixed,
    arguments: &[Term<'_>],
) -> Result<Stmt, AllocError>
    ensures { IfOk result (λ s. stmt_view s ≡ simple_statement (words.ask (name_view to) (fixed_view helper) (late_terms waits.now arguments.now))) }
{
    let call = helper_call(alloc, waits, helper, arguments)?;
    let answer = signed(alloc, call)?;
    put_in(alloc, to, answer)
}

fn tell_statement(
    alloc: Global,
    waits: &[Delayed],
    helper: Fixed,
    arguments: &[Term<'_>],
) -> Result<Stmt, AllocError>
    ensures { IfOk result (λ s. stmt_view s ≡ simple_statement (words.tell (fixed_view helper) (late_terms waits.now arguments.now))) }
{
    let call = helper_call(alloc, waits, helper, arguments)?;
    Ok(plainly(call))
}

fn guard_statement(
    alloc: Global,
    waits: &[Delayed],
    value: &Term<'_>,
    most: u64,
    kind: u32,
) -> Result<Stmt, AllocError>
    ensures { IfOk result (λ s. stmt_view s ≡ simple_statement (words.guard (late_term waits.now value.now) most kind)) }
{
    let value = late_number(alloc, waits, value, false)?;
    let test = binary(alloc, JsOp::Gt, value, natural(most))?;
    let trap = trap_call(alloc, kind)?;
    if_only(alloc, test, trap)
}

fn byte_statement(
    alloc: Global,
    waits: &[Delayed],
    at: &Term<'_>,
    value: &Term<'_>,
) -> Result<Stmt, AllocError>
    ensures { IfOk result (λ s. stmt_view s ≡ simple_statement (words.write_byte (late_term waits.now at.now) (late_term waits.now value.now))) }
{
    let at = late_expr(alloc, waits, at)?;
    let value = late_int(alloc, waits, value)?;
    let at = shifted(alloc, at, 0)?;
    store_in(alloc, Name::Always(Fixed::ViewOfBytes), at, value)
}

fn whole_statement(
    alloc: Global,
    waits: &[Delayed],
    at: &Term<'_>,
    value: &Term<'_>,
) -> Result<Stmt, AllocError>
    ensures { IfOk result (λ s. stmt_view s ≡ simple_statement (words.write_whole (late_term waits.now at.now) (late_term waits.now value.now))) }
{
    let at = late_expr(alloc, waits, at)?;
    let value = late_int(alloc, waits, value)?;
    let at = shifted(alloc, at, 2)?;
    store_in(alloc, Name::Always(Fixed::ViewOfWords), at, value)
}
