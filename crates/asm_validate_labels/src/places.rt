// What stands round a statement.

ghost use Rattle.std.specs.Prelude.{◌≡◌, true, false};
ghost use Rattle.asm_tree.specs.Views.{stmt_view, text_option};
ghost use Rattle.asm_lang_valid.specs.Typing as typing;
ghost use Rattle.asm_validate_labels.specs.Arounds.{around_view};

use crate::labels::Labels;
use asm_tree::Stmt;
use sem_words::Text;

/// Whether a loop or a switch stands round a statement, and whether a loop does.
#[derive(Clone, Copy)]
pub struct Place {
    pub in_breakable: bool,
    pub in_loop: bool,
}

/// Within the body of a function.
pub fn at_top() -> Place
    ensures { result ≡ record { in_breakable = false; in_loop = false } }
{
    Place {
        in_breakable: false,
        in_loop: false,
    }
}

/// Within a loop.
pub fn in_a_loop() -> Place
    ensures { result ≡ record { in_breakable = true; in_loop = true } }
{
    Place {
        in_breakable: true,
        in_loop: true,
    }
}

/// Within a switch.
pub fn in_a_switch(place: Place) -> Place
    ensures { result ≡ record { in_breakable = true; in_loop = place.in_loop } }
{
    Place {
        in_breakable: true,
        in_loop: place.in_loop,
    }
}

/// Whether a break fits.
pub fn break_fits(labels: &Labels<'_>, place: Place, label: &Option<Text>) -> bool
    ensures { result ≡ typing.break_fits (around_view place labels.now.open.entries) (text_option label.now) }
{
    match label {
        None => place.in_breakable,
        Some(name) => labels.has(name),
    }
}

/// .. a continue.
pub fn continue_fits(labels: &Labels<'_>, place: Place, label: &Option<Text>) -> bool
    ensures { result ≡ typing.continue_fits (around_view place labels.now.open.entries) (text_option label.now) }
{
    match label {
        None => place.in_loop,
        Some(name) => labels.has_loop(name),
    }
}

/// Whether a statement is a loop.
#[tactic(auto, using(asm_tree::proofs::Views::views))]
pub fn is_loop(stmt: &Stmt) -> bool
    ensures { result ≡ typing.is_loop (stmt_view stmt.now) }
{
    match stmt {
        Stmt::While(_, _) | Stmt::DoWhile(_, _) | Stmt::For(_, _) => true,
        Stmt::Return(_)
        | Stmt::Block(_)
        | Stmt::Plain(_)
        | Stmt::Empty
        | Stmt::If(_, None, _)
        | Stmt::If(_, Some(_), _)
        | Stmt::Break(_)
        | Stmt::Continue(_)
        | Stmt::Labelled(_, _)
        | Stmt::Switch(_, _) => false,
    }
}
