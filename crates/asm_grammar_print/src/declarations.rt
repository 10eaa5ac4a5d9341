//! The tokens of a declaration.

ghost use Rattle.std.specs.Prelude.{◌≡◌, [], OnOk, map, false};
ghost use Rattle.sem_words.specs.Lists.{text_bytes};
ghost use Rattle.asm_lang.specs.Printing.{decimal_pieces, member_text, init_text, binding_text, variable_text, locals_text, names_text, mark_text, marks_text, param_names, function_text};
ghost use Rattle.asm_tree.specs.Views.{init_view, local_view, param_view, texts_view, function_view};
ghost use Rattle.asm_grammar_print.specs.Put.{written, put};

use crate::output::Output;
use crate::statements::put_stmts;
use asm_tree::{Function, Init, Local, Param};
use sem_words::Text;
use std::alloc::AllocError;

/// A minus sign is a token of its own.
#[tactic(auto, using(crate::proofs::Puts::puts, crate::proofs::DeclarationPuts::puts))]
fn put_decimal(out: &mut Output, decimal: &[u8]) -> Result<(), AllocError>
    ensures { OnOk result (written out.new ≡ put (written out.old) (decimal_pieces decimal.now)) }
{
    match decimal {
        [] => Ok(()),
        [b'-', digits @ ..] => {
            out.word(b"-")?;
            out.word(digits)
        }
        _ => out.word(decimal),
    }
}

#[tactic(auto, using(crate::proofs::Puts::puts, crate::proofs::DeclarationPuts::puts))]
fn put_member(out: &mut Output, object: &[u8], member: &[u8]) -> Result<(), AllocError>
    ensures { OnOk result (written out.new ≡ put (written out.old) (member_text object.now member.now)) }
{
    out.word(object)?;
    out.word(b".")?;
    out.word(member)
}

/// What a declaration gives its name.
#[tactic(auto, using(crate::proofs::Puts::puts, crate::proofs::DeclarationPuts::puts))]
fn put_init(out: &mut Output, init: &Init) -> Result<(), AllocError>
    ensures { OnOk result (written out.new ≡ put (written out.old) (init_text (init_view init.now))) }
{
    match init {
        Init::Number(value) => out.literal(*value as i128),
        Init::Decimal(decimal) => put_decimal(out, decimal.as_bytes()),
        Init::ForeignInt(foreign, member) => {
            put_member(out, foreign.as_bytes(), member.as_bytes())?;
            out.word(b"|")?;
            out.word(b"0")
        }
        Init::ForeignDouble(foreign, member) => {
            out.word(b"+")?;
            put_member(out, foreign.as_bytes(), member.as_bytes())
        }
        Init::Member(object, member) => put_member(out, object.as_bytes(), member.as_bytes()),
        Init::Math(stdlib, member) => {
            put_member(out, stdlib.as_bytes(), b"Math")?;
            out.word(b".")?;
            out.word(member.as_bytes())
        }
        Init::View(stdlib, member, heap) => {
            out.word(b"new")?;
            put_member(out, stdlib.as_bytes(), member.as_bytes())?;
            out.word(b"(")?;
            out.word(heap.as_bytes())?;
            out.word(b")")
        }
    }
}

/// A name, and what it is given.
#[tactic(auto, using(crate::proofs::Puts::puts, crate::proofs::DeclarationPuts::puts))]
fn put_binding(out: &mut Output, name: &Text, init: &Init) -> Result<(), AllocError>
    ensures { OnOk result (written out.new
        ≡ put (written out.old) (binding_text (record { name = text_bytes name.now; init = init_view init.now }))) }
{
    out.word(name.as_bytes())?;
    out.word(b"=")?;
    put_init(out, init)
}

#[tactic(auto, using(crate::proofs::Puts::puts, crate::proofs::DeclarationPuts::puts))]
pub fn put_variable(out: &mut Output, name: &Text, init: &Init) -> Result<(), AllocError>
    ensures { OnOk result (written out.new
        ≡ put (written out.old) (variable_text (record { name = text_bytes name.now; init = init_view init.now }))) }
{
    out.word(b"var")?;
    put_binding(out, name, init)?;
    out.word(b";")
}

/// All in one statement.
#[tactic(auto, using(crate::proofs::Puts::puts, crate::proofs::DeclarationPuts::puts))]
fn put_locals(out: &mut Output, locals: &[Local]) -> Result<(), AllocError>
    ensures { OnOk result (written out.new ≡ put (written out.old) (locals_text (map local_view locals.now))) }
{
    match locals {
        [] => Ok(()),
        [first, others @ ..] => {
            out.word(b"var")?;
            put_binding(out, &first.name, &first.init)?;
            for local in others {
                out.word(b",")?;
                put_binding(out, &local.name, &local.init)?;
            }
            out.word(b";")
        }
    }
}

/// Names with commas between.
#[tactic(auto, using(crate::proofs::Puts::puts, crate::proofs::DeclarationPuts::puts))]
pub fn put_names(out: &mut Output, names: &[Text]) -> Result<(), AllocError>
    ensures { OnOk result (written out.new ≡ put (written out.old) (names_text false (texts_view names.now))) }
{
    match names {
        [] => Ok(()),
        [first, others @ ..] => {
            out.word(first.as_bytes())?;
            for name in others {
                out.word(b",")?;
                out.word(name.as_bytes())?;
            }
            Ok(())
        }
    }
}

/// The names of parameters with commas between.
#[tactic(auto, using(crate::proofs::Puts::puts, crate::proofs::DeclarationPuts::puts))]
fn put_params(out: &mut Output, params: &[Param]) -> Result<(), AllocError>
    ensures { OnOk result (written out.new
        ≡ put (written out.old) (names_text false (param_names (map param_view params.now)))) }
{
    match params {
        [] => Ok(()),
        [first, others @ ..] => {
            out.word(first.name.as_bytes())?;
            for param in others {
                out.word(b",")?;
                out.word(param.name.as_bytes())?;
            }
            Ok(())
        }
    }
}

/// The statement that says whether a parameter is a double.
#[tactic(auto, using(crate::proofs::Puts::puts, crate::proofs::DeclarationPuts::puts))]
fn put_mark(out: &mut Output, param: &Param) -> Result<(), AllocError>
    ensures { OnOk result (written out.new ≡ put (written out.old) (mark_text (param_view param.now))) }
{
    out.word(param.name.as_bytes())?;
    out.word(b"=")?;
    if param.double {
        out.word(b"+")?;
        out.word(param.name.as_bytes())?;
        out.word(b";")
    } else {
        out.word(param.name.as_bytes())?;
        out.word(b"|")?;
        out.word(b"0")?;
        out.word(b";")
    }
}

#[tactic(auto, using(crate::proofs::Puts::puts, crate::proofs::DeclarationPuts::puts))]
fn put_marks(out: &mut Output, params: &[Param]) -> Result<(), AllocError>
    ensures { OnOk result (written out.new ≡ put (written out.old) (marks_text (map param_view params.now))) }
{
    for param in params {
        put_mark(out, param)?;
    }
    Ok(())
}

#[tactic(auto, using(crate::proofs::Puts::puts, crate::proofs::DeclarationPuts::puts))]
pub fn put_function(out: &mut Output, function: &Function) -> Result<(), AllocError>
    ensures { OnOk result (written out.new ≡ put (written out.old) (function_text (function_view function.now))) }
{
    out.word(b"function")?;
    out.word(function.name.as_bytes())?;
    out.word(b"(")?;
    put_params(out, function.params.as_slice())?;
    out.word(b")")?;
    out.word(b"{")?;
    put_marks(out, function.params.as_slice())?;
    put_locals(out, function.locals.as_slice())?;
    put_stmts(out, function.body.as_slice())?;
    out.word(b"}")
}
