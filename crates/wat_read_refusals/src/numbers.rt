//! Rows of one token: its number, its name.

ghost use Rattle.std.specs.Prelude.{◌≡◌, ◌↔◌, ◌&&◌, IsTrue, IfOk, OnOk, [], false, not};
ghost use Rattle.std.specs.Str.{is_utf8};
ghost use Rattle.wat_lang.specs.Rows as spec;
ghost use Rattle.wat_lang.specs.Names.{text_of};
ghost use Rattle.wat_lang.specs.Modules.{exponent_of, natural_or_0, alignment_of};
ghost use Rattle.wat_grammar.specs.Views.{mark_of};
ghost use Rattle.wat_marks.specs.Views.{marked_of};
ghost use Rattle.wat_tokens.specs.Views.{string_value};
ghost use Rattle.wat_read_tokens.specs.Marks.{marks_of};
ghost use Rattle.wat_read_refusals.specs.Joined.{join};
ghost use Rattle.wat_read_refusals.specs.Single.{number_row, name_row, entries_row};

use crate::least::Least;
use std::alloc::{AllocError, Global};
use wat_grammar::Mark;
use wat_lang::{Row, Space};
use wat_marks::MarkedToken;
use wat_read_tokens::{Between, atom, behind_key, capped_in, exponent_in, is_out};
use wat_tokens::{Class, StringText};

/// The greatest minimum of a table that is accepted.
const MOST_ENTRIES: u64 = 1_048_576;

fn is_bad_number(token: &MarkedToken<'_>) -> bool
    ensures { result ≡ spec.is_bad_number (marked_of token.now) }
{
    match token.mark {
        Mark::Word32 => is_out(atom(token), Between::Words32),
        Mark::Word64 => is_out(atom(token), Between::Words64),
        Mark::Offset => is_out(behind_key(atom(token), b"offset="), Between::Naturals),
        Mark::Alignment => exponent_in(behind_key(atom(token), b"align=")).is_none(),
        Mark::Uses(_) => is_out(atom(token), Between::Naturals),
        Mark::TypeUse => is_out(atom(token), Between::Naturals),
        Mark::Minimum(_) => is_out(atom(token), Between::Naturals),
        Mark::Maximum => is_out(atom(token), Between::Naturals),
        _ => false,
    }
}

/// Notes a number that is out of its range, and says whether neither it nor one before it is.
fn note_number(least: &mut Least, fit: bool, token: &MarkedToken<'_>) -> bool
    ensures noted { least.new ≡ join least.old (spec.least (number_row (marked_of token.now))) }
    ensures fits { result ≡ (fit && not (spec.is_bad_number (marked_of token.now))) }
{
    let bad = is_bad_number(token);
    least.note(bad, Row::Number, token.token.at);
    fit && !bad
}

/// Notes the numbers that are out of their range, and says whether there are none.
pub fn number_rows(least: &mut Least, marks: &[MarkedToken<'_>]) -> bool
    ensures noted { least.new ≡ join least.old (spec.least (spec.number_rows (marks_of marks.now))) }
    ensures fit { IsTrue result ↔ (spec.number_rows (marks_of marks.now) ≡ []) }
{
    let mut fit = true;
    for token in marks {
        fit = note_number(least, fit, token);
    }
    fit
}

fn is_utf8(bytes: &[u8]) -> bool
    ensures { result ≡ is_utf8 bytes.now }
{
    match str::from_utf8(bytes) {
        Ok(_) => true,
        Err(_) => false,
    }
}

fn is_string_utf8(alloc: Global, string: StringText<'_>) -> Result<bool, AllocError>
    ensures { IfOk result (λ b. b ≡ is_utf8 (string_value string.entry)) }
{
    match string.lent() {
        Some(bytes) => Ok(is_utf8(bytes)),
        None => {
            let bytes = string.bytes(alloc)?;
            Ok(is_utf8(bytes.as_slice()))
        }
    }
}

fn is_text_utf8(alloc: Global, token: &MarkedToken<'_>) -> Result<bool, AllocError>
    ensures { IfOk result (λ b. b ≡ is_utf8 (text_of (marked_of token.now))) }
{
    match token.token.class {
        Class::String(string) => is_string_utf8(alloc, string),
        Class::Atom(bytes) => Ok(is_utf8(bytes)),
        Class::Opens => Ok(true),
        Class::Closes => Ok(true),
    }
}

fn is_name(mark: Mark) -> bool
    ensures { result ≡ spec.is_name (mark_of mark) }
{
    matches!(mark, Mark::ModuleName | Mark::FieldName | Mark::ExportName)
}

/// Notes a name that isn't UTF-8.
pub fn note_name(
    alloc: Global,
    least: &mut Least,
    token: &MarkedToken<'_>,
) -> Result<(), AllocError>
    ensures { OnOk result (least.new ≡ join least.old (spec.least (name_row (marked_of token.now)))) }
{
    if !is_name(token.mark) {
        return Ok(());
    }
    let is_text = is_text_utf8(alloc, token)?;
    least.note(!is_text, Row::Utf8, token.token.at);
    Ok(())
}

fn is_table_minimum(mark: Mark) -> bool
    ensures { result ≡ spec.is_table_minimum (mark_of mark) }
{
    matches!(mark, Mark::Minimum(Space::Table))
}

/// Notes a minimum of a table that passes the limit.
pub fn note_entries(least: &mut Least, token: &MarkedToken<'_>)
    ensures { least.new ≡ join least.old (spec.least (entries_row (marked_of token.now))) }
{
    if !is_table_minimum(token.mark) {
        return;
    }
    let many = capped_in(atom(token)) > MOST_ENTRIES;
    least.note(many, Row::Limit, token.token.at);
}
