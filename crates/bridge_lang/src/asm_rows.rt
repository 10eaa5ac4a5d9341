//! What of the format, or which rule, a text of asm.js breaks, and how that is printed.
ghost use Rattle.std.specs.Prelude.{◌≡◌};
ghost use Rattle.bridge_lang.specs.AsmRows as rows;

use asm_lang_valid::Rule;

/// What of the format a text breaks.
#[derive(Clone, Copy, PartialEq, Eq, Debug)]
pub enum AsmRow {
    NonAscii,
    BadToken,
    OpenComment,
    LiteralForm,
    Grammar,
    NoUseAsm,
    Height,
    /// The text says a module, one of whose nodes breaks a rule.
    Rule(Rule),
}

/// The printed number of a row, 1 to 24.
pub fn asm_row_number(row: AsmRow) -> u8
    ensures { result ≡ rows.row_number row }
{
    match row {
        AsmRow::NonAscii => 1,
        AsmRow::BadToken => 2,
        AsmRow::OpenComment => 3,
        AsmRow::LiteralForm => 4,
        AsmRow::Grammar => 5,
        AsmRow::NoUseAsm => 6,
        AsmRow::Height => 7,
        AsmRow::Rule(rule) => rule.number(),
    }
}

/// What a text breaks, with its number.
#[tactic(auto, unfolding(crate::specs::AsmRows::row_name))]
pub fn asm_row_name(row: AsmRow) -> &'static str
    ensures { result.now ≡ rows.row_name row }
{
    match row {
        AsmRow::NonAscii => "A1 NonAscii",
        AsmRow::BadToken => "A2 BadToken",
        AsmRow::OpenComment => "A3 OpenComment",
        AsmRow::LiteralForm => "A4 LiteralForm",
        AsmRow::Grammar => "A5 Grammar",
        AsmRow::NoUseAsm => "A6 NoUseAsm",
        AsmRow::Height => "A7 Height",
        AsmRow::Rule(rule) => rule.name(),
    }
}
