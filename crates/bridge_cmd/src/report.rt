//! Writing the line of a refusal, in pieces that take no memory.
ghost use Rattle.std.specs.Prelude.{ℕ, ◌≤◌, ◌∷◌, [], OnOk, OnErr, map, codes, decimal};
ghost use Rattle.std.specs.List.{concat};
ghost use Rattle.bridge_lang.specs.Reason.{line_of};
ghost use Rattle.wasm_lang_valid.specs.Rules.{number};
ghost use Rattle.wasm_lang_valid.specs.Validity.{id};
ghost use Rattle.bridge_cmd.specs.Refused.{reason_of};
ghost use Rattle.bridge_lang.specs.Sinks.{seen, Gains, GainsFront};
ghost use Rattle.bridge_cmd.specs.Slices.{now_of};

use crate::refusal::Refusal;
use bridge_io::{Failed, Sink, put_all};
use bridge_lang::{
    asm_row_name, beyond_name, binary_row_name, link_row_name, side_name, wat_row_name,
};
use itoa::Buffer;
use wasm_validate::{Rule, Section, rule_number, section_number};

/// Writes pieces, one after the other.
fn put_pieces<E: Sink>(report: &mut E, pieces: &[&str]) -> Result<(), Failed>
    requires { (n : ℕ) → E.takes report.old n }

    ensures takes { (n : ℕ) → E.takes report.new n }
    ensures never_falls { E.faults report.old ≤ E.faults report.new }
    ensures whole { OnOk result (Gains (concat (map now_of pieces.now))
        (seen (E.told report.old) (E.faults report.old)) (seen (E.told report.new) (E.faults report.new))) }
    ensures front { OnErr result (GainsFront (concat (map now_of pieces.now))
        (seen (E.told report.old) (E.faults report.old)) (seen (E.told report.new) (E.faults report.new))) }
{
    match pieces {
        [] => Ok(()),
        [piece, rest @ ..] => {
            put_all(report, piece.as_bytes())?;
            put_pieces(report, rest)?;
            Ok(())
        }
    }
}

/// Writes the line of a refusal.
pub(crate) fn write_line<E: Sink>(report: &mut E, refusal: &Refusal) -> Result<(), Failed>
    requires { (n : ℕ) → E.takes report.old n }

    ensures takes { (n : ℕ) → E.takes report.new n }
    ensures never_falls { E.faults report.old ≤ E.faults report.new }
    ensures whole { OnOk result (Gains (line_of (reason_of refusal.now))
        (seen (E.told report.old) (E.faults report.old)) (seen (E.told report.new) (E.faults report.new))) }
    ensures front { OnErr result (GainsFront (line_of (reason_of refusal.now))
        (seen (E.told report.old) (E.faults report.old)) (seen (E.told report.new) (E.faults report.new))) }
{
    match refusal {
        Refusal::FaultyWords => put_pieces(
            report,
            &[
                "usage: bridge COMMAND [--heap N] [--steps N] [FILE] [SCRIPT]",
                "\n",
            ],
        ),
        Refusal::NotAsm { row, at } => put_row(report, "asm.js", asm_row_name(*row), " at ", *at),
        Refusal::NotABinary { row, at } => put_row(
            report,
            "wasm",
            binary_row_name(*row),
            " at ",
            *at,
        ),
        Refusal::NotWat { row, at } => put_row(report, "wat", wat_row_name(*row), " at ", *at),
        Refusal::NotValid {
            rule,
            section,
            index,
            instruction,
        } => put_invalid(report, *rule, *section, *index, *instruction),
        Refusal::ReadFault => put_pieces(report, &["read fault", "\n"]),
        Refusal::NotRun { row, value } => put_row(report, "wasm", beyond_name(*row), " ", *value),
        Refusal::NotLinked { row, second, value } => put_row(
            report,
            "link",
            link_row_name(*row),
            side_name(*second),
            *value,
        ),
        Refusal::BadScript { line } => put_script(report, *line),
        Refusal::Missing(_, file) => put_pieces(report, &["missing: ", file.as_str(), "\n"]),
        Refusal::TooLarge(_, file) => put_pieces(report, &["too large: ", file.as_str(), "\n"]),
        Refusal::OutOfMemory => put_pieces(report, &["out of memory", "\n"]),
    }
}

/// The line of a row, behind what is refused, and of a number.
fn put_row<E: Sink>(
    report: &mut E,
    subject: &'static str,
    row: &'static str,
    between: &'static str,
    number: u64,
) -> Result<(), Failed>
    requires { (n : ℕ) → E.takes report.old n }

    ensures takes { (n : ℕ) → E.takes report.new n }
    ensures never_falls { E.faults report.old ≤ E.faults report.new }
    ensures whole { OnOk result (Gains (concat (subject.now ∷ codes " refused: " ∷ row.now ∷ between.now ∷ decimal number ∷ codes "\n" ∷ []))
        (seen (E.told report.old) (E.faults report.old)) (seen (E.told report.new) (E.faults report.new))) }
    ensures front { OnErr result (GainsFront (concat (subject.now ∷ codes " refused: " ∷ row.now ∷ between.now ∷ decimal number ∷ codes "\n" ∷ []))
        (seen (E.told report.old) (E.faults report.old)) (seen (E.told report.new) (E.faults report.new))) }
{
    let mut digits = Buffer::new();
    let number = digits.format(number);
    put_pieces(report, &[subject, " refused: ", row, between, number, "\n"])
}

/// The line of a module that isn't valid.
fn put_invalid<E: Sink>(
    report: &mut E,
    rule: Rule,
    section: Section,
    index: u64,
    instruction: u64,
) -> Result<(), Failed>
    requires { (n : ℕ) → E.takes report.old n }

    ensures takes { (n : ℕ) → E.takes report.new n }
    ensures never_falls { E.faults report.old ≤ E.faults report.new }
    ensures whole { OnOk result (Gains (concat (codes "wasm refused: B13 Invalid V" ∷ decimal (number rule) ∷ codes " at section " ∷ decimal (id section)
        ∷ codes " index " ∷ decimal index ∷ codes " instruction " ∷ decimal instruction ∷ codes "\n" ∷ []))
        (seen (E.told report.old) (E.faults report.old)) (seen (E.told report.new) (E.faults report.new))) }
    ensures front { OnErr result (GainsFront (concat (codes "wasm refused: B13 Invalid V" ∷ decimal (number rule) ∷ codes " at section " ∷ decimal (id section)
        ∷ codes " index " ∷ decimal index ∷ codes " instruction " ∷ decimal instruction ∷ codes "\n" ∷ []))
        (seen (E.told report.old) (E.faults report.old)) (seen (E.told report.new) (E.faults report.new))) }
{
    let mut rule_digits = Buffer::new();
    let mut section_digits = Buffer::new();
    let mut index_digits = Buffer::new();
    let mut instruction_digits = Buffer::new();
    put_pieces(
        report,
        &[
            "wasm refused: B13 Invalid V",
            rule_digits.format(rule_number(rule)),
            " at section ",
            section_digits.format(section_number(section)),
            " index ",
            index_digits.format(index),
            " instruction ",
            instruction_digits.format(instruction),
            "\n",
        ],
    )
}

/// The line of a script that is refused.
fn put_script<E: Sink>(report: &mut E, line: u64) -> Result<(), Failed>
    requires { (n : ℕ) → E.takes report.old n }

    ensures takes { (n : ℕ) → E.takes report.new n }
    ensures never_falls { E.faults report.old ≤ E.faults report.new }
    ensures whole { OnOk result (Gains (concat (codes "script refused: line " ∷ decimal line ∷ codes "\n" ∷ []))
        (seen (E.told report.old) (E.faults report.old)) (seen (E.told report.new) (E.faults report.new))) }
    ensures front { OnErr result (GainsFront (concat (codes "script refused: line " ∷ decimal line ∷ codes "\n" ∷ []))
        (seen (E.told report.old) (E.faults report.old)) (seen (E.told report.new) (E.faults report.new))) }
{
    let mut digits = Buffer::new();
    put_pieces(
        report,
        &["script refused: line ", digits.format(line), "\n"],
    )
}
