//! Reading a text: its tokens one by one, and the module that they spell.

ghost use Rattle.std.specs.Prelude.{◌≤◌, List, Ok, IfOk, IfErr};
ghost use Rattle.sem_words.specs.Lists.{list_items};
ghost use Rattle.asm_lang_tokens.specs.Text.{PlacedToken, IsReading};
ghost use Rattle.asm_lang.specs.Heights.{height_limit, module_height, IsWellFormed};
ghost use Rattle.asm_lang.specs.Modules.{module_places, Module as PlainModule};
ghost use Rattle.asm_lang.specs.Texts.{IsTextOf, SaysModule};
ghost use Rattle.asm_tree.specs.Views.{module_view};
ghost use Rattle.asm_grammar.specs.Parsed.{HasRead};
ghost use Rattle.asm_text.specs.Faults.{IsFault};
ghost use Rattle.asm_text.specs.Places.{IsStopped};
ghost use Rattle.asm_text.specs.Said.{IsAgain, IsAnswer, IsAnswered};

use crate::fault::{TextFault, of_parsing, of_reading};
use asm_grammar::{ParseFault, Parser};
use asm_grammar_print::print;
use asm_tree::{Module, Parsed};
use js_tokens::{Next, Scanner};
use std::alloc::Global;

/// The fault of a text that the parser refused: a fault of what is left of its tokens counts before it.
fn stopped(rest: Scanner<'_>, fault: ParseFault) -> TextFault
    ensures { IsStopped rest.entry fault result }
{
    match rest.fault() {
        Some(fault) => of_reading(fault),
        None => of_parsing(fault),
    }
}

/// What a text is read as whose tokens were all read.
fn finished(alloc: Global, source: &[u8], parser: Parser<'_>) -> Result<Parsed, TextFault>
    ensures { (ts : List PlacedToken) → IsReading source.now (Ok ts) → HasRead parser.entry ts → IsAnswered source.now result }
{
    match parser.finish(alloc, source.len() as u64) {
        Ok(parsed) => Ok(parsed),
        Err(fault) => Err(of_parsing(fault)),
    }
}

/// What a text is read as, token by token.
fn answer(alloc: Global, source: &[u8]) -> Result<Parsed, TextFault>
    ensures { IsAnswered source.now result }
{
    let mut scanner = Scanner::new(source);
    let mut parser = Parser::new();
    loop {
        match scanner.next() {
            Next::Token(token) => match parser.feed(alloc, &token) {
                Ok(()) => {}
                Err(fault) => return Err(stopped(scanner, fault)),
            },
            Next::End => return finished(alloc, source, parser),
            Next::Fault(fault) => return Err(of_reading(fault)),
        }
    }
}

/// The module that a text says, and the places of its nodes: a whole before its parts, in text order, as offsets in bytes.
///
/// The refusal is the first fault of the text, with its offset. A fault of a token counts before one of the grammar, and of a
/// fault of the grammar and one of the height the earlier one counts.
pub fn read(alloc: Global, source: &[u8]) -> Result<Parsed, TextFault>
    // The text says the module, within the limit on the height, with these places.
    ensures found { IfOk result (λ p. SaysModule source.now (module_view p.module) (list_items p.places)) }
    // What the text says, the answer says, unless memory runs out.
    ensures only { (m : PlainModule) (text : IsTextOf source.now m) → module_height m ≤ height_limit → IsAnswer m (module_places text.tree) result }
    // A refusal is the fault of the text.
    ensures fault { IfErr result (λ e. IsFault source.now e) }
{
    answer(alloc, source)
}

/// The module read from its canonical text, with the places of its nodes there. A well-formed module comes back as it was.
pub fn reprinted(alloc: Global, home: &Module) -> Result<Parsed, TextFault>
    ensures { IsWellFormed (module_view home.now) → IsAgain (module_view home.now) result }
{
    match print(alloc, home) {
        Ok(text) => read(alloc, text.as_slice()),
        Err(_) => Err(TextFault::Memory),
    }
}
