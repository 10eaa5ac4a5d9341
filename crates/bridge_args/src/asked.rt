//! What the words ask for.

ghost use Rattle.std.specs.Prelude.{◌≡◌, Some, map, string_bytes};
ghost use Rattle.bridge_lang.specs.Words as spec;
ghost use Rattle.bridge_lang.specs.Words.{asked_by, making_of, only, only_two, asm_to_wasm_of, run_asm_of, run_wasm_of, gen_of, link_of};
ghost use Rattle.bridge_args.specs.Answer.{Answers, text_of, given_texts, asked_view};

use crate::command::{Given, given_of, matches_for};
use crate::fault::WordsFault;
use crate::functions::FunctionCount;
use crate::heap::HeapLength;
use crate::numbers::{function_count, heap_size, step_count};
use bridge_lang::Making;
use std::alloc::Global;

/// What a module is run as.
#[derive(Clone, Copy, Debug)]
pub enum Running {
    /// A text of asm.js, with a heap of this length.
    Text(HeapLength),
    /// The bytes of a module of WebAssembly.
    Binary,
}

/// What is done with a module.
#[derive(Debug, Drop)]
pub enum Action {
    Make(Making),
    /// Its translation to WebAssembly, with a heap of this length.
    Translate(HeapLength),
    /// What it is linked to with the second module, which is in a file of this name.
    Link(String),
    /// A run of the script in a file of this name, with at most so many units or reductions.
    Run {
        running: Running,
        script: String,
        steps: u32,
    },
}

/// What the words ask for.
#[derive(Debug, Drop)]
pub enum Asked {
    /// A command on a module's file.
    OnFile { action: Action, file: String },
    /// A text of so many functions.
    Gen(FunctionCount),
}

fn owned(alloc: Global, text: &str) -> Result<String, WordsFault>
    ensures { Answers string_bytes (Some text.now) result }
{
    match String::from_str(alloc, text) {
        Ok(text) => Ok(text),
        Err(_) => Err(WordsFault::Memory),
    }
}

fn two_operands(alloc: Global, given: &Given<'_, '_>) -> Result<(String, String), WordsFault>
    ensures { Answers (λ p. (string_bytes p.0, string_bytes p.1))
        (only_two (given_texts given.now).operands) result }
{
    match given.operands {
        Some([first, second]) => Ok((owned(alloc, *first)?, owned(alloc, *second)?)),
        _ => Err(WordsFault::Usage),
    }
}

fn one_operand(alloc: Global, given: &Given<'_, '_>) -> Result<String, WordsFault>
    ensures { Answers string_bytes (only (given_texts given.now).operands) result }
{
    match given.operands {
        Some([operand]) => owned(alloc, *operand),
        _ => Err(WordsFault::Usage),
    }
}

/// The lone operand of a command that takes no option.
#[tactic(auto, unfolding(bridge_lang::specs::Words::lone_operand))]
fn lone_text<'a>(given: &Given<'_, 'a>) -> Option<&'a str>
    ensures { text_of result ≡ spec.lone_operand (given_texts given.now) }
{
    if given.heap.is_some() || given.steps.is_some() {
        return None;
    }
    match given.operands {
        Some([operand]) => Some(*operand),
        _ => None,
    }
}

fn lone_operand(alloc: Global, given: &Given<'_, '_>) -> Result<String, WordsFault>
    ensures { Answers string_bytes (spec.lone_operand (given_texts given.now)) result }
{
    match lone_text(given) {
        Some(text) => owned(alloc, text),
        None => Err(WordsFault::Usage),
    }
}

// A command that reads one file and takes no option.
fn making(alloc: Global, name: &str, given: &Given<'_, '_>) -> Result<Asked, WordsFault>
    ensures { Answers asked_view (making_of name.now (given_texts given.now)) result }
{
    let making = Making::named(name).ok_or(WordsFault::Usage)?;
    let file = lone_operand(alloc, given)?;
    Ok(Asked::OnFile {
        action: Action::Make(making),
        file,
    })
}

fn asm_to_wasm(alloc: Global, given: &Given<'_, '_>) -> Result<Asked, WordsFault>
    ensures { Answers asked_view (asm_to_wasm_of (given_texts given.now)) result }
{
    if given.steps.is_some() {
        return Err(WordsFault::Usage);
    }
    let file = one_operand(alloc, given)?;
    let heap = heap_size(given).ok_or(WordsFault::Usage)?;
    Ok(Asked::OnFile {
        action: Action::Translate(heap),
        file,
    })
}

fn run_asm(alloc: Global, given: &Given<'_, '_>) -> Result<Asked, WordsFault>
    ensures { Answers asked_view (run_asm_of (given_texts given.now)) result }
{
    let (file, script) = two_operands(alloc, given)?;
    let heap = heap_size(given).ok_or(WordsFault::Usage)?;
    let steps = step_count(given).ok_or(WordsFault::Usage)?;
    Ok(Asked::OnFile {
        action: Action::Run {
            running: Running::Text(heap),
            script,
            steps,
        },
        file,
    })
}

fn run_wasm(alloc: Global, given: &Given<'_, '_>) -> Result<Asked, WordsFault>
    ensures { Answers asked_view (run_wasm_of (given_texts given.now)) result }
{
    if given.heap.is_some() {
        return Err(WordsFault::Usage);
    }
    let (file, script) = two_operands(alloc, given)?;
    let steps = step_count(given).ok_or(WordsFault::Usage)?;
    Ok(Asked::OnFile {
        action: Action::Run {
            running: Running::Binary,
            script,
            steps,
        },
        file,
    })
}

fn linking(alloc: Global, given: &Given<'_, '_>) -> Result<Asked, WordsFault>
    ensures { Answers asked_view (link_of (given_texts given.now)) result }
{
    if given.heap.is_some() || given.steps.is_some() {
        return Err(WordsFault::Usage);
    }
    let (file, second) = two_operands(alloc, given)?;
    Ok(Asked::OnFile {
        action: Action::Link(second),
        file,
    })
}

fn generation(given: &Given<'_, '_>) -> Result<Asked, WordsFault>
    ensures { Answers asked_view (gen_of (given_texts given.now)) result }
{
    let text = lone_text(given).ok_or(WordsFault::Usage)?;
    let count = function_count(text).ok_or(WordsFault::Usage)?;
    Ok(Asked::Gen(count))
}

#[tactic(auto, unfolding(bridge_lang::specs::Words::asked_by))]
fn asked_for(alloc: Global, name: &str, given: &Given<'_, '_>) -> Result<Asked, WordsFault>
    ensures { Answers asked_view (asked_by name.now (given_texts given.now)) result }
{
    match name {
        "asm2wasm" => asm_to_wasm(alloc, given),
        "run-asm" => run_asm(alloc, given),
        "run-wasm" => run_wasm(alloc, given),
        "gen" => generation(given),
        "link" => linking(alloc, given),
        _ => making(alloc, name, given),
    }
}

/// What the words ask for, of which the first is the program's name.
pub fn read_words(alloc: Global, words: &[String]) -> Result<Asked, WordsFault>
    ensures { Answers asked_view (spec.asked (map string_bytes words.now)) result }
{
    let matches = matches_for(alloc, words)?;
    match matches.get_str("command") {
        Some(name) => asked_for(alloc, name, &given_of(&matches)),
        None => Err(WordsFault::Usage),
    }
}
