//! The module's variables as a session begins.
ghost use Rattle.std.specs.Prelude.{◌≡◌, map, IfOk};
ghost use Rattle.sem_words.specs.Words.{word_of};
ghost use Rattle.session_lang.specs.Views.{script_of};
ghost use Rattle.asm_tree.specs.Views.{init_view, global_view};
ghost use Rattle.asm_lang_exec.specs.Session as session;
ghost use Rattle.asm_run_code.specs.Sessions.{words_of};
ghost use Rattle.asm_run_state.specs.Globals.{global_word, only_globals};

use asm_tree::{Global_, Init};
use script_lines::Lines;
use session_lang::Script;
use std::alloc::{AllocError, Global};

/// The first words of the variables of these declarations. While they are made it takes the memory of a map of the script's lines
/// of globals too.
#[tactic(auto, using(crate::proofs::GivenValues::by_lines))]
pub fn first_globals(
    alloc: Global,
    script: &Script,
    globals: &[Global_],
) -> Result<Vec<u32>, AllocError>
    ensures { IfOk result (λ words. words.items ≡ words_of (session.first_globals (script_of script.now) (map global_view globals.now))) }
{
    let lines = Lines::new(alloc, script.globals.as_slice())?;
    let words = given_globals(alloc, &lines, globals)?;
    Ok(words)
}

// The words of the variables of these declarations, where these lines give the values of foreign members.
fn given_globals(
    alloc: Global,
    lines: &Lines<'_>,
    globals: &[Global_],
) -> Result<Vec<u32>, AllocError>
    ensures { IfOk result (λ words. words.items ≡ words_of (session.first_globals (only_globals lines.now) (map global_view globals.now))) }
{
    let mut words = Vec::new(alloc);
    for global in globals {
        if let Some(word) = first_word(lines, &global.init) {
            words.push(word)?;
        }
    }
    Ok(words)
}

// The first word of a variable, if the declaration is of one.
#[tactic(auto, using(crate::proofs::Words::given_word))]
fn first_word(lines: &Lines<'_>, init: &Init) -> Option<u32>
    ensures { result ≡ global_word lines.now (init_view init.now) }
{
    match init {
        Init::Number(z) => Some(low_word(i128::from(*z))),
        Init::ForeignInt(_, name) => Some(low_word(given_value(lines, name.as_bytes()))),
        Init::Decimal(_)
        | Init::ForeignDouble(_, _)
        | Init::Member(_, _)
        | Init::Math(_, _)
        | Init::View(_, _, _) => None,
    }
}

// The value that the lines give to a foreign member, or 0.
#[tactic(auto, using(crate::proofs::GivenValues::value_given, crate::proofs::GivenValues::no_value_given))]
fn given_value(lines: &Lines<'_>, name: &[u8]) -> i128
    ensures { result ≡ session.given_value lines.now name.now }
{
    match lines.given(name) {
        Some(value) => value,
        None => 0,
    }
}

// A whole number modulo 2^32.
fn low_word(z: i128) -> u32
    ensures { result ≡ word_of 32 z }
{
    z.rem_euclid(1 << 32) as u32
}
