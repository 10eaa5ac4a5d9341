//! What `clap` reads in the words.

ghost use Rattle.std.specs.Prelude.{◌≡◌, ◌≢◌, IfOk, IfErr, map, string_bytes, []};
ghost use Rattle.clap.specs.Words.{app_of, found_of, rows_of};
ghost use Rattle.bridge_args.specs.declared.fault.WordsFault.TheVariants as faults;
ghost use Rattle.bridge_lang.specs.Words.{given_in};
ghost use Rattle.bridge_args.specs.Answer.{given_texts};
ghost use Rattle.bridge_lang.specs.App.{bridge_app, faults_of, rows_read};

use crate::fault::WordsFault;
use clap::error::ErrorKind;
use clap::{Arg, ArgAction, ArgMatches, Command};
use std::alloc::{AllocError, Global};

/// The command, as it is built for one parse.
fn bridge_command<'a>(alloc: Global) -> Result<Command<'a>, AllocError>
    ensures { IfOk result (λ c. app_of c ≡ bridge_app) }
{
    let heap = Arg::new(alloc, "heap").long("heap").action(ArgAction::Set);
    let steps = Arg::new(alloc, "steps")
        .long("steps")
        .action(ArgAction::Set);
    let command = Arg::new(alloc, "command").action(ArgAction::Set);
    let operands = Arg::new(alloc, "operands").action(ArgAction::Append);
    Command::new(alloc, "bridge")
        .disable_help_flag(true)
        .disable_version_flag(true)
        .arg(heap)?
        .arg(steps)?
        .arg(command)?
        .arg(operands)
}

/// The matches of the words. `Usage` comes only where `clap` refuses them.
pub fn matches_for<'a>(alloc: Global, words: &'a [String]) -> Result<ArgMatches<'a>, WordsFault>
    ensures read { IfOk result (λ m. faults_of (map string_bytes words.entry.now) ≡ []) }
    ensures rows { IfOk result (λ m.
        rows_of (found_of m) ≡ rows_read (map string_bytes words.entry.now)) }
    ensures refused { IfErr result (λ e.
        e ≡ faults.Usage → faults_of (map string_bytes words.entry.now) ≢ []) }
{
    let Ok(command) = bridge_command(alloc) else {
        return Err(WordsFault::Memory);
    };
    match command.try_get_matches_from(words) {
        Ok(matches) => Ok(matches),
        Err(error) => match error.kind() {
            ErrorKind::OutOfMemory => Err(WordsFault::Memory),
            _ => Err(WordsFault::Usage),
        },
    }
}

/// What follows the command's name.
#[derive(Clone, Copy)]
pub struct Given<'m, 'a> {
    pub operands: Option<&'m [&'a str]>,
    pub heap: Option<&'a str>,
    pub steps: Option<&'a str>,
}

/// What follows the command's name.
pub fn given_of<'m, 'a>(matches: &'m ArgMatches<'a>) -> Given<'m, 'a>
    ensures { given_texts result ≡ given_in (rows_of (found_of matches.now)) }
{
    Given {
        operands: matches.get_raw("operands"),
        heap: matches.get_str("heap"),
        steps: matches.get_str("steps"),
    }
}
