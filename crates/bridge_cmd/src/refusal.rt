//! Why there is no output.
ghost use Rattle.std.specs.Prelude.{◌≡◌, string_bytes};
ghost use Rattle.bridge_lang.specs.Reason.{not_run};
ghost use Rattle.bridge_cmd.specs.Refused.{reason_of, reason_of_check, reason_of_text, reason_of_wat, reason_of_words, reason_of_run, reason_of_script, reason_of_join, reason_at};
ghost use Rattle.bridge_lang.specs.Statuses.{status_of};

use bridge_args::WordsFault;
use bridge_io::GatherFault;
use bridge_lang::{AsmRow, Status, WasmFault};
use cmd_check_wasm::CheckFault;
use cmd_link::{JoinFault, LinkRow};
use cmd_run_wasm::RunFault;
use cmd_wat2wasm::TextFault;
use script_read::ScriptFault;
use wasm_tree::Row;
use wasm_validate::{Beyond, Outside, Rule, Section};
use wat_lang::Row as WatRow;

/// Why there is no output.
#[derive(Drop)]
pub(crate) enum Refusal {
    FaultyWords,
    NotAsm {
        row: AsmRow,
        at: u64,
    },
    NotABinary {
        row: Row,
        at: u64,
    },
    NotWat {
        row: WatRow,
        at: u64,
    },
    NotValid {
        rule: Rule,
        section: Section,
        index: u64,
        instruction: u64,
    },
    NotRun {
        row: Beyond,
        value: u64,
    },
    /// Whether it is for the second module's sake.
    NotLinked {
        row: LinkRow,
        second: bool,
        value: u64,
    },
    BadScript {
        line: u64,
    },
    ReadFault,
    /// Whether it is the script or second module, and the file's name.
    Missing(bool, String),
    TooLarge(bool, String),
    OutOfMemory,
}

impl Refusal {
    pub(crate) fn status(&self) -> Status
        ensures { result ≡ status_of (reason_of self.now) }
    {
        match self {
            Refusal::FaultyWords => Status::Usage,
            Refusal::NotAsm { row, at } => Status::AsmRefused { row: *row, at: *at },
            Refusal::NotABinary { row, at } => Status::WasmRefused(WasmFault::Binary {
                row: *row,
                at: *at,
            }),
            Refusal::NotWat { row, at } => Status::WatRefused { row: *row, at: *at },
            Refusal::NotValid {
                rule,
                section,
                index,
                instruction,
            } => Status::WasmRefused(WasmFault::Invalid {
                rule: *rule,
                section: *section,
                index: *index,
                instruction: *instruction,
            }),
            Refusal::NotRun { row, value } => Status::WasmRefused(WasmFault::Outside {
                row: *row,
                value: *value,
            }),
            Refusal::NotLinked { row, second, value } => Status::LinkRefused {
                row: *row,
                second: *second,
                value: *value,
            },
            Refusal::BadScript { line } => Status::ScriptRefused { line: *line },
            Refusal::ReadFault => Status::ReadFault,
            Refusal::Missing(script, _) => Status::Missing { script: *script },
            Refusal::TooLarge(script, _) => Status::TooLarge { script: *script },
            Refusal::OutOfMemory => Status::Memory,
        }
    }
}

/// Why words name no command.
pub(crate) fn of_words(fault: WordsFault) -> Refusal
    ensures { reason_of result ≡ reason_of_words fault }
{
    match fault {
        WordsFault::Usage => Refusal::FaultyWords,
        WordsFault::Memory => Refusal::OutOfMemory,
    }
}

/// Why a file wasn't gathered.
pub(crate) fn of_gathering(fault: GatherFault, is_script: bool, file: String) -> Refusal
    ensures { reason_of result ≡ reason_at fault is_script (string_bytes file) }
{
    match fault {
        GatherFault::Read => Refusal::ReadFault,
        GatherFault::Missing => Refusal::Missing(is_script, file),
        GatherFault::TooLarge => Refusal::TooLarge(is_script, file),
        GatherFault::Memory => Refusal::OutOfMemory,
    }
}

/// Why a module isn't taken though it is valid.
pub(crate) fn of_outside(outside: Outside) -> Refusal
    ensures { reason_of result ≡ not_run outside.row outside.value }
{
    Refusal::NotRun {
        row: outside.row,
        value: outside.value as u64,
    }
}

/// Why a text isn't accepted.
pub(crate) fn of_text(fault: cmd_check_asm::CheckFault) -> Refusal
    ensures { reason_of result ≡ reason_of_text fault }
{
    match fault {
        cmd_check_asm::CheckFault::Refused { row, at } => Refusal::NotAsm { row, at },
        cmd_check_asm::CheckFault::Memory => Refusal::OutOfMemory,
    }
}

/// Why a text says no valid module of WebAssembly.
pub(crate) fn of_wat(fault: TextFault) -> Refusal
    ensures { reason_of result ≡ reason_of_wat fault }
{
    match fault {
        TextFault::Unsaid { row, at } => Refusal::NotWat { row, at },
        TextFault::Check(fault) => of_check(fault),
    }
}

/// Why bytes spell no valid module.
pub(crate) fn of_check(fault: CheckFault) -> Refusal
    ensures { reason_of result ≡ reason_of_check fault }
{
    match fault {
        CheckFault::Binary { row, at } => Refusal::NotABinary { row, at },
        CheckFault::Invalid {
            rule,
            section,
            index,
            instruction,
        } => Refusal::NotValid {
            rule,
            section,
            index,
            instruction,
        },
        CheckFault::Memory => Refusal::OutOfMemory,
    }
}

/// Why bytes spell no module that is run.
pub(crate) fn of_run(fault: RunFault) -> Refusal
    ensures { reason_of result ≡ reason_of_run fault }
{
    match fault {
        RunFault::Check(fault) => of_check(fault),
        RunFault::Outside(outside) => Refusal::NotRun {
            row: outside.row,
            value: outside.value as u64,
        },
    }
}

/// Why a second module isn't linked to the first.
pub(crate) fn of_join(fault: JoinFault) -> Refusal
    ensures { reason_of result ≡ reason_of_join fault }
{
    match fault {
        JoinFault::Check(fault) => of_check(fault),
        JoinFault::Apart(why) => Refusal::NotLinked {
            row: why.row,
            second: why.second,
            value: why.value,
        },
    }
}

/// Why a text is no script that fits.
pub(crate) fn of_script(fault: ScriptFault) -> Refusal
    ensures { reason_of result ≡ reason_of_script fault }
{
    match fault {
        ScriptFault::Refused { line } => Refusal::BadScript { line },
        ScriptFault::Memory => Refusal::OutOfMemory,
    }
}
