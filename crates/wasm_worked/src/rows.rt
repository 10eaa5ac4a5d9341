//! The rows. Each function does nothing, and its contract is what the check computes of bytes and a script.
ghost use Rattle.std.specs.Prelude.{codes};
ghost use Rattle.script_read.specs.declared.fault.ScriptFault.TheVariants as scripts;
ghost use Rattle.wasm_lang.specs.declared.fault.Row.TheVariants as bytes;
ghost use Rattle.wasm_lang_valid.specs.declared.rule.Rule.TheVariants as rules;
ghost use Rattle.wasm_lang_valid.specs.declared.section.Section.TheVariants as sections;
ghost use Rattle.cmd_check_wasm.specs.declared.fault.CheckFault.TheVariants as checks;
ghost use Rattle.bridge_lang.specs.WasmVerdicts.{IsCounted};
ghost use Rattle.cmd_check_wasm.specs.Verdicts.{IsRefused};
ghost use Rattle.wasm_worked.specs.Played.{IsPlayed, IsUnplayed};
ghost use Rattle.wasm_worked.specs.Rows as rows;

/// A function that adds, with the script of `examples/add.txt`: 2147483647 + 1 is -2147483648.
/// Instantiation and the first call take six reductions.
pub fn sums()
    ensures counts { IsCounted rows.sum_bytes (codes "wasm functions 1 imports 0 exports 1\n") }
    ensures wrap { IsPlayed rows.sum_bytes rows.sum_script 1000000 (codes "result -2147483648\nresult -2\nend done\n") }
    ensures still_run { IsPlayed rows.sum_bytes rows.sum_script 6 (codes "result -2147483648\nstill running\n") }
{}

/// A function that divides: -7 by 2 is -3, and a quotient by 0 traps, so that no later call is made.
pub fn quotients()
    ensures trap { IsPlayed rows.quotient_bytes (codes "call f -7 2\ncall f 7 0\ncall f 7 1\n") 1000000 (codes "result -3\nend trap 3\n") }
    ensures overflow { IsPlayed rows.quotient_bytes (codes "call f -2147483648 -1\n") 1000000 (codes "end trap 4\n") }
{}

/// The first line that isn't in the grammar of scripts, or else the first that doesn't fit the module.
pub fn refused_scripts()
    ensures too_few { IsUnplayed rows.sum_bytes (codes "call f 1 2\ncall f 1\n") (scripts.Refused 2) }
    ensures unknown { IsUnplayed rows.sum_bytes (codes "# g isn't there\ncall g 1 2\n") (scripts.Refused 2) }
    ensures no_number { IsUnplayed rows.sum_bytes (codes "call f 1\n\ncall f 01 2\n") (scripts.Refused 3) }
{}

/// Bytes that end in the version; and a sum with one operand, which is at instruction 1 of the first body.
pub fn refused_bytes()
    ensures cut { IsRefused rows.cut_bytes (checks.Binary bytes.Truncated 5) }
    ensures short { IsRefused rows.short_bytes (checks.Invalid rules.MissingOperand sections.Code 0 1) }
{}
