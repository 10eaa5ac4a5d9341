//! Whether a text is accepted.

ghost use Rattle.std.specs.Prelude.{◌≡◌, ◌<◌, ◌≤◌, length, Some, IfOk, IfErr};
ghost use Rattle.sem_words.specs.Lists.{list_items};
ghost use Rattle.asm_lang.specs.Heights.{module_height, height_limit, IsWellFormed};
ghost use Rattle.asm_lang.specs.Modules.{Module as PlainModule, module_places};
ghost use Rattle.asm_lang.specs.Texts.{IsTextOf};
ghost use Rattle.asm_tree.specs.Views.{module_view};
ghost use Rattle.asm_lang_valid.specs.declared.rule.Met.{Met};
ghost use Rattle.asm_lang_valid.specs.Refusal.{refusal};
ghost use Rattle.asm_lang_valid.specs.Texts.{IsAcceptedText};
ghost use Rattle.cmd_check_asm.specs.Judged.{IsVerdict};
ghost use Rattle.cmd_check_asm.specs.Verdicts.{IsRefusal};

use crate::fault::{CheckFault, of_module, of_text};
use asm_lang_valid::place_laws;
use asm_text::read;
use asm_tree::Parsed;
use asm_validate::{Checked, validate};
use std::alloc::Global;

/// The accepted module that a text says.
///
/// A refusal is a fault of the text, or else the first rule that the module breaks, at the offset of the node's place.
pub fn check_text(alloc: Global, text: &[u8]) -> Result<Checked, CheckFault>
    ensures accepted { IfOk result (λ checked. IsAcceptedText text.now (module_view checked)) }
    ensures refused { IfErr result (λ fault. IsRefusal text.now fault) }
    ensures only { (m : PlainModule) (says : IsTextOf text.now m) → module_height m ≤ height_limit → IsVerdict m (module_places says.tree) result }
{
    place_laws();
    match read(alloc, text) {
        Ok(parsed) => judge(alloc, parsed),
        Err(fault) => Err(of_text(fault)),
    }
}

// A module that was read.
fn judge(alloc: Global, parsed: Parsed) -> Result<Checked, CheckFault>
    requires well_formed { IsWellFormed (module_view parsed.«module») }
    requires placed { (x : Met) → refusal (module_view parsed.«module») ≡ Some x → x.node < length (list_items parsed.places) }
    ensures { IsVerdict (module_view parsed.«module») (list_items parsed.places) result }
{
    let Parsed { module, places } = parsed;
    match validate(alloc, module) {
        Ok(checked) => Ok(checked),
        Err(refusal) => Err(of_module(&places, refusal)),
    }
}
