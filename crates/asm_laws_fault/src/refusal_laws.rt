//! asm.js: the row that a module is refused for stands at one of its nodes.

ghost use Rattle.std.specs.Prelude.{◌≡◌, ◌<◌, Some};
ghost use Rattle.asm_lang.specs.Modules.{Module};
ghost use Rattle.asm_laws_print.specs.Fitting.{FitsModule};
ghost use Rattle.asm_lang_valid.specs.declared.rule.Met.{Met};
ghost use Rattle.asm_lang_valid.specs.Rows.{module_count};
ghost use Rattle.asm_lang_valid.specs.Refusal.{refusal};

/// A module that a text can say is refused at one of its nodes, which are numbered from 0 on.
pub fn refused_at_a_node()
    ensures { (m : Module) (x : Met) → FitsModule m → refusal m ≡ Some x → x.node < module_count m }
{}
