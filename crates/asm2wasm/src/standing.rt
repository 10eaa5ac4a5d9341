//! What is proved of the translation.
ghost use Rattle.std.specs.Prelude.{◌≡◌, ℕ, true};
ghost use Rattle.asm_lang.specs.Heights.{IsWellFormed};
ghost use Rattle.asm_lang.specs.Modules.{Module};
ghost use Rattle.asm_lang_valid.specs.Refusal.{IsAccepted};
ghost use Rattle.asm2wasm_lang.specs.Heaps.{is_heap_length};
ghost use Rattle.asm2wasm_translation.specs.Modules.{translation};
ghost use Rattle.asm2wasm_lang.specs.Parts.{StandsFor};

/// The translation of an accepted module that a text says stands for it.
pub(crate) fn translation_stands()
    ensures { (m : Module) (size : ℕ) → IsAccepted m → IsWellFormed m → is_heap_length size ≡ true → StandsFor m size (translation m size) }
{
    asm2wasm_laws_simulation::sessions_laws::translations();
    asm2wasm_laws_simulation::sessions_laws::sessions();
    asm2wasm_laws_acceptance::limits();
    asm2wasm_laws_acceptance::functions();
    asm2wasm_laws_acceptance::calls();
    asm2wasm_laws_writable::shapes();
    asm2wasm_laws_writable::rooms();
    asm2wasm_laws_acceptance::exports_laws::one_export();
    asm2wasm_laws_profile::profile();
    wasm_laws_write::writable();
    asm2wasm_lang::tables_end_to_end();
}
