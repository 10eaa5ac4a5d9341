// What is proved of the linked module.

ghost use Rattle.std.specs.Prelude.{◌≡◌, None};
ghost use Rattle.wasm_lang.specs.Shape.{IsShaped};
ghost use Rattle.wasm_lang_valid.specs.Validity.{IsValidModule};
ghost use Rattle.wasm_link_lang.specs.Pairs.{Pair};
ghost use Rattle.wasm_link_lang.specs.Refusal.{refusal};
ghost use Rattle.wasm_link_code.specs.Linked.{linked};
ghost use Rattle.wasm_link_sections.specs.Made.{module_made};

use wasm_link_laws_modules::validity;
use wasm_link_laws_writable::writable;

/// The module that two valid modules are linked to is valid, and shaped where they are.
pub fn linked_stands()
    ensures valid { (w : Pair) → IsValidModule w.first → IsValidModule w.second → IsShaped w.first → IsShaped w.second → refusal w ≡ None → IsValidModule (linked w) }
    ensures shaped { (w : Pair) → IsValidModule w.first → IsValidModule w.second → IsShaped w.first → IsShaped w.second → refusal w ≡ None → IsShaped (linked w) }
{
    validity();
    writable();
}

/// What the code makes of two valid modules that can be linked is the linked module.
pub fn made_is_linked()
    ensures { (w : Pair) → IsValidModule w.first → IsValidModule w.second → refusal w ≡ None → module_made w ≡ linked w }
{}
