//! Reading.

ghost use Rattle.std.specs.Prelude.{◌≤◌, length, IfOk, IfErr};
ghost use Rattle.wasm_lang.specs.Limits.{IsWithinReader};
ghost use Rattle.wasm_lang.specs.Shape.{IsShaped, IsWritable};
ghost use Rattle.wasm_tree.specs.Views.{module_of};
ghost use Rattle.wat_lang.specs.Texts.{SaysModule};
ghost use Rattle.wat_marks.specs.Views.{IsFaultOf};

use std::alloc::Global;
use wasm_tree::Module;
use wat_laws_read::said_modules;
use wat_laws_writable::writable;
use wat_marks::WatFault;
use wat_read::module;

/// The module that a text says, or the row that refuses it and its place.
///
/// It is within the limits of a reader, and the binary format has room for it where the text is no longer than 16 MiB.
pub fn read<'a>(alloc: Global, bytes: &'a [u8]) -> Result<Module<'a>, WatFault>
    ensures found { IfOk result (λ m. SaysModule bytes.now (module_of m)) }
    ensures shaped { IfOk result (λ m. IsShaped (module_of m)) }
    ensures within { IfOk result (λ m. IsWithinReader (module_of m)) }
    ensures writable { IfOk result (λ m. length bytes.now ≤ 16777216 → IsWritable (module_of m)) }
    ensures fault { IfErr result (λ e. IsFaultOf bytes.now e) }
{
    said_modules();
    writable();
    match module(alloc, bytes) {
        Ok(module) => Ok(module),
        Err(refusal) => Err(refusal),
    }
}
