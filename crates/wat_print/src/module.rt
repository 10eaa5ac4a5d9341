//! The text of a module.

ghost use Rattle.std.specs.Prelude.{◌≡◌, OnOk, IfOk};
ghost use Rattle.wasm_tree.specs.Views.{module_of};
ghost use Rattle.wat_lang.specs.Printing.{fields_pieces, module_pieces, canonical};
ghost use Rattle.wat_print.specs.Put.{written, put};

use crate::fields::{
    put_element_fields, put_export_fields, put_function_fields, put_global_fields,
    put_import_fields, put_memory_fields, put_segment_fields, put_start_field, put_table_fields,
    put_type_fields,
};
use crate::output::Output;
use std::alloc::{AllocError, Global};
use wasm_tree::Module;
use wasm_validate::Valid;

#[tactic(auto, using(crate::proofs::Puts::puts))]
fn put_fields(alloc: Global, out: &mut Output, module: &Module<'_>) -> Result<(), AllocError>
    ensures { OnOk result (written out.new ≡ put (written out.old) (fields_pieces (module_of «module».now))) }
{
    put_type_fields(out, module.types.as_slice())?;
    put_import_fields(out, module.imports.as_slice())?;
    put_function_fields(
        alloc,
        out,
        module.functions.as_slice(),
        module.bodies.as_slice(),
    )?;
    put_table_fields(out, module.tables.as_slice())?;
    put_memory_fields(out, module.memories.as_slice())?;
    put_global_fields(out, module.globals.as_slice())?;
    put_export_fields(out, module.exports.as_slice())?;
    put_start_field(out, module.start)?;
    put_element_fields(out, module.elements.as_slice())?;
    put_segment_fields(out, module.segments.as_slice())
}

#[tactic(auto, using(crate::proofs::Puts::puts))]
fn put_module(alloc: Global, out: &mut Output, module: &Module<'_>) -> Result<(), AllocError>
    ensures { OnOk result (written out.new ≡ put (written out.old) (module_pieces (module_of «module».now))) }
{
    out.open(b"module")?;
    out.line_end()?;
    put_fields(alloc, out, module)?;
    out.close()?;
    out.line_end()
}

/// The canonical text of a module. It fails only where memory that it asks for is refused.
pub fn write(alloc: Global, valid: &Valid<'_>) -> Result<Vec<u8>, AllocError>
    ensures { IfOk result (λ text. text.items ≡ canonical valid.now) }
{
    let module = valid.module();
    let mut out = Output::new(alloc);
    put_module(alloc, &mut out, module)?;
    Ok(out.into_bytes())
}
