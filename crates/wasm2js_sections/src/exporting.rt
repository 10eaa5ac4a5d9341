//! Exports: the two functions that each module has, and the source's functions.
ghost use Rattle.std.specs.Prelude.{◌≡◌, ◌++◌, ◌∷◌, [], List, map, codes, IfOk};
ghost use Rattle.std.specs.List.{flat_map};
ghost use Rattle.wasm_lang.specs.Modules.{Exported};
ghost use Rattle.wasm_tree.specs.Views.{bytes_of, export_of};
ghost use Rattle.asm_lang.specs.Modules.{many};
ghost use Rattle.asm_tree.specs.Views.{export_view, exports_view};
ghost use Rattle.wasm2js_translation.specs.Names.{fixed, init, last_high};
ghost use Rattle.wasm2js_translation.specs.Modules as modules;
ghost use Rattle.wasm2js_translation.specs.Modules.{exports_of};
ghost use Rattle.wasm2js_nodes.specs.Names.{name_view};

use asm_tree::{Export, Exports};
use sem_words::{List, Text};
use session_lang::export_name;
use std::alloc::{AllocError, Global};
use wasm_tree::{ExportKind, WasmExport};
use wasm_validate::Valid;
use wasm2js_nodes::{Fixed, Name, Numbered, spell};

/// The exports of what a valid module is translated to. Those of the source that are no functions are left out.
#[tactic(auto, using(std::proofs::lemmas::List::append_assoc))]
pub fn exports(alloc: Global, valid: &Valid<'_>) -> Result<Exports, AllocError>
    ensures { IfOk result (λ e. exports_view e ≡ many (exports_of valid.now)) }
{
    let mut exports = Vec::new(alloc);
    add_fixed(alloc, &mut exports)?;
    add_exports(alloc, &mut exports, valid.module().exports.as_slice())?;
    Ok(Exports::Many(List::from_vec(exports)))
}

#[tactic(auto, using(std::proofs::lemmas::List::append_assoc))]
fn add_fixed(alloc: Global, exports: &mut Vec<Export>) -> Result<(), AllocError>
    ensures { IfOk result (λ _. map export_view exports.new.items ≡ map export_view exports.old.items ++ modules.export (codes "$init") (fixed init) ∷ modules.export (codes "$hi") (fixed last_high) ∷ []) }
{
    exports.push(export(alloc, b"$init", Fixed::Init)?)?;
    exports.push(export(alloc, b"$hi", Fixed::LastHigh)?)?;
    Ok(())
}

fn export(alloc: Global, key: &[u8], function: Fixed) -> Result<Export, AllocError>
    ensures { IfOk result (λ e. export_view e ≡ modules.export key.now (name_view (Name.Always function))) }
{
    let key = Text::from_bytes(alloc, key)?;
    let function = spell(alloc, Name::Always(function))?;
    Ok(Export { key, function })
}

fn add_exports(
    alloc: Global,
    exports: &mut Vec<Export>,
    sources: &[WasmExport<'_>],
) -> Result<(), AllocError>
    ensures { IfOk result (λ _. map export_view exports.new.items ≡ map export_view exports.old.items ++ flat_map (λ (e : Exported). modules.export_for e.name e.kind) (map export_of sources.now)) }
{
    for source in sources {
        add_export(alloc, exports, source)?;
    }
    Ok(())
}

fn add_export(
    alloc: Global,
    exports: &mut Vec<Export>,
    source: &WasmExport<'_>,
) -> Result<(), AllocError>
    ensures { IfOk result (λ _. map export_view exports.new.items ≡ map export_view exports.old.items ++ modules.export_for (bytes_of source.now.name) source.now.kind) }
{
    match source.kind {
        ExportKind::Func(function) => {
            exports.push(function_export(alloc, source.name.as_bytes(), function)?)?;
            Ok(())
        }
        ExportKind::Table(_) | ExportKind::Memory(_) | ExportKind::Global(_) => Ok(()),
    }
}

fn function_export(alloc: Global, name: &[u8], function: u32) -> Result<Export, AllocError>
    ensures { IfOk result (λ e. export_view e ∷ [] ≡ modules.export_for name.now (ExportKind.Func function)) }
{
    let key = export_name(alloc, name)?;
    let function = spell(
        alloc,
        Name::Counted(Numbered::Function, u64::from(function)),
    )?;
    Ok(Export { key, function })
}
