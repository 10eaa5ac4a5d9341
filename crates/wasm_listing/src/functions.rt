//! The lines of functions.

ghost use Rattle.std.specs.Prelude.{◌≡◌, ◌+◌, ◌<◌, ◌≤◌, ◌^◌, ◌++◌, length, map, IfOk, OnOk};
ghost use Rattle.wasm_tree.specs.Views.{body_of, code_of, import_of, module_of, type_of};
ghost use Rattle.wasm_lang_valid.specs.ModuleRules.{imported_functions};
ghost use Rattle.bridge_lang.specs.Listing as spec;

use crate::counts::counts_line;
use crate::types::push_numbered;
use itoa::Buffer;
use session_lang::import_name;
use std::alloc::{AllocError, Global};
use wasm_tree::{Body, Code, FuncType, Import, ImportKind, Module};

/// How many instructions code has, the last end among them.
fn instruction_count(alloc: Global, code: &Code<'_>) -> Result<usize, AllocError>
    ensures { IfOk result (λ count. count ≡ length (code_of code.now)) }
{
    let instructions = code.instrs(alloc)?;
    Ok(instructions.len())
}

/// The line of an imported function.
fn push_import_line(
    alloc: Global,
    out: &mut Vec<u8>,
    types: &[FuncType],
    number: usize,
    import: &Import<'_>,
    function_type: u32,
) -> Result<(), AllocError>
    ensures { OnOk result (out.new.items
        ≡ out.old.items ++ spec.import_line (map type_of types.now) number (import_of import.now) function_type) }
{
    let mut digits = Buffer::new();
    let name = import_name(alloc, import.module.as_bytes(), import.field.as_bytes())?;
    out.extend_from_slice(b"import ")?;
    out.extend_from_slice(digits.format(number).as_bytes())?;
    out.extend_from_slice(b" ")?;
    out.extend_from_slice(name.as_bytes())?;
    out.extend_from_slice(b" ")?;
    push_numbered(out, types, function_type)?;
    out.extend_from_slice(b"\n")
}

/// The line of an import, if it is a function; the number of the next function.
fn push_import(
    alloc: Global,
    out: &mut Vec<u8>,
    types: &[FuncType],
    number: usize,
    import: &Import<'_>,
) -> Result<usize, AllocError>
    requires { number + 1 < 2 ^ 64 }
    ensures line { OnOk result (out.new.items
        ≡ out.old.items ++ spec.import_lines_of (map type_of types.now) number (import_of import.now) import.now.kind) }
    ensures next { IfOk result (λ n. n ≡ spec.number_after number import.now.kind) }
{
    match import.kind {
        ImportKind::Func(function_type) => {
            push_import_line(alloc, out, types, number, import, function_type)?;
            Ok(number + 1)
        }
        ImportKind::Table(_) | ImportKind::Memory(_) | ImportKind::Global(_) => Ok(number),
    }
}

/// The lines of the imported functions; how many there are.
#[tactic(auto, using(crate::proofs::Steps::import_steps))]
fn push_imports(
    alloc: Global,
    out: &mut Vec<u8>,
    types: &[FuncType],
    imports: &[Import<'_>],
) -> Result<usize, AllocError>
    ensures lines { OnOk result (out.new.items ≡ out.old.items ++ spec.import_lines (map type_of types.now) 0 (map import_of imports.now)) }
    ensures count { IfOk result (λ n. n ≡ length (imported_functions (map import_of imports.now))) }
    ensures few { IfOk result (λ n. n ≤ length imports.now) }
{
    let mut number = 0;
    for import in imports {
        number = push_import(alloc, out, types, number, import)?;
    }
    Ok(number)
}

/// The line of a function that the module defines.
fn push_function(
    alloc: Global,
    out: &mut Vec<u8>,
    types: &[FuncType],
    number: usize,
    function_type: u32,
    body: &Body<'_>,
) -> Result<(), AllocError>
    ensures { OnOk result (out.new.items
        ≡ out.old.items ++ spec.function_line (map type_of types.now) number function_type (body_of body.now)) }
{
    let mut digits = Buffer::new();
    let mut count = Buffer::new();
    let instructions = instruction_count(alloc, &body.code)?;
    out.extend_from_slice(b"func ")?;
    out.extend_from_slice(digits.format(number).as_bytes())?;
    out.extend_from_slice(b" ")?;
    push_numbered(out, types, function_type)?;
    out.extend_from_slice(b" ")?;
    out.extend_from_slice(count.format(instructions).as_bytes())?;
    out.extend_from_slice(b"\n")
}

/// The lines of the functions that the module defines, numbered from `first` on.
#[tactic(auto, using(crate::proofs::Steps::function_steps))]
fn push_functions(
    alloc: Global,
    out: &mut Vec<u8>,
    types: &[FuncType],
    functions: &[u32],
    bodies: &[Body<'_>],
    first: usize,
) -> Result<(), AllocError>
    requires { first < 2 ^ 63 }
    ensures { OnOk result (out.new.items
        ≡ out.old.items ++ spec.function_lines (map type_of types.now) first functions.now (map body_of bodies.now)) }
{
    for index in 0..functions.len().min(bodies.len()) {
        let number = first + index;
        push_function(alloc, out, types, number, functions[index], &bodies[index])?;
    }
    Ok(())
}

/// The text of a module: its line of counts, then a line for each imported function with its number, its name and its
/// type, and one for each function that it defines with its number, its type and how many instructions it has.
pub fn listing(alloc: Global, module: &Module<'_>) -> Result<Vec<u8>, AllocError>
    ensures { IfOk result (λ text. text.items ≡ spec.listing (module_of «module».now)) }
{
    let mut out = counts_line(alloc, module)?;
    let types = module.types.as_slice();
    let functions = module.functions.as_slice();
    let bodies = module.bodies.as_slice();
    let first = push_imports(alloc, &mut out, types, module.imports.as_slice())?;
    push_functions(alloc, &mut out, types, functions, bodies, first)?;
    Ok(out)
}
