//! Commands that read one file.
ghost use Rattle.std.specs.Prelude.{◌≡◌, ◌≤◌, true, false, None, length, IfOk, IfErr};
ghost use Rattle.bridge_lang.specs.Command as spec;
ghost use Rattle.bridge_lang.specs.declared.making.Making.TheVariants.{CheckAsm, CheckWasm, WasmToAsm, WasmToWat, WatToWasm, Shorten, Show};
ghost use Rattle.asm_tree.specs.Views.{module_view};
ghost use Rattle.wasm_binary_write.specs.Spelling.{spelling};
ghost use Rattle.asm2wasm_translation.specs.Modules.{translation};
ghost use Rattle.bridge_lang.specs.Job.{file_limit, IsMade};
ghost use Rattle.bridge_lang.specs.Answers.{IsAnswered};
ghost use Rattle.bridge_cmd.specs.Refused.{reason_of};

use crate::refusal::{Refusal, of_check, of_outside, of_text, of_wat};
use asm_grammar_print::print;
use asm_names::module_hashes;
use asm_text::printed_texts_are_read;
use asm_validate::Checked;
use asm2wasm::translate_module;
use bridge_args::HeapLength;
use bridge_lang::Making;
use cmd_check_asm::check_text;
use cmd_check_wasm::check_bytes;
use shared_bytes::SharedBytes;
use std::alloc::{AllocError, Global};
use std::mem;
use wasm_binary_write::{spelling_laws, write_shared};
use wasm_listing::listing;
use wasm_profile::profile;
use wasm_validate::Valid;

/// The bytes of a module of WebAssembly for an accepted module of asm.js with a heap of this length.
pub(crate) fn translated(
    alloc: Global,
    text: &[u8],
    heap: HeapLength,
) -> Result<SharedBytes, Refusal>
    requires { length text.now ≤ file_limit }
    ensures made { IfOk result (λ output. IsMade (spec.translate heap.bytes) text.now output) }
    ensures barred { IfErr result (λ refusal. IsAnswered (spec.translate heap.bytes) text.now (reason_of refusal)) }
{
    asm2wasm_laws_writable::writable();
    asm2wasm_laws_simulation::sessions_laws::translations();
    spelling_laws();
    let checked = match check_text(alloc, text) {
        Ok(checked) => checked,
        Err(fault) => return Err(of_text(fault)),
    };
    let _home = checked.module();
    let output = written(alloc, &checked, heap);
    // The command ends soon, and the system takes the memory back faster than piece by piece. So below.
    mem::forget(checked);
    match output {
        Ok(output) => Ok(output),
        Err(_) => Err(Refusal::OutOfMemory),
    }
}

// The shortest spelling of the translation.
fn written(alloc: Global, checked: &Checked, heap: HeapLength) -> Result<SharedBytes, AllocError>
    ensures { IfOk result (λ output. output ≡ spelling (translation (module_view checked.now) heap.bytes)) }
{
    let translation = translate_module(alloc, checked, heap.bytes)?;
    write_shared(alloc, &translation, module_hashes(checked.module()))
}

/// The canonical text of asm.js for a module of WebAssembly that can be translated.
fn translated_back(alloc: Global, bytes: &[u8]) -> Result<SharedBytes, Refusal>
    ensures made { IfOk result (λ output. IsMade (spec.make WasmToAsm) bytes.now output) }
    ensures barred { IfErr result (λ refusal. IsAnswered (spec.make WasmToAsm) bytes.now (reason_of refusal)) }
{
    wasm2js_laws_simulation::whole_laws::spelled();
    wasm2js_laws_simulation::bounded_laws::spelled();
    printed_texts_are_read();
    let valid = match check_bytes(alloc, bytes) {
        Ok(valid) => valid,
        Err(fault) => return Err(of_check(fault)),
    };
    match profile(&valid) {
        Ok(()) => {}
        Err(outside) => return Err(of_outside(outside)),
    }
    let _home = valid.module();
    let output = wasm2js::print_module(alloc, &valid);
    mem::forget(valid);
    match output {
        Ok(output) => Ok(SharedBytes::from_vec(alloc, output)),
        Err(_) => Err(Refusal::OutOfMemory),
    }
}

/// The canonical text of WebAssembly for a valid module.
fn worded(alloc: Global, bytes: &[u8]) -> Result<SharedBytes, Refusal>
    ensures made { IfOk result (λ output. IsMade (spec.make WasmToWat) bytes.now output) }
    ensures barred { IfErr result (λ refusal. IsAnswered (spec.make WasmToWat) bytes.now (reason_of refusal)) }
{
    let valid = match check_bytes(alloc, bytes) {
        Ok(valid) => valid,
        Err(fault) => return Err(of_check(fault)),
    };
    let output = wat_print::write(alloc, &valid);
    mem::forget(valid);
    match output {
        Ok(output) => Ok(SharedBytes::from_vec(alloc, output)),
        Err(_) => Err(Refusal::OutOfMemory),
    }
}

/// The shortest spelling of the valid module that a text of WebAssembly says.
fn assembled(alloc: Global, text: &[u8]) -> Result<SharedBytes, Refusal>
    requires { length text.now ≤ file_limit }
    ensures made { IfOk result (λ output. IsMade (spec.make WatToWasm) text.now output) }
    ensures barred { IfErr result (λ refusal. IsAnswered (spec.make WatToWasm) text.now (reason_of refusal)) }
{
    match cmd_wat2wasm::spelled(alloc, text) {
        Ok(bytes) => Ok(SharedBytes::from_vec(alloc, bytes)),
        Err(fault) => Err(of_wat(fault)),
    }
}

/// The counts line of an accepted module of asm.js.
fn text_counts(alloc: Global, text: &[u8]) -> Result<SharedBytes, Refusal>
    ensures made { IfOk result (λ output. IsMade (spec.make CheckAsm) text.now output) }
    ensures barred { IfErr result (λ refusal. IsAnswered (spec.make CheckAsm) text.now (reason_of refusal)) }
{
    match cmd_check_asm::counts(alloc, text) {
        Ok(line) => Ok(SharedBytes::from_vec(alloc, line)),
        Err(fault) => Err(of_text(fault)),
    }
}

/// The counts line of a valid module of WebAssembly.
fn bytes_counts(alloc: Global, bytes: &[u8]) -> Result<SharedBytes, Refusal>
    ensures made { IfOk result (λ output. IsMade (spec.make CheckWasm) bytes.now output) }
    ensures barred { IfErr result (λ refusal. IsAnswered (spec.make CheckWasm) bytes.now (reason_of refusal)) }
{
    match cmd_check_wasm::counts(alloc, bytes) {
        Ok(line) => Ok(SharedBytes::from_vec(alloc, line)),
        Err(fault) => Err(of_check(fault)),
    }
}

/// The canonical text of the short form of an accepted module of asm.js.
fn shortened(alloc: Global, text: &[u8]) -> Result<SharedBytes, Refusal>
    ensures made { IfOk result (λ output. IsMade (spec.make Shorten) text.now output) }
    ensures barred { IfErr result (λ refusal. IsAnswered (spec.make Shorten) text.now (reason_of refusal)) }
{
    match cmd_shorten::short_text(alloc, text) {
        Ok(output) => Ok(SharedBytes::from_vec(alloc, output)),
        Err(fault) => Err(of_text(fault)),
    }
}

/// The canonical text of an accepted module of asm.js.
fn printed(alloc: Global, text: &[u8]) -> Result<SharedBytes, Refusal>
    ensures made { spec.begins_with_zero text.now ≡ false → IfOk result (λ output. IsMade (spec.make Show) text.now output) }
    ensures barred { spec.begins_with_zero text.now ≡ false → IfErr result (λ refusal. IsAnswered (spec.make Show) text.now (reason_of refusal)) }
{
    let checked = match check_text(alloc, text) {
        Ok(checked) => checked,
        Err(fault) => return Err(of_text(fault)),
    };
    let output = print(alloc, checked.module());
    mem::forget(checked);
    match output {
        Ok(output) => Ok(SharedBytes::from_vec(alloc, output)),
        Err(_) => Err(Refusal::OutOfMemory),
    }
}

/// The listing of a valid module of WebAssembly.
fn listed(alloc: Global, bytes: &[u8]) -> Result<SharedBytes, Refusal>
    ensures made { spec.begins_with_zero bytes.now ≡ true → IfOk result (λ output. IsMade (spec.make Show) bytes.now output) }
    ensures barred { spec.begins_with_zero bytes.now ≡ true → IfErr result (λ refusal. IsAnswered (spec.make Show) bytes.now (reason_of refusal)) }
{
    let valid = match check_bytes(alloc, bytes) {
        Ok(valid) => valid,
        Err(fault) => return Err(of_check(fault)),
    };
    let output = listing(alloc, valid.module());
    mem::forget(valid);
    match output {
        Ok(output) => Ok(SharedBytes::from_vec(alloc, output)),
        Err(_) => Err(Refusal::OutOfMemory),
    }
}

/// Whether the bytes are read as WebAssembly, and not as asm.js.
fn begins_with_zero(bytes: &[u8]) -> bool
    ensures { result ≡ spec.begins_with_zero bytes.now }
{
    matches!(bytes, [0, ..])
}

/// What a module of either language is shown as.
fn shown(alloc: Global, bytes: &[u8]) -> Result<SharedBytes, Refusal>
    ensures made { IfOk result (λ output. IsMade (spec.make Show) bytes.now output) }
    ensures barred { IfErr result (λ refusal. IsAnswered (spec.make Show) bytes.now (reason_of refusal)) }
{
    if begins_with_zero(bytes) {
        listed(alloc, bytes)
    } else {
        printed(alloc, bytes)
    }
}

/// What is made of a module's bytes.
pub(crate) fn made(alloc: Global, making: Making, bytes: &[u8]) -> Result<SharedBytes, Refusal>
    requires { length bytes.now ≤ file_limit }
    ensures made { IfOk result (λ output. IsMade (spec.make making) bytes.now output) }
    ensures barred { IfErr result (λ refusal. IsAnswered (spec.make making) bytes.now (reason_of refusal)) }
{
    match making {
        Making::WasmToAsm => translated_back(alloc, bytes),
        Making::WasmToWat => worded(alloc, bytes),
        Making::WatToWasm => assembled(alloc, bytes),
        Making::Shorten => shortened(alloc, bytes),
        Making::CheckAsm => text_counts(alloc, bytes),
        Making::CheckWasm => bytes_counts(alloc, bytes),
        Making::Show => shown(alloc, bytes),
    }
}
