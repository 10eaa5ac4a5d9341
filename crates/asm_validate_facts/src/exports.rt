//! Exports.

ghost use Rattle.std.specs.Prelude.{◌≡◌, ◌<◌, ◌^◌, ℕ, [], ◌∷◌, length, map, IfOk, if◌then◌else◌};
ghost use Rattle.std.specs.Str.{bytes_eq};
ghost use Rattle.sem_words.specs.Lists.{text_bytes};
ghost use Rattle.asm_tree.specs.Views.{module_view, function_view, export_view};
ghost use Rattle.asm_lang_valid.specs.Refusal as facts;
ghost use Rattle.asm_lang_valid.specs.Refusal.{function_number};
ghost use Rattle.asm_validate_facts.specs.Numbers.{Bytes, Functions, number_seen, IsNumbered, numbered, all_numbered, export_said, exports_said};

use asm_tree::{Export, Exports, Function, Module};
use indexmap::IndexMap;
use key_hashes::{KeyHashes, Seed};
use sem_words::{List, Text};
use std::alloc::{AllocError, Global};

/// An export with the number of its function. A single export has its function's name as its key.
#[derive(PartialEq, Eq, Debug, Drop)]
pub struct ExportOf {
    pub key: Text,
    pub function: u32,
}

/// The numbers of a module's functions by their names. Of functions with one name the first counts.
#[derive(Drop)]
pub struct Numbers<'a> {
    names: IndexMap<&'a [u8], u32, KeyHashes>,
    // of functions
    count: u32,
}

impl<'a> Numbers<'a> {
    fn new(alloc: Global, functions: &'a [Function]) -> Result<Numbers<'a>, AllocError>
        requires { length functions.now < 2 ^ 32 }
        ensures { IfOk result (λ numbers. IsNumbered numbers (map function_view functions.now)) }
    {
        let hashes = hashes_of(functions);
        let mut names = IndexMap::with_capacity_and_hasher(alloc, functions.len(), hashes)?;
        put_numbers(&mut names, functions)?;
        Ok(Numbers {
            names,
            count: functions.len() as u32,
        })
    }

    // The number of the function of this name, or how many there are where none has it.
    fn number(&self, name: &[u8]) -> u32
        ensures { (functions : Functions) → IsNumbered self.now functions → result ≡ function_number functions name.now }
    {
        match self.names.get(name) {
            Some(number) => *number,
            None => self.count,
        }
    }

    fn export(&self, alloc: Global, key: &Text, function: &Text) -> Result<ExportOf, AllocError>
        ensures { IfOk result (λ e. (functions : Functions) → IsNumbered self.now functions → export_said e ≡ numbered functions (text_bytes key.now) (text_bytes function.now)) }
    {
        Ok(ExportOf {
            key: Text::from_bytes(alloc, key.as_bytes())?,
            function: self.number(function.as_bytes()),
        })
    }
}

// Hashers for the names of functions.
fn hashes_of(functions: &[Function]) -> KeyHashes {
    let mut seed = Seed::new();
    for function in functions {
        seed.add(function.name.as_bytes());
    }
    seed.hashes()
}

fn put_numbers<'a>(
    names: &mut IndexMap<&'a [u8], u32, KeyHashes>,
    functions: &'a [Function],
) -> Result<(), AllocError>
    requires { length functions.now < 2 ^ 32 }
    ensures { IfOk result (λ _. (n : Bytes) → number_seen names.old n (length functions.now) ≡ length functions.now → number_seen names.new n (length functions.now) ≡ function_number (map function_view functions.now) n) }
{
    let mut i = functions.len();
    while i > 0 {
        i -= 1;
        let function = &functions[i];
        put(names, &function.name, i as u32)?;
    }
    Ok(())
}

fn put<'a>(
    names: &mut IndexMap<&'a [u8], u32, KeyHashes>,
    name: &'a Text,
    number: u32,
) -> Result<(), AllocError>
    ensures { IfOk result (λ _. (n : Bytes) (o : ℕ) → number_seen names.new n o ≡ (if bytes_eq (text_bytes name.now) n then number else number_seen names.old n o)) }
{
    names.insert(name.as_bytes(), number)?;
    Ok(())
}

/// The exports of a module.
pub fn exports_of(alloc: Global, module: &Module) -> Result<List<ExportOf>, AllocError>
    requires { length (module_view «module».now).functions < 2 ^ 32 }
    ensures { IfOk result (λ exports. exports_said exports ≡ facts.exported_from (module_view «module».now) (module_view «module».now).exports) }
{
    let numbers = Numbers::new(alloc, module.functions.as_slice())?;
    match &module.exports {
        Exports::One(function) => single(alloc, &numbers, function),
        Exports::Many(exports) => several(alloc, &numbers, exports.as_slice()),
    }
}

fn single(
    alloc: Global,
    numbers: &Numbers<'_>,
    function: &Text,
) -> Result<List<ExportOf>, AllocError>
    ensures { IfOk result (λ exports. (functions : Functions) → IsNumbered numbers.now functions → exports_said exports ≡ numbered functions (text_bytes function.now) (text_bytes function.now) ∷ []) }
{
    let mut exports = Vec::new(alloc);
    exports.push(numbers.export(alloc, function, function)?)?;
    Ok(List::from_vec(exports))
}

fn several(
    alloc: Global,
    numbers: &Numbers<'_>,
    exports: &[Export],
) -> Result<List<ExportOf>, AllocError>
    ensures { IfOk result (λ said. (functions : Functions) → IsNumbered numbers.now functions → exports_said said ≡ all_numbered functions (map export_view exports.now)) }
{
    let mut said = Vec::new(alloc);
    for export in exports {
        said.push(numbers.export(alloc, &export.key, &export.function)?)?;
    }
    Ok(List::from_vec(said))
}
