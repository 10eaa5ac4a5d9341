// A pair with the numbers of its linked module.

ghost use Rattle.std.specs.Prelude.{◌≡◌, None, IfOk, replicate};
ghost use Rattle.wasm_tree.specs.Views.{module_of};
ghost use Rattle.wasm_link_lang.specs.Pairs.{past_first};
ghost use Rattle.wasm_link_code.specs.Linked.{last_function};
ghost use Rattle.wasm_link_lang.specs.Reductions.{entries};
ghost use Rattle.wasm_link_lang.specs.Refusal as rows;
ghost use Rattle.wasm_link_code.specs.Numbers.{number, global_number, global_numbers};

use crate::bindings::Bindings;
use crate::bound::push_unbound;
use crate::counts::imported_globals;
use crate::exported::Exporting;
use crate::numbers::{number_at, numbered, numbers_at};
use std::alloc::{AllocError, Global};
use std::marker::Model;
use wasm_tree::Module;

/// Two modules with the numbers that their functions and globals have once they are linked. Contracts see the pair.
#[derive(Drop)]
pub struct Numbers<'a> {
    bindings: Bindings<'a>,
    count: u32,
    functions: Vec<u32>,
    globals: Vec<u32>,
}

impl<'a> Model for Numbers<'a> {
    ghost use Rattle.wasm_link_lang.specs.Pairs.{Pair};
    ghost use Rattle.wasm_link_bind.specs.Numbering.{AreNumbers};

    ghost Value = { Pair };

    ghost view = { λ n. n.bindings };

    ghost invariant = { λ n. AreNumbers n.bindings n.count n.functions.items n.globals.items };
}

impl<'a> Numbers<'a> {
    /// The numbers of a pair in which no import comes back to itself, and no count is too large.
    pub fn new(alloc: Global, bindings: Bindings<'a>) -> Result<Numbers<'a>, AllocError>
        requires first { rows.cycle bindings 0 0 bindings.first.imports ≡ None }
        requires second { rows.cycle bindings 0 (past_first bindings).functions bindings.second.imports ≡ None }
        requires few { rows.sums_past bindings ≡ None }
        ensures { IfOk result (λ n. n ≡ bindings.entry) }
    {
        let count = function_count(&bindings);
        let functions = bindings.function_numbers(alloc)?;
        let globals = global_numbers_of(alloc, &bindings)?;
        Ok(Numbers {
            bindings,
            count,
            functions,
            globals,
        })
    }

    /// The first module, with the functions that it exports.
    pub fn first(&self) -> &Exporting<'a>
        ensures { result.now ≡ self.now.first }
    {
        self.bindings.first()
    }

    /// .. and the second.
    pub fn second(&self) -> &Exporting<'a>
        ensures { result.now ≡ self.now.second }
    {
        self.bindings.second()
    }

    /// How many functions the linked module has without the one that calls both starts.
    pub fn count(&self) -> u32
        ensures { result ≡ last_function self.now }
    {
        self.count
    }

    /// The number of what the function at an address stands for.
    pub fn function(&self, address: usize) -> u32
        ensures { result ≡ number self.now address }
    {
        number_at(self.functions.as_slice(), address)
    }

    /// The number of the global at an address.
    pub fn global(&self, address: usize) -> u32
        ensures { result ≡ global_number self.now address }
    {
        number_at(self.globals.as_slice(), address)
    }

    /// How many entries the first's table has.
    pub fn first_entries(&self) -> u32
        ensures { result ≡ entries self.now.first }
    {
        own_entries(self.bindings.first().valid().module())
    }

    /// .. and the second's.
    pub fn second_entries(&self) -> u32
        ensures { result ≡ entries self.now.second }
    {
        own_entries(self.bindings.second().valid().module())
    }
}

// The minimum of a module's own table, and 0 where it has none.
fn own_entries(module: &Module<'_>) -> u32
    ensures { result ≡ entries (module_of «module».now) }
{
    match module.tables.get(0) {
        Some(limits) => limits.min,
        None => 0,
    }
}

// How many functions aren't bound imports.
fn function_count(bindings: &Bindings<'_>) -> u32
    requires { rows.sums_past bindings.now ≡ None }
    ensures { result ≡ last_function bindings.now }
{
    let first = bindings.first().valid().module().functions.len();
    let second = bindings.second().valid().module().functions.len();
    (bindings.unbound_imports() + first + second) as u32
}

// The number of each global, by its address.
fn global_numbers_of(alloc: Global, bindings: &Bindings<'_>) -> Result<Vec<u32>, AllocError>
    requires { rows.sums_past bindings.now ≡ None }
    ensures { IfOk result (λ numbers. numbers.items ≡ global_numbers bindings.now) }
{
    let first = bindings.first().valid().module();
    let second = bindings.second().valid().module();
    let first_imports = unbound(alloc, imported_globals(first.imports.as_slice()))?;
    let second_imports = unbound(alloc, imported_globals(second.imports.as_slice()))?;
    numbered(
        alloc,
        first_imports.as_slice(),
        first.globals.len(),
        second_imports.as_slice(),
        second.globals.len(),
    )
}

fn unbound(alloc: Global, count: usize) -> Result<Vec<Option<usize>>, AllocError>
    ensures { IfOk result (λ nones. nones.items ≡ replicate count None) }
{
    let mut nones = Vec::with_capacity(alloc, count)?;
    push_unbound(&mut nones, count)?;
    Ok(nones)
}
