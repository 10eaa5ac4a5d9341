//! The numbers of functions and tables by their names.

ghost use Rattle.std.specs.Prelude.{◌≡◌, ℕ, List, ◌++◌, IfOk, length, map, if◌then◌else◌};
ghost use Rattle.std.specs.Str.{bytes_eq};
ghost use Rattle.asm_lang.specs.Modules as plain;
ghost use Rattle.asm_tree.specs.Views.{module_view, function_view, table_view};
ghost use Rattle.asm_names.specs.Members.{number_in};
ghost use Rattle.asm_short_graph.specs.Graphs.{names_in, node_names, first_number};
ghost use Rattle.asm_short_graph.specs.Numbered.{IsNumbered};

use asm_tree::{Function, Module, Table};
use indexmap::IndexMap;
use key_hashes::{KeyHashes, NameKey, hashes_of};
use std::alloc::{AllocError, Global};

/// The numbers of a module's functions, and after them those of its tables, by their names. Of equal names the first counts.
#[derive(Drop)]
pub struct Nodes<'a> {
    numbers: IndexMap<NameKey<'a>, usize, KeyHashes>,
    count: usize,
}

impl<'a> Nodes<'a> {
    /// Those of a module.
    pub fn new(alloc: Global, home: &'a Module) -> Result<Nodes<'a>, AllocError>
        ensures { IfOk result (λ nodes. IsNumbered (node_names (module_view home.now)) nodes) }
    {
        let names = names_of(alloc, home)?;
        let count = names.len();
        let hashes = hashes_of(names.as_slice());
        let mut numbers = IndexMap::with_capacity_and_hasher(alloc, count, hashes)?;
        put_all(&mut numbers, names.as_slice())?;
        Ok(Nodes { numbers, count })
    }

    /// The number of the first of this name, or how many there are where none has it.
    pub fn number(&self, name: &[u8]) -> usize
        ensures { (names : List (List ℕ)) → IsNumbered names self.now → result ≡ first_number names name.now }
    {
        match self.numbers.get(&NameKey::of(name)) {
            Some(number) => *number,
            None => self.count,
        }
    }
}

fn put<'a>(
    numbers: &mut IndexMap<NameKey<'a>, usize, KeyHashes>,
    name: &'a [u8],
    number: usize,
) -> Result<(), AllocError>
    ensures { IfOk result (λ _. (n : List ℕ) (o : ℕ) → number_in numbers.new n o ≡ (if bytes_eq name.now n then number else number_in numbers.old n o)) }
{
    numbers.insert(NameKey::of(name), number)?;
    Ok(())
}

// Later ones are put in first, so that an earlier one takes their place.
fn put_all<'a>(
    numbers: &mut IndexMap<NameKey<'a>, usize, KeyHashes>,
    names: &[&'a [u8]],
) -> Result<(), AllocError>
    ensures { IfOk result (λ _. (n : List ℕ) → number_in numbers.old n (length names.now) ≡ length names.now → number_in numbers.new n (length names.now) ≡ first_number (names_in names.now) n) }
{
    let mut i = names.len();
    while i > 0 {
        i -= 1;
        put(numbers, names[i], i)?;
    }
    Ok(())
}

fn names_of<'a>(alloc: Global, home: &'a Module) -> Result<Vec<&'a [u8]>, AllocError>
    ensures { IfOk result (λ names. names_in names.items ≡ node_names (module_view home.now)) }
{
    let mut names = Vec::new(alloc);
    push_functions(&mut names, home.functions.as_slice())?;
    push_tables(&mut names, home.tables.as_slice())?;
    Ok(names)
}

fn push_functions<'a>(
    names: &mut Vec<&'a [u8]>,
    functions: &'a [Function],
) -> Result<(), AllocError>
    ensures { IfOk result (λ _. names_in names.new.items ≡ names_in names.old.items ++ map (λ (f : plain.Function). f.name) (map function_view functions.now)) }
{
    for function in functions {
        names.push(function.name.as_bytes())?;
    }
    Ok(())
}

fn push_tables<'a>(names: &mut Vec<&'a [u8]>, tables: &'a [Table]) -> Result<(), AllocError>
    ensures { IfOk result (λ _. names_in names.new.items ≡ names_in names.old.items ++ map (λ (t : plain.Table). t.name) (map table_view tables.now)) }
{
    for table in tables {
        names.push(table.name.as_bytes())?;
    }
    Ok(())
}
