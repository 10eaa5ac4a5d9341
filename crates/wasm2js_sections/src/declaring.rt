//! Variables that each module has, and those of each module with a memory.
ghost use Rattle.std.specs.Prelude.{◌≡◌, ◌++◌, List, map, IfOk};
ghost use Rattle.asm_lang.specs.Trees as trees;
ghost use Rattle.asm_tree.specs.Views.{global_view, init_view};
ghost use Rattle.wasm2js_translation.specs.Names.{fixed};
ghost use Rattle.wasm2js_translation.specs.Helpers.{zero_variable};
ghost use Rattle.wasm2js_translation.specs.Modules as modules;
ghost use Rattle.wasm2js_translation.specs.Modules.{stdlib_name, foreign_name, heap_name};
ghost use Rattle.wasm2js_nodes.specs.Names.{name_view, fixed_view};

use asm_tree::{Global_, Init};
use sem_words::{Text, signed32};
use std::alloc::{AllocError, Global};
use wasm2js_nodes::{Fixed, Name, spell};

/// Adds the views of the heap.
#[tactic(auto, using(std::proofs::lemmas::List::append_assoc))]
pub fn add_views(alloc: Global, variables: &mut Vec<Global_>) -> Result<(), AllocError>
    ensures { IfOk result (λ _. map global_view variables.new.items ≡ map global_view variables.old.items ++ modules.view_variables) }
{
    variables.push(view(alloc, Fixed::ViewOfBytes, b"Uint8Array")?)?;
    variables.push(view(alloc, Fixed::ViewOfSignedBytes, b"Int8Array")?)?;
    variables.push(view(alloc, Fixed::ViewOfWords, b"Int32Array")?)?;
    Ok(())
}

/// Adds the standard library's functions, the two foreign ones of each module, and two words.
#[tactic(auto, using(std::proofs::lemmas::List::append_assoc))]
pub fn add_fixed(alloc: Global, variables: &mut Vec<Global_>) -> Result<(), AllocError>
    ensures { IfOk result (λ _. map global_view variables.new.items ≡ map global_view variables.old.items ++ modules.fixed_variables) }
{
    variables.push(math(alloc, Fixed::Imul, b"imul")?)?;
    variables.push(math(alloc, Fixed::Clz32, b"clz32")?)?;
    variables.push(foreign(alloc, Name::Always(Fixed::Trap), b"$trap")?)?;
    variables.push(foreign(alloc, Name::Always(Fixed::High), b"$high")?)?;
    variables.push(zero(alloc, Name::Always(Fixed::SpareHigh))?)?;
    variables.push(zero(alloc, Name::Always(Fixed::ResultHigh))?)?;
    Ok(())
}

fn view(alloc: Global, name: Fixed, kind: &[u8]) -> Result<Global_, AllocError>
    ensures { IfOk result (λ v. global_view v ≡ modules.variable (fixed (fixed_view name)) (trees.view stdlib_name kind.now heap_name)) }
{
    let library = Text::from_bytes(alloc, b"stdlib")?;
    let kind = Text::from_bytes(alloc, kind)?;
    let heap = Text::from_bytes(alloc, b"heap")?;
    variable(alloc, Name::Always(name), Init::View(library, kind, heap))
}

fn math(alloc: Global, name: Fixed, field: &[u8]) -> Result<Global_, AllocError>
    ensures { IfOk result (λ v. global_view v ≡ modules.variable (fixed (fixed_view name)) (trees.math stdlib_name field.now)) }
{
    let library = Text::from_bytes(alloc, b"stdlib")?;
    let field = Text::from_bytes(alloc, field)?;
    variable(alloc, Name::Always(name), Init::Math(library, field))
}

/// A foreign function.
pub fn foreign(alloc: Global, name: Name, field: &[u8]) -> Result<Global_, AllocError>
    ensures { IfOk result (λ v. global_view v ≡ modules.variable (name_view name) (trees.member foreign_name field.now)) }
{
    let module = Text::from_bytes(alloc, b"foreign")?;
    let field = Text::from_bytes(alloc, field)?;
    variable(alloc, name, Init::Member(module, field))
}

/// An int that the host gives.
pub fn given(alloc: Global, name: Name, field: &[u8]) -> Result<Global_, AllocError>
    ensures { IfOk result (λ v. global_view v ≡ modules.variable (name_view name) (trees.foreign_int foreign_name field.now)) }
{
    let module = Text::from_bytes(alloc, b"foreign")?;
    let field = Text::from_bytes(alloc, field)?;
    variable(alloc, name, Init::ForeignInt(module, field))
}

/// A variable that begins with 0.
pub fn zero(alloc: Global, name: Name) -> Result<Global_, AllocError>
    ensures { IfOk result (λ v. global_view v ≡ zero_variable (name_view name)) }
{
    variable(alloc, name, Init::Number(0))
}

/// A variable that begins with a word.
pub fn word(alloc: Global, name: Name, word: u32) -> Result<Global_, AllocError>
    ensures { IfOk result (λ v. global_view v ≡ modules.word_variable (name_view name) word) }
{
    variable(alloc, name, Init::Number(i64::from(signed32(word))))
}

fn variable(alloc: Global, name: Name, init: Init) -> Result<Global_, AllocError>
    ensures { IfOk result (λ v. global_view v ≡ modules.variable (name_view name) (init_view init)) }
{
    let name = spell(alloc, name)?;
    Ok(Global_ { name, init })
}
