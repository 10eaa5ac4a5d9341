//! The variables of a function.

ghost use Rattle.std.specs.Prelude.{◌≡◌, ◌++◌, ℕ, List, IfOk, OnOk, map};
ghost use Rattle.asm_lang.specs.Modules as plain;
ghost use Rattle.asm_tree.specs.Views.{function_view, param_view, local_view, stmts_view};
ghost use Rattle.sem_words.specs.Lists.{list_items};
ghost use Rattle.asm_short_lang.specs.Sequence.{numbered};
ghost use Rattle.asm_short_lang.specs.Renaming.{local_names, new_locals, in_place};
ghost use Rattle.asm_short_tree.specs.Looking.{new_names, names_in, found};
ghost use Rattle.asm_short_modules.specs.NewDeclared.{IsOf};

use crate::used::used_of;
use asm_short_names::first_numbers;
use asm_short_tree::{Names, NewName};
use asm_short_uses::uses_of;
use asm_tree::{Function, Local, Param};
use std::alloc::{AllocError, Global};

/// The names of a function's parameters, and then of its locals.
pub(crate) fn local_names<'a>(
    alloc: Global,
    function: &'a Function,
) -> Result<Vec<&'a [u8]>, AllocError>
    ensures { IfOk result (λ names. names_in names.items ≡ local_names (function_view function.now)) }
{
    let mut names = Vec::new(alloc);
    push_params(&mut names, function.params.as_slice())?;
    push_locals(&mut names, function.locals.as_slice())?;
    Ok(names)
}

fn push_params<'a>(names: &mut Vec<&'a [u8]>, params: &'a [Param]) -> Result<(), AllocError>
    ensures { IfOk result (λ _. names_in names.new.items ≡ names_in names.old.items ++ map (λ (p : plain.Param). p.name) (map param_view params.now)) }
{
    for param in params {
        names.push(param.name.as_bytes())?;
    }
    Ok(())
}

fn push_locals<'a>(names: &mut Vec<&'a [u8]>, locals: &'a [Local]) -> Result<(), AllocError>
    ensures { IfOk result (λ _. names_in names.new.items ≡ names_in names.old.items ++ map (λ (v : plain.Variable). v.name) (map local_view locals.now)) }
{
    for local in locals {
        names.push(local.name.as_bytes())?;
    }
    Ok(())
}

// The numbers of the new names of a function's variables, of which these are the old ones.
fn local_numbers(
    alloc: Global,
    declared: &Names<'_>,
    names: &[&[u8]],
    function: &Function,
) -> Result<Vec<u64>, AllocError>
    requires { names_in names.now ≡ local_names (function_view function.now) }
    ensures { (m : plain.Module) → IsOf m declared.now → IfOk result (λ ns. map numbered ns.items ≡ new_locals m (function_view function.now)) }
{
    let uses = uses_of(alloc, function.body.as_slice())?;
    let used = used_of(alloc, declared, names, uses.as_slice())?;
    let kept = declared.kept();
    let excluded = used.excluded(kept);
    let numbers = first_numbers(alloc, excluded, names.len())?;
    Ok(numbers)
}

/// The new names of a function's variables, of which these are the old ones.
pub(crate) fn new_locals<'a>(
    alloc: Global,
    declared: &Names<'_>,
    names: &[&'a [u8]],
    function: &Function,
) -> Result<Names<'a>, AllocError>
    requires { names_in names.now ≡ local_names (function_view function.now) }
    ensures { (m : plain.Module) → IsOf m declared.now → IfOk result (λ locals. (n : List ℕ) → found locals n ≡ in_place (local_names (function_view function.now)) (new_locals m (function_view function.now)) n) }
{
    let numbers = local_numbers(alloc, declared, names, function)?;
    let news = numbered_names(alloc, numbers.as_slice())?;
    let locals = Names::new(alloc, b"", names, news.as_slice())?;
    Ok(locals)
}

/// New names of these numbers.
fn numbered_names(alloc: Global, numbers: &[u64]) -> Result<Vec<NewName>, AllocError>
    ensures { IfOk result (λ news. (kept : List ℕ) → new_names kept news.items ≡ map numbered numbers.now) }
{
    let mut news = Vec::with_capacity(alloc, numbers.len())?;
    for number in numbers {
        news.push(NewName::Numbered(*number))?;
    }
    Ok(news)
}
