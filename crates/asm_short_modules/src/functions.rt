//! Functions with new names.

ghost use Rattle.std.specs.Prelude.{◌≡◌, IfOk, map};
ghost use Rattle.sem_words.specs.Lists.{list_items, text_bytes};
ghost use Rattle.asm_lang.specs.Modules as plain;
ghost use Rattle.asm_tree.specs.Views.{function_view, param_view, local_view};
ghost use Rattle.asm_short_lang.specs.Renaming.{renamed_function};
ghost use Rattle.asm_short_tree.specs.Looking.{look_by};
ghost use Rattle.asm_short_modules.specs.NewDeclared.{IsOf, GivesNothing, param_with, variable_with};

use crate::declarations::renamed_init;
use crate::lists::pushed;
use crate::locals::{local_names, new_locals};
use asm_short_tree::{Look, Names, renamed_body};
use asm_tree::{Function, Local, Param};
use sem_words::List;
use std::alloc::{AllocError, Global};

/// A function of a module whose declarations have these new names.
pub(crate) fn renamed_function(
    alloc: Global,
    declared: &Names<'_>,
    function: &Function,
) -> Result<Function, AllocError>
    ensures { (m : plain.Module) → IsOf m declared.now → IfOk result (λ r. function_view r ≡ renamed_function m (function_view function.now)) }
{
    let names = local_names(alloc, function)?;
    let variables = new_locals(alloc, declared, names.as_slice(), function)?;
    let look = Look {
        locals: &variables,
        declared,
    };
    let name = declared.text(alloc, &function.name)?;
    let params = renamed_params(alloc, &look, function.params.as_slice())?;
    let nothing = Names::new(alloc, b"", &[], &[])?;
    let locals = renamed_locals(alloc, &look, &nothing, function.locals.as_slice())?;
    let body = renamed_body(alloc, &look, function.body.as_slice())?;
    Ok(Function {
        name,
        params,
        locals,
        body,
    })
}

fn renamed_params(
    alloc: Global,
    look: &Look<'_, '_>,
    params: &[Param],
) -> Result<List<Param>, AllocError>
    ensures { IfOk result (λ r. map param_view (list_items r) ≡ map (param_with (look_by look.now)) (map param_view params.now)) }
{
    let empty = List::with_capacity(alloc, params.len())?;
    let mut list = empty;
    for param in params {
        let name = look.text(alloc, &param.name)?;
        let double = param.double;
        list = pushed(list, Param { name, double })?;
    }
    Ok(list)
}

// What a local begins with stays, so `nothing` gives no new names.
fn renamed_locals(
    alloc: Global,
    look: &Look<'_, '_>,
    nothing: &Names<'_>,
    locals: &[Local],
) -> Result<List<Local>, AllocError>
    requires { GivesNothing nothing.now }
    ensures { IfOk result (λ r. map local_view (list_items r) ≡ map (variable_with (look_by look.now)) (map local_view locals.now)) }
{
    let empty = List::with_capacity(alloc, locals.len())?;
    let mut list = empty;
    for local in locals {
        let name = look.text(alloc, &local.name)?;
        let init = renamed_init(alloc, nothing, &local.init)?;
        list = pushed(list, Local { name, init })?;
    }
    Ok(list)
}
