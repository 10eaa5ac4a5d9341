//! The code of a module as a machine runs it.
ghost use Rattle.std.specs.Prelude.{◌≡◌, [], map, IfOk};
ghost use Rattle.std.specs.Option.{unwrap_or};
ghost use Rattle.sem_words.specs.Lists.{list_items};
ghost use Rattle.session_lang.specs.Views.{call_of};
ghost use Rattle.asm_lang.specs.Modules.{Variable};
ghost use Rattle.asm_tree.specs.Views.{global_view, init_view, module_view};
ghost use Rattle.asm_run_code.specs.Modules.{codes_of};
ghost use Rattle.asm_run_code.specs.Names.{member_name};
ghost use Rattle.asm_run_emit_bodies.specs.Flats.{flat_view};
ghost use Rattle.asm_run_steps.specs.Worlds.{world_of};
ghost use Rattle.asm_run_steps.specs.Linked.{flat_of, names_of};
ghost use Rattle.asm_run_state.specs.Session.{callees_of, IsSession};

use asm_run_emit_bodies::Flat;
use asm_run_state::run;
use asm_run_steps::{Function, Linked, World};
use asm_tree::{Global_, Init, Module};
use sem_words::List;
use session_lang::CallLine;
use session_replies::Seen;
use std::alloc::{AllocError, Global};

/// The functions that this code is of.
pub fn functions_of(alloc: Global, flats: &[Flat]) -> Result<Vec<Function<'_>>, AllocError>
    ensures { IfOk result (λ functions. map flat_of functions.items ≡ map flat_view flats.now) }
{
    let mut functions = Vec::with_capacity(alloc, flats.len())?;
    for flat in flats {
        functions.push(Function {
            params: flat.params,
            firsts: flat.firsts.as_slice(),
            code: flat.code.as_slice(),
        })?;
    }
    Ok(functions)
}

/// The names of the foreign members by their declarations.
pub fn members_of<'a>(alloc: Global, globals: &'a [Global_]) -> Result<Vec<&'a [u8]>, AllocError>
    ensures { IfOk result (λ members. names_of members.items ≡ map (λ (v : Variable). unwrap_or (member_name v.init) []) (map global_view globals.now)) }
{
    let mut members = Vec::with_capacity(alloc, globals.len())?;
    for global in globals {
        members.push(name_of(&global.init))?;
    }
    Ok(members)
}

// The name of the member that a declaration imports, or none.
fn name_of(init: &Init) -> &[u8]
    ensures { result.now ≡ unwrap_or (member_name (init_view init.now)) [] }
{
    match init {
        Init::Member(_, name) => name.as_bytes(),
        Init::Number(_)
        | Init::Decimal(_)
        | Init::ForeignInt(_, _)
        | Init::ForeignDouble(_, _)
        | Init::Math(_, _)
        | Init::View(_, _, _) => &[],
    }
}

/// What is seen of the module, of which these are the functions, tables and foreign members, where the script makes these calls in a
/// world; None where the session goes wrong.
pub fn run_linked(
    alloc: Global,
    module: &Module,
    functions: &[Function<'_>],
    tables: &[List<u32>],
    members: &[&[u8]],
    callees: &[Option<u32>],
    world: World<'_>,
    calls: &[CallLine],
) -> Result<Option<Seen>, AllocError>
    requires functions { map flat_of functions.now ≡ (codes_of (module_view «module».now)).functions }
    requires tables { map list_items tables.now ≡ (codes_of (module_view «module».now)).tables }
    requires members { names_of members.now ≡ (codes_of (module_view «module».now)).members }
    requires callees { callees.now ≡ callees_of (module_view «module».now) (map call_of calls.now) }
    ensures { IfOk result (λ seen. IsSession (module_view «module».now) (map call_of calls.now) (world_of world.entry) seen) }
{
    let linked = Linked {
        functions,
        tables,
        members,
    };
    run(alloc, module, linked, callees, world, calls)
}
