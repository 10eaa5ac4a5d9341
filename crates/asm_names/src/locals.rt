// The names of a function, put into a map with whether each is an int. Later ones are put in first, so that an
// earlier one takes their place.

ghost use Rattle.std.specs.Prelude.{◌≡◌, ℕ, List, IfOk, Some, map, if◌then◌else◌};
ghost use Rattle.std.specs.Str.{bytes_eq};
ghost use Rattle.sem_words.specs.Lists.{text_bytes};
ghost use Rattle.asm_tree.specs.Views.{local_view, param_view, init_view};
ghost use Rattle.asm_lang_valid.specs.Scope.{Meaning, among_locals, among_params, local_init};
ghost use Rattle.asm_names.specs.Meanings.{meaning_view};
ghost use Rattle.asm_names.specs.Scopes.{local_seen, variable_of};

use asm_tree::{Init, Local, Param};
use indexmap::IndexMap;
use key_hashes::KeyHashes;
use sem_words::Text;
use std::alloc::AllocError;

pub fn put_locals<'a>(
    names: &mut IndexMap<&'a [u8], bool, KeyHashes>,
    locals: &'a [Local],
) -> Result<(), AllocError>
    ensures { IfOk result (λ _. (n : List ℕ) (o : Meaning) → local_seen names.new n o ≡ among_locals (map local_view locals.now) n (local_seen names.old n o)) }
{
    let mut i = locals.len();
    while i > 0 {
        i -= 1;
        let local = &locals[i];
        put(names, &local.name, is_int(&local.init))?;
    }
    Ok(())
}

pub fn put_params<'a>(
    names: &mut IndexMap<&'a [u8], bool, KeyHashes>,
    params: &'a [Param],
) -> Result<(), AllocError>
    ensures { IfOk result (λ _. (n : List ℕ) (o : Meaning) → local_seen names.new n o ≡ among_params (map param_view params.now) n (local_seen names.old n o)) }
{
    let mut i = params.len();
    while i > 0 {
        i -= 1;
        let param = &params[i];
        put(names, &param.name, !param.double)?;
    }
    Ok(())
}

fn is_int(init: &Init) -> bool
    ensures { meaning_view (Some (variable_of result)) ≡ local_init (init_view init.now) }
{
    matches!(init, Init::Number(_))
}

fn put<'a>(
    names: &mut IndexMap<&'a [u8], bool, KeyHashes>,
    name: &'a Text,
    is_int: bool,
) -> Result<(), AllocError>
    ensures { IfOk result (λ _. (n : List ℕ) (o : Meaning) → local_seen names.new n o ≡ (if bytes_eq (text_bytes name.now) n then meaning_view (Some (variable_of is_int)) else local_seen names.old n o)) }
{
    names.insert(name.as_bytes(), is_int)?;
    Ok(())
}
