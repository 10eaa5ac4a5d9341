//! What a call by a name calls.
ghost use Rattle.std.specs.Prelude.{◌≡◌, IfOk};
ghost use Rattle.sem_words.specs.Lists.{text_bytes};
ghost use Rattle.asm_tree.specs.Views.{module_view};
ghost use Rattle.asm_lang_valid.specs.Refusal.{function_number};
ghost use Rattle.asm_names.specs.Meanings.{meaning_view};
ghost use Rattle.asm_names.specs.Members.{IsNumbered};
ghost use Rattle.asm_run_names.specs.declared.callee.Callee.TheVariants.{Own, Foreign};
ghost use Rattle.asm_run_names.specs.Callees.{callee_of};

use crate::module::ModuleNames;
use crate::numbers::small;
use asm_lang_valid::Builtin;
use asm_names::Meaning;
use sem_words::Text;
use std::alloc::AllocError;

/// What a call by a name calls.
#[derive(Clone, Copy)]
pub enum Callee {
    /// The function of this number.
    Own(u32),
    /// The foreign member of this number.
    Foreign(u32),
    Builtin(Builtin),
    Nothing,
}

/// What the name of a module calls that means this.
pub fn called(
    home: &ModuleNames<'_>,
    name: &Text,
    meaning: Option<Meaning<'_>>,
) -> Result<Callee, AllocError>
    requires { IsNumbered (module_view home.now) meaning }
    ensures { IfOk result (λ callee. callee ≡ callee_of (module_view home.now) (text_bytes name.now) (meaning_view meaning.entry)) }
{
    match meaning {
        Some(Meaning::Function(_)) => own(home, name),
        Some(Meaning::Foreign(member)) => foreign(member.declaration),
        Some(Meaning::Builtin(builtin)) => Ok(Callee::Builtin(builtin)),
        _ => Ok(Callee::Nothing),
    }
}

fn own(home: &ModuleNames<'_>, name: &Text) -> Result<Callee, AllocError>
    ensures { IfOk result (λ callee. callee ≡ Own (function_number (module_view home.now).functions (text_bytes name.now))) }
{
    Ok(Callee::Own(small(home.function_number(name))?))
}

fn foreign(number: usize) -> Result<Callee, AllocError>
    ensures { IfOk result (λ callee. callee ≡ Foreign number) }
{
    Ok(Callee::Foreign(small(number)?))
}
