// The rows of global variables.

ghost use Rattle.std.specs.Prelude.{◌≡◌, ◌+◌, ◌++◌, ◌<◌, ◌^◌, length, map, is_some, IfOk};
ghost use Rattle.std.specs.Str.{bytes_eq};
ghost use Rattle.sem_words.specs.Lists.{text_bytes};
ghost use Rattle.asm_tree.specs.Views.{module_view, init_view, global_view};
ghost use Rattle.asm_lang_valid.specs.Rows.{first};
ghost use Rattle.asm_lang_valid.specs.Scope.{is_stdlib, constructors, constructor_in};
ghost use Rattle.asm_lang_valid.specs.Typed as typed;
ghost use Rattle.asm_lang_valid.specs.TypeRows as rows;
ghost use Rattle.asm_validate_exprs.specs.Found.{row_of};

use asm_lang_valid::{Met, Rule};
use asm_tree::{Global_, Init, Module};
use asm_validate_exprs::{literal_type, needs};
use sem_words::Text;

/// Whether this is the name of the module's first parameter.
#[tactic(auto, using(asm_names::proofs::Parameters::nth_is))]
fn is_stdlib(home: &Module, name: &Text) -> bool
    ensures { result ≡ is_stdlib (module_view home.now) (text_bytes name.now) }
{
    match home.params.get(0) {
        None => false,
        Some(parameter) => parameter.as_bytes() == name.as_bytes(),
    }
}

fn is_word(word: &[u8], name: &[u8]) -> bool
    ensures { result ≡ bytes_eq word.now name.now }
{
    word == name
}

fn is_constant(name: &[u8]) -> bool
    ensures { result ≡ typed.is_constant name.now }
{
    is_word(b"Infinity", name) || is_word(b"NaN", name)
}

fn is_constructor(name: &[u8]) -> bool
    ensures { result ≡ is_some (constructor_in constructors name.now) }
{
    if is_word(b"Int8Array", name) || is_word(b"Uint8Array", name) {
        true
    } else if is_word(b"Int16Array", name) || is_word(b"Uint16Array", name) {
        true
    } else if is_word(b"Int32Array", name) || is_word(b"Uint32Array", name) {
        true
    } else {
        is_word(b"Float32Array", name) || is_word(b"Float64Array", name)
    }
}

/// Whether a number lies in [-2^31, 2^32).
pub fn literal_fits(init: &Init) -> bool
    ensures { result ≡ typed.literal_fits (init_view init.now) }
{
    match init {
        Init::Number(value) => literal_type(i128::from(*value)).is_some(),
        Init::Decimal(_)
        | Init::ForeignInt(_, _)
        | Init::ForeignDouble(_, _)
        | Init::Member(_, _)
        | Init::Math(_, _)
        | Init::View(_, _, _) => true,
    }
}

/// Whether a member of the standard library and a view are among those that asm.js has.
fn member_fits(home: &Module, init: &Init) -> bool
    ensures { result ≡ typed.member_fits (module_view home.now) (init_view init.now) }
{
    match init {
        Init::Member(object, field) => !is_stdlib(home, object) || is_constant(field.as_bytes()),
        Init::View(_, constructor, _) => is_constructor(constructor.as_bytes()),
        Init::Number(_)
        | Init::Decimal(_)
        | Init::ForeignInt(_, _)
        | Init::ForeignDouble(_, _)
        | Init::Math(_, _) => true,
    }
}

#[tactic(auto, using(asm_validate_exprs::proofs::Sequences::sequences))]
fn global_typed(home: &Module, init: &Init, node: u64) -> Result<(), Met>
    ensures { first (rows.literal_rows (init_view init.now) node ++ rows.member_rows (module_view home.now) (init_view init.now) node) ≡ row_of result }
{
    needs(literal_fits(init), Rule::LiteralRange, node)?;
    needs(member_fits(home, init), Rule::OutsideInteger, node)
}

/// The first row of global variables, of which the first is node `at`.
#[tactic(auto, using(asm_validate_exprs::proofs::Sequences::sequences))]
pub fn globals_typed(home: &Module, globals: &[Global_], at: &mut u64) -> Result<(), Met>
    requires { at.old + length globals.now < 2 ^ 64 }
    ensures row { first (rows.globals_rows (module_view home.now) at.old (map global_view globals.now)) ≡ row_of result }
    ensures counted { IfOk result (λ _. at.new ≡ at.old + length globals.now) }
{
    for global in globals {
        global_typed(home, &global.init, *at)?;
        *at += 1;
    }
    Ok(())
}
