// Whether a module has a heap.

ghost use Rattle.std.specs.Prelude.{◌≡◌, map};
ghost use Rattle.std.specs.Str.{bytes_eq};
ghost use Rattle.asm_lang.specs.Modules.{Module};
ghost use Rattle.asm_tree.specs.Views.{global_view, init_view};
ghost use Rattle.asm_lang_valid.specs.Scope.{constructors, constructor_in, init_meaning, viewed};
ghost use Rattle.asm_lang_valid.specs.Refusal.{any_view, is_view};

use asm_tree::{Global_, Init};

fn is_word(word: &[u8], name: &[u8]) -> bool
    ensures { result ≡ bytes_eq word.now name.now }
{
    word == name
}

// Whether this is the constructor of an integer view.
fn is_constructor(name: &[u8]) -> bool
    ensures { result ≡ is_view (viewed (constructor_in constructors name.now)) }
{
    is_word(b"Int8Array", name)
        || is_word(b"Uint8Array", name)
        || is_word(b"Int16Array", name)
        || is_word(b"Uint16Array", name)
        || is_word(b"Int32Array", name)
        || is_word(b"Uint32Array", name)
}

fn makes_view(init: &Init) -> bool
    ensures { (m : Module) → result ≡ is_view (init_meaning m (init_view init.now)) }
{
    match init {
        Init::View(_, constructor, _) => is_constructor(constructor.as_bytes()),
        Init::Number(_)
        | Init::Decimal(_)
        | Init::ForeignInt(_, _)
        | Init::ForeignDouble(_, _)
        | Init::Member(_, _)
        | Init::Math(_, _) => false,
    }
}

/// Whether one of these declares an integer view.
pub fn has_heap(globals: &[Global_]) -> bool
    ensures { (m : Module) → result ≡ any_view m (map global_view globals.now) }
{
    for global in globals {
        if makes_view(&global.init) {
            return true;
        }
    }
    false
}
