// What a global declaration makes of its name.

ghost use Rattle.std.specs.Prelude.{◌≡◌, ℕ, List, Some, length};
ghost use Rattle.sem_words.specs.Lists.{text_bytes};
ghost use Rattle.asm_lang.specs.Modules as plain;
ghost use Rattle.asm_lang.specs.Trees as trees;
ghost use Rattle.asm_tree.specs.Views.{module_view, init_view};
ghost use Rattle.asm_lang_valid.specs.Scope as scopes;
ghost use Rattle.asm_lang_valid.specs.Scope.{constructors, constructor_in, viewed};
ghost use Rattle.asm_names.specs.Meanings.{meaning_view};
ghost use Rattle.asm_names.specs.Members.{IsImported, IsNumbered, first_import, number_in};

use crate::meaning::{Meaning, Member};
use crate::words::is_word;
use asm_lang_valid::{Builtin, Element};
use asm_tree::{Init, Module};
use indexmap::IndexMap;
use key_hashes::{KeyHashes, NameKey};
use sem_words::Text;

/// What a global variable with this declaration means.
pub fn init_meaning<'a>(
    module: &Module,
    imports: &IndexMap<NameKey<'a>, usize, KeyHashes>,
    init: &'a Init,
) -> Meaning<'a>
    requires { (n : List ℕ) → number_in imports.now n (length (module_view «module».now).globals) ≡ first_import (module_view «module».now).globals n }
    ensures known { meaning_view (Some result) ≡ scopes.init_meaning (module_view «module».now) (init_view init.now) }
    ensures numbered { IsImported (module_view «module».now) (init_view init.now) → IsNumbered (module_view «module».now) (Some result) }
{
    match init {
        Init::Number(_) | Init::ForeignInt(_, _) => Meaning::Int,
        Init::Decimal(_) | Init::ForeignDouble(_, _) => Meaning::Outside,
        Init::Member(object, field) => member_meaning(module, imports, object, field),
        Init::Math(_, field) => math_meaning(field.as_bytes()),
        Init::View(_, constructor, _) => view_meaning(constructor.as_bytes()),
    }
}

fn member_meaning<'a>(
    module: &Module,
    imports: &IndexMap<NameKey<'a>, usize, KeyHashes>,
    object: &Text,
    field: &'a Text,
) -> Meaning<'a>
    requires { (n : List ℕ) → number_in imports.now n (length (module_view «module».now).globals) ≡ first_import (module_view «module».now).globals n }
    ensures known { meaning_view (Some result) ≡ scopes.init_meaning (module_view «module».now) (trees.member (text_bytes object.now) (text_bytes field.now)) }
    ensures numbered { IsImported (module_view «module».now) (trees.member (text_bytes object.now) (text_bytes field.now)) → IsNumbered (module_view «module».now) (Some result) }
{
    if is_foreign(module, object) {
        Meaning::Foreign(foreign_member(module, imports, field))
    } else {
        Meaning::Outside
    }
}

// The member of this name with its number.
fn foreign_member<'a>(
    module: &Module,
    imports: &IndexMap<NameKey<'a>, usize, KeyHashes>,
    field: &'a Text,
) -> Member<'a>
    requires { (n : List ℕ) → number_in imports.now n (length (module_view «module».now).globals) ≡ first_import (module_view «module».now).globals n }
    ensures named { result.name.now ≡ field.now }
    ensures first { result.declaration ≡ first_import (module_view «module».now).globals (text_bytes field.now) }
{
    let declaration = match imports.get(&NameKey::of(field.as_bytes())) {
        Some(number) => *number,
        None => module.globals.len(),
    };
    Member {
        name: field,
        declaration,
    }
}

/// Whether this is the name of the module's first parameter.
pub fn is_stdlib(module: &Module, name: &Text) -> bool
    ensures { result ≡ scopes.is_stdlib (module_view «module».now) (text_bytes name.now) }
{
    is_parameter(module, 0, name)
}

/// .. of the second.
pub fn is_foreign(module: &Module, name: &Text) -> bool
    ensures { result ≡ scopes.is_foreign (module_view «module».now) (text_bytes name.now) }
{
    is_parameter(module, 1, name)
}

/// .. of the third.
pub fn is_heap(module: &Module, name: &Text) -> bool
    ensures { result ≡ scopes.is_heap (module_view «module».now) (text_bytes name.now) }
{
    is_parameter(module, 2, name)
}

#[tactic(auto, using(crate::proofs::Parameters::nth_is))]
fn is_parameter(module: &Module, i: usize, name: &Text) -> bool
    ensures { result ≡ scopes.is_name (text_bytes name.now) (scopes.nth (module_view «module».now).params i) }
{
    match module.params.get(i) {
        None => false,
        Some(parameter) => parameter.as_bytes() == name.as_bytes(),
    }
}

fn math_meaning(field: &[u8]) -> Meaning<'static>
    ensures known { meaning_view (Some result) ≡ scopes.math_meaning field.now }
    ensures numbered { (m : plain.Module) → IsNumbered m (Some result) }
{
    if is_word(b"imul", field) {
        Meaning::Builtin(Builtin::Imul)
    } else if is_word(b"clz32", field) {
        Meaning::Builtin(Builtin::Clz32)
    } else {
        Meaning::Outside
    }
}

fn view_meaning(constructor: &[u8]) -> Meaning<'static>
    ensures known { meaning_view (Some result) ≡ viewed (constructor_in constructors constructor.now) }
    ensures numbered { (m : plain.Module) → IsNumbered m (Some result) }
{
    if is_word(b"Int8Array", constructor) {
        Meaning::View(Element::Int8)
    } else if is_word(b"Uint8Array", constructor) {
        Meaning::View(Element::Uint8)
    } else if is_word(b"Int16Array", constructor) {
        Meaning::View(Element::Int16)
    } else if is_word(b"Uint16Array", constructor) {
        Meaning::View(Element::Uint16)
    } else if is_word(b"Int32Array", constructor) {
        Meaning::View(Element::Int32)
    } else if is_word(b"Uint32Array", constructor) {
        Meaning::View(Element::Uint32)
    } else {
        Meaning::Outside
    }
}
