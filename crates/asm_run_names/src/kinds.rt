// How the elements of a view are accessed.
ghost use Rattle.std.specs.Prelude.{◌≡◌};
ghost use Rattle.asm_lang_exec.specs.Values as exec;
ghost use Rattle.asm_names.specs.Meanings.{meaning_view};
ghost use Rattle.asm_run_code.specs.Names as code;

use asm_lang_valid::Element;
use asm_names::Meaning;
use heap_lang::ViewKind;

/// The kind of the view that this is.
pub fn kind_of(meaning: Option<Meaning<'_>>) -> ViewKind
    ensures { result ≡ code.view_kind (meaning_view meaning.entry) }
{
    match meaning {
        Some(Meaning::View(element)) => view_kind(element),
        _ => ViewKind::U8,
    }
}

fn view_kind(element: Element) -> ViewKind
    ensures { result ≡ exec.kind_of element }
{
    match element {
        Element::Int8 => ViewKind::I8,
        Element::Uint8 => ViewKind::U8,
        Element::Int16 => ViewKind::I16,
        Element::Uint16 => ViewKind::U16,
        Element::Int32 => ViewKind::I32,
        Element::Uint32 => ViewKind::U32,
    }
}
