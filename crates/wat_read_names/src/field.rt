//! The fields of a text.

ghost use Rattle.std.specs.Prelude.{◌≡◌, Some, option_map};
ghost use Rattle.wat_lang.specs.Names as spec;
ghost use Rattle.wat_read_tokens.specs.Marks.{marks_of};
ghost use Rattle.wat_read_names.specs.Fields.{field_of, entry_of};

use wat_grammar::Mark;
use wat_lang::{FieldKind, Space};
use wat_marks::MarkedToken;
use wat_read_tokens::same_space;

/// A field of the module, the offset of its keyword, and the tokens behind that.
#[derive(Clone, Copy)]
pub struct Field<'m, 'a> {
    pub kind: FieldKind,
    pub at: u64,
    pub parts: &'m [MarkedToken<'a>],
}

/// What a field puts into a numbered space, and the offset of the keyword that says so.
#[derive(Clone, Copy)]
pub struct Entry {
    pub space: Space,
    pub at: u64,
}

/// What an import puts into a numbered space.
pub fn described(parts: &[MarkedToken<'_>]) -> Option<Entry>
    ensures { option_map entry_of result ≡ spec.described (marks_of parts.now) }
{
    for token in parts {
        if let Mark::Described(space) = token.mark {
            return Some(Entry {
                space,
                at: token.token.at,
            });
        }
    }
    None
}

impl Field<'_, '_> {
    fn own(&self, space: Space) -> Option<Entry>
        ensures { option_map entry_of result ≡ Some (record { space = space; at = self.now.at }) }
    {
        Some(Entry { space, at: self.at })
    }

    /// What the field puts into a numbered space.
    pub fn entry(&self) -> Option<Entry>
        ensures { option_map entry_of result ≡ spec.entry_of (field_of self.now) }
    {
        match self.kind {
            FieldKind::Type => self.own(Space::Type),
            FieldKind::Import => described(self.parts),
            FieldKind::Func => self.own(Space::Func),
            FieldKind::Table => self.own(Space::Table),
            FieldKind::Memory => self.own(Space::Memory),
            FieldKind::Global => self.own(Space::Global),
            FieldKind::Export => None,
            FieldKind::Start => None,
            FieldKind::Elem => self.own(Space::Elem),
            FieldKind::Data => self.own(Space::Data),
        }
    }

    /// Whether the field puts something into the space.
    pub fn enters(&self, space: Space) -> bool
        ensures { result ≡ spec.enters space (field_of self.now) }
    {
        match self.entry() {
            Some(entry) => same_space(space, entry.space),
            None => false,
        }
    }

    /// Whether the field is an import.
    pub fn is_import(&self) -> bool
        ensures { result ≡ spec.is_import self.now.kind }
    {
        matches!(self.kind, FieldKind::Import)
    }
}
