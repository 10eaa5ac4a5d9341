//! The sections that the rules of a module speak of.
ghost use Rattle.std.specs.Prelude.{◌≡◌};
ghost use Rattle.wasm_lang_valid.specs.Validity.{id};

/// A section of a module. The variants stand in the order in which they are checked, that of their ids, 1 to 11.
#[derive(Clone, Copy, PartialEq, Eq, Debug)]
pub enum Section {
    Types,
    Imports,
    Functions,
    Tables,
    Memories,
    Globals,
    Exports,
    Start,
    Elements,
    Code,
    Data,
}

/// The id of a section, 1 to 11.
pub fn section_number(section: Section) -> u8
    ensures { result ≡ id section }
{
    match section {
        Section::Types => 1,
        Section::Imports => 2,
        Section::Functions => 3,
        Section::Tables => 4,
        Section::Memories => 5,
        Section::Globals => 6,
        Section::Exports => 7,
        Section::Start => 8,
        Section::Elements => 9,
        Section::Code => 10,
        Section::Data => 11,
    }
}
