//! Why bytes, a text, a valid module or a pair of modules of WebAssembly aren't taken, by number and name, as it is printed.
ghost use Rattle.std.specs.Prelude.{◌≡◌};
ghost use Rattle.bridge_lang.specs.WasmRows as rows;

use wasm_lang::Row;
use wasm_lang_valid::Beyond;
use wasm_link_lang::LinkRow;
use wat_lang::Row as WatRow;

/// Why bytes aren't of the binary format.
#[tactic(auto, unfolding(crate::specs::WasmRows::binary_row_name))]
pub fn binary_row_name(row: Row) -> &'static str
    ensures { result.now ≡ rows.binary_row_name row }
{
    match row {
        Row::Magic => "B1 Magic",
        Row::Version => "B2 Version",
        Row::Truncated => "B3 Truncated",
        Row::Leb => "B4 Leb",
        Row::SectionOrder => "B5 SectionOrder",
        Row::SectionSize => "B6 SectionSize",
        Row::UnknownByte => "B7 UnknownByte",
        Row::Utf8 => "B8 Utf8",
        Row::Counts => "B9 Counts",
        Row::Float => "B10 Float",
        Row::MemoryGrow => "B11 MemoryGrow",
        Row::Limit => "B12 Limit",
    }
}

/// Why a text says no module.
#[tactic(auto, unfolding(crate::specs::WasmRows::wat_row_name))]
pub fn wat_row_name(row: WatRow) -> &'static str
    ensures { result.now ≡ rows.wat_row_name row }
{
    match row {
        WatRow::Token => "C1 Token",
        WatRow::Grammar => "C2 Grammar",
        WatRow::Number => "C3 Number",
        WatRow::IdTaken => "C4 IdTaken",
        WatRow::IdUnknown => "C5 IdUnknown",
        WatRow::TypeUse => "C6 TypeUse",
        WatRow::Order => "C7 Order",
        WatRow::Limit => "C8 Limit",
        WatRow::OutsideInteger => "C9 OutsideInteger",
        WatRow::Utf8 => "C10 Utf8",
    }
}

/// Why a valid module isn't taken.
#[tactic(auto, unfolding(crate::specs::WasmRows::beyond_name))]
pub fn beyond_name(row: Beyond) -> &'static str
    ensures { result.now ≡ rows.beyond_name row }
{
    match row {
        Beyond::ImportedTable => "B14 ImportedTable",
        Beyond::MutableImport => "B15 MutableImport",
        Beyond::WideImport => "B16 WideImport",
        Beyond::OffsetFromImport => "B17 OffsetFromImport",
        Beyond::SegmentOutside => "B18 SegmentOutside",
        Beyond::MemoryLarge => "B19 MemoryLarge",
        Beyond::Levels => "B20 Levels",
        Beyond::MixedImport => "B22 MixedImport",
        Beyond::Size => "B23 Size",
        Beyond::WideMulDiv => "B24 WideMulDiv",
    }
}

/// Why a pair isn't linked.
#[tactic(auto, unfolding(crate::specs::WasmRows::link_row_name))]
pub fn link_row_name(row: LinkRow) -> &'static str
    ensures { result.now ≡ rows.link_row_name row }
{
    match row {
        LinkRow::Profile => "L1 Profile",
        LinkRow::MemoryName => "L2 MemoryName",
        LinkRow::MemoryLimits => "L3 MemoryLimits",
        LinkRow::ExportTaken => "L4 ExportTaken",
        LinkRow::OtherType => "L5 OtherType",
        LinkRow::Cycle => "L6 Cycle",
        LinkRow::Limit => "L7 Limit",
    }
}

/// For which module's sake, between two words.
pub fn side_name(second: bool) -> &'static str
    ensures { result.now ≡ rows.side_name second }
{
    if second { " second " } else { " first " }
}
