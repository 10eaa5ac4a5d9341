//! Tokens by their marks.

ghost use Rattle.std.specs.Prelude.{◌≡◌, [], true, false, option_map, unwrap_or, codes, bytes_eq, IfSome};
ghost use Rattle.wasm_lang.specs.declared.types.ValType.TheVariants as types;
ghost use Rattle.wat_lang.specs.Grammar.{value_type_of};
ghost use Rattle.wat_lang.specs.Modules as modules;
ghost use Rattle.wat_lang.specs.Names as spec;
ghost use Rattle.wat_lang.specs.Numbers as numbers;
ghost use Rattle.wat_lang.specs.Rows.{number_rows, is_bad_number};
ghost use Rattle.wat_grammar.specs.Views.{mark_of};
ghost use Rattle.wat_marks.specs.Strings.{reads_string};
ghost use Rattle.wat_marks.specs.Views.{marked_of};
ghost use Rattle.wat_read_tokens.specs.Wanted.{test_of, space_number, part_number};
ghost use Rattle.wat_read_tokens.specs.Marks.{marks_of, marked_at};

use wasm_lang::ValType;
use wat_grammar::Mark;
use wat_lang::{Part, Space};
use wat_marks::MarkedToken;
use wat_tokens::Class;

/// The bytes of a token that is no string.
pub fn atom<'a>(token: &MarkedToken<'a>) -> &'a [u8]
    requires { reads_string (mark_of token.now.mark) ≡ false }
    ensures { result.now ≡ spec.text_of (marked_of token.now) }
{
    match token.token.class {
        Class::Atom(bytes) => bytes,
        Class::Opens => &[],
        Class::Closes => &[],
        Class::String(_) => &[],
    }
}

/// Whether it is `$` and more.
pub fn is_id(bytes: &[u8]) -> bool
    ensures { result ≡ numbers.is_id bytes.now }
{
    match bytes {
        [first, _, ..] => *first == b'$',
        _ => false,
    }
}

fn is_i32(bytes: &[u8]) -> bool
    ensures { result ≡ bytes_eq (codes "i32") bytes.now }
{
    b"i32".as_slice() == bytes
}

fn is_i64(bytes: &[u8]) -> bool
    ensures { result ≡ bytes_eq (codes "i64") bytes.now }
{
    b"i64".as_slice() == bytes
}

fn named_type(bytes: &[u8]) -> ValType
    ensures { result ≡ unwrap_or (value_type_of bytes.now) types.I32 }
{
    if is_i32(bytes) {
        ValType::I32
    } else if is_i64(bytes) {
        ValType::I64
    } else {
        ValType::I32
    }
}

/// The value type that a token writes.
pub fn value_type(token: &MarkedToken<'_>) -> ValType
    requires { reads_string (mark_of token.now.mark) ≡ false }
    ensures { result ≡ spec.type_of (marked_of token.now) }
{
    named_type(atom(token))
}

fn space_number(space: Space) -> u8
    ensures { result ≡ space_number space }
{
    match space {
        Space::Type => 0,
        Space::Func => 1,
        Space::Table => 2,
        Space::Memory => 3,
        Space::Global => 4,
        Space::Local => 5,
        Space::Label => 6,
        Space::Elem => 7,
        Space::Data => 8,
    }
}

/// Whether it is the same space.
#[tactic(auto, using(crate::proofs::Tests::space_numbers))]
pub fn same_space(a: Space, b: Space) -> bool
    ensures { result ≡ spec.same_space a b }
{
    space_number(a) == space_number(b)
}

fn part_number(part: Part) -> u8
    ensures { result ≡ part_number part }
{
    match part {
        Part::Param => 0,
        Part::Result => 1,
        Part::Local => 2,
    }
}

/// Whether it is the same part.
#[tactic(auto, using(crate::proofs::Tests::part_numbers))]
pub fn same_part(a: Part, b: Part) -> bool
    ensures { result ≡ spec.same_part a b }
{
    part_number(a) == part_number(b)
}

/// What a token may be wanted for.
#[derive(Clone, Copy)]
pub enum Wanted {
    Binds(Space),
    Uses(Space),
    TypeUse,
    Type(Part),
    BlockResult,
    GlobalType,
    Mutable,
    Minimum,
    Maximum,
    ModuleName,
    FieldName,
    ExportName,
    Bytes,
    Word,
    Offset,
    Alignment,
    Instruction,
}

impl Wanted {
    /// Whether a token with the mark is wanted.
    pub fn is(self, mark: Mark) -> bool
        ensures { result ≡ test_of self (mark_of mark) }
    {
        match self {
            Wanted::Binds(space) => binds_in(space, mark),
            Wanted::Uses(space) => uses_in(space, mark),
            Wanted::TypeUse => is_type_use(mark),
            Wanted::Type(part) => is_type_of(part, mark),
            Wanted::BlockResult => is_block_result(mark),
            Wanted::GlobalType => is_global_type(mark),
            Wanted::Mutable => is_mutable(mark),
            Wanted::Minimum => is_minimum(mark),
            Wanted::Maximum => is_maximum(mark),
            Wanted::ModuleName => is_module_name(mark),
            Wanted::FieldName => is_field_name(mark),
            Wanted::ExportName => is_export_name(mark),
            Wanted::Bytes => is_bytes(mark),
            Wanted::Word => is_word(mark),
            Wanted::Offset => is_offset(mark),
            Wanted::Alignment => is_alignment(mark),
            Wanted::Instruction => is_instruction(mark),
        }
    }
}

fn binds_in(space: Space, mark: Mark) -> bool
    ensures { result ≡ spec.binds_in space (mark_of mark) }
{
    match mark {
        Mark::Binds(other) => same_space(space, other),
        _ => false,
    }
}

fn uses_in(space: Space, mark: Mark) -> bool
    ensures { result ≡ spec.uses_in space (mark_of mark) }
{
    match mark {
        Mark::Uses(other) => same_space(space, other),
        _ => false,
    }
}

fn is_type_of(part: Part, mark: Mark) -> bool
    ensures { result ≡ spec.types_part part (mark_of mark) }
{
    match mark {
        Mark::Type(other) => same_part(part, other),
        _ => false,
    }
}

fn is_type_use(mark: Mark) -> bool
    ensures { result ≡ spec.is_type_use (mark_of mark) }
{
    matches!(mark, Mark::TypeUse)
}

fn is_block_result(mark: Mark) -> bool
    ensures { result ≡ modules.is_block_result (mark_of mark) }
{
    matches!(mark, Mark::BlockResult)
}

fn is_global_type(mark: Mark) -> bool
    ensures { result ≡ modules.is_global_type (mark_of mark) }
{
    matches!(mark, Mark::GlobalType)
}

fn is_mutable(mark: Mark) -> bool
    ensures { result ≡ modules.is_mutable (mark_of mark) }
{
    matches!(mark, Mark::Mutable)
}

fn is_minimum(mark: Mark) -> bool
    ensures { result ≡ modules.is_minimum (mark_of mark) }
{
    matches!(mark, Mark::Minimum(_))
}

fn is_maximum(mark: Mark) -> bool
    ensures { result ≡ modules.is_maximum (mark_of mark) }
{
    matches!(mark, Mark::Maximum)
}

fn is_module_name(mark: Mark) -> bool
    ensures { result ≡ modules.is_module_name (mark_of mark) }
{
    matches!(mark, Mark::ModuleName)
}

fn is_field_name(mark: Mark) -> bool
    ensures { result ≡ modules.is_field_name (mark_of mark) }
{
    matches!(mark, Mark::FieldName)
}

fn is_export_name(mark: Mark) -> bool
    ensures { result ≡ modules.is_export_name (mark_of mark) }
{
    matches!(mark, Mark::ExportName)
}

fn is_bytes(mark: Mark) -> bool
    ensures { result ≡ modules.is_bytes (mark_of mark) }
{
    matches!(mark, Mark::Bytes)
}

fn is_word(mark: Mark) -> bool
    ensures { result ≡ modules.is_word (mark_of mark) }
{
    matches!(mark, Mark::Word32 | Mark::Word64)
}

fn is_offset(mark: Mark) -> bool
    ensures { result ≡ modules.is_offset (mark_of mark) }
{
    matches!(mark, Mark::Offset)
}

fn is_alignment(mark: Mark) -> bool
    ensures { result ≡ modules.is_alignment (mark_of mark) }
{
    matches!(mark, Mark::Alignment)
}

fn is_instruction(mark: Mark) -> bool
    ensures { result ≡ modules.is_instruction (mark_of mark) }
{
    matches!(mark, Mark::Instruction(_))
}

/// The first token with a mark that is wanted. Where no number of the tokens is out of its range, its own isn't.
#[tactic(auto, using(crate::proofs::Tests::good_at))]
pub fn first<'m, 'a>(parts: &'m [MarkedToken<'a>], wanted: Wanted) -> Option<&'m MarkedToken<'a>>
    ensures found { option_map marked_at result ≡ spec.first_with (test_of wanted) (marks_of parts.now) }
    ensures is_wanted { IfSome result (λ t. test_of wanted (mark_of t.now.mark) ≡ true) }
    ensures fits { IfSome result (λ t. number_rows (marks_of parts.now) ≡ [] → is_bad_number (marked_of t.now) ≡ false) }
{
    for token in parts {
        if wanted.is(token.mark) {
            return Some(token);
        }
    }
    None
}
