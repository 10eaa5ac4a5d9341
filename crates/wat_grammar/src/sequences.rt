//! What follows a token: the sequences of items that the table names.

ghost use Rattle.std.specs.Prelude.{◌≡◌};
ghost use Rattle.wat_lang.specs.Grammar.{immediates};
ghost use Rattle.wat_grammar.specs.Views.{form_of, items_of};
ghost use Rattle.wat_grammar.specs.declared.sequences.Sequence.TheVariants as sequences;
ghost use Rattle.wat_grammar.specs.Sequences.{sequence_of};

use crate::form::Form;
use crate::keyword::Keyword;
use crate::parts::{Item, Mark, Want};
use wat_lang::{Part, Rule, Space};

/// What follows a token, by the form that it begins.
#[derive(Clone, Copy)]
pub enum Sequence {
    Empty,
    Module,
    FieldAndMore,
    TypeField,
    ImportField,
    FuncField,
    Table,
    Memory,
    GlobalField,
    ExportField,
    ElemField,
    DataField,
    DescribedFunc,
    DescribedGlobal,
    UsesFunc,
    UsesTable,
    UsesMemory,
    UsesGlobal,
    Funcref,
    MutableType,
    Constant32,
    Constant64,
    ConstantGlobal,
    Functions,
    Labels,
    Strings,
    ResultType,
    ElseArm,
    /// A list of a head that is of this part or a later one, where locals may stand or not.
    Head(bool, Part),
    /// The types of a list of this part, and the lists behind it.
    HeadList(bool, Part),
    MoreTypes(Part),
    OneType(Part),
}

const OPEN: Item = Item::Token(Want::Open, Mark::Nothing);

const CLOSE: Item = Item::Token(Want::Close, Mark::Nothing);

static MODULE: [Item; 4] = [
    Item::Token(Want::Word(Keyword::Module), Mark::Nothing),
    Item::Rule(Rule::Name),
    Item::Rule(Rule::Fields),
    CLOSE,
];

static FIELD_AND_MORE: [Item; 3] = [Item::Rule(Rule::Field), CLOSE, Item::Rule(Rule::Fields)];

static TYPE_FIELD: [Item; 5] = [
    Item::Rule(Rule::Bound(Space::Type)),
    OPEN,
    Item::Token(Want::Word(Keyword::Func), Mark::Nothing),
    Item::Rule(Rule::Heads(false, Part::Param)),
    CLOSE,
];

static IMPORT_FIELD: [Item; 5] = [
    Item::Token(Want::Text, Mark::ModuleName),
    Item::Token(Want::Text, Mark::FieldName),
    OPEN,
    Item::Rule(Rule::Described),
    CLOSE,
];

static FUNC_FIELD: [Item; 7] = [
    Item::Rule(Rule::Bound(Space::Func)),
    OPEN,
    Item::Token(Want::Word(Keyword::Type), Mark::Nothing),
    Item::Token(Want::Index, Mark::TypeUse),
    CLOSE,
    Item::Rule(Rule::Heads(true, Part::Param)),
    Item::Rule(Rule::Code),
];

static TABLE: [Item; 3] = [
    Item::Rule(Rule::Bound(Space::Table)),
    Item::Token(Want::Number, Mark::Minimum(Space::Table)),
    Item::Rule(Rule::TableEnd),
];

static MEMORY: [Item; 3] = [
    Item::Rule(Rule::Bound(Space::Memory)),
    Item::Token(Want::Number, Mark::Minimum(Space::Memory)),
    Item::Rule(Rule::Maximum),
];

static GLOBAL_FIELD: [Item; 4] = [
    Item::Rule(Rule::Bound(Space::Global)),
    Item::Rule(Rule::Kind),
    OPEN,
    Item::Rule(Rule::Constant),
];

static EXPORT_FIELD: [Item; 4] = [
    Item::Token(Want::Text, Mark::ExportName),
    OPEN,
    Item::Rule(Rule::Exported),
    CLOSE,
];

static ELEM_FIELD: [Item; 5] = [
    Item::Rule(Rule::Bound(Space::Elem)),
    OPEN,
    Item::Rule(Rule::Constant),
    Item::Rule(Rule::FuncWord),
    Item::Rule(Rule::Functions),
];

static DATA_FIELD: [Item; 4] = [
    Item::Rule(Rule::Bound(Space::Data)),
    OPEN,
    Item::Rule(Rule::Constant),
    Item::Rule(Rule::Strings),
];

static DESCRIBED_FUNC: [Item; 6] = [
    Item::Rule(Rule::Bound(Space::Func)),
    OPEN,
    Item::Token(Want::Word(Keyword::Type), Mark::Nothing),
    Item::Token(Want::Index, Mark::TypeUse),
    CLOSE,
    Item::Rule(Rule::Heads(false, Part::Param)),
];

static DESCRIBED_GLOBAL: [Item; 2] = [
    Item::Rule(Rule::Bound(Space::Global)),
    Item::Rule(Rule::Kind),
];

static USES_FUNC: [Item; 1] = [Item::Token(Want::Index, Mark::Uses(Space::Func))];

static USES_TABLE: [Item; 1] = [Item::Token(Want::Index, Mark::Uses(Space::Table))];

static USES_MEMORY: [Item; 1] = [Item::Token(Want::Index, Mark::Uses(Space::Memory))];

static USES_GLOBAL: [Item; 1] = [Item::Token(Want::Index, Mark::Uses(Space::Global))];

static FUNCREF: [Item; 1] = [Item::Token(Want::Word(Keyword::Funcref), Mark::Nothing)];

static MUTABLE_TYPE: [Item; 3] = [
    Item::Token(Want::Word(Keyword::Mut), Mark::Mutable),
    Item::Token(Want::ValueType, Mark::GlobalType),
    CLOSE,
];

static CONSTANT32: [Item; 2] = [Item::Token(Want::Number, Mark::Word32), CLOSE];

static CONSTANT64: [Item; 2] = [Item::Token(Want::Number, Mark::Word64), CLOSE];

static CONSTANT_GLOBAL: [Item; 2] = [Item::Token(Want::Index, Mark::Uses(Space::Global)), CLOSE];

static FUNCTIONS: [Item; 1] = [Item::Rule(Rule::Functions)];

static LABELS: [Item; 1] = [Item::Rule(Rule::Labels)];

static STRINGS: [Item; 1] = [Item::Rule(Rule::Strings)];

static RESULT_TYPE: [Item; 3] = [
    Item::Token(Want::Word(Keyword::Result), Mark::Nothing),
    Item::Token(Want::ValueType, Mark::BlockResult),
    CLOSE,
];

static ELSE_ARM: [Item; 2] = [
    Item::Rule(Rule::Code),
    Item::Token(Want::Word(Keyword::End), Mark::Instruction(Form::End)),
];

static BLOCK: [Item; 4] = [
    Item::Rule(Rule::Label),
    Item::Rule(Rule::BlockResult),
    Item::Rule(Rule::Code),
    Item::Token(Want::Word(Keyword::End), Mark::Instruction(Form::End)),
];

static IF: [Item; 4] = [
    Item::Rule(Rule::Label),
    Item::Rule(Rule::BlockResult),
    Item::Rule(Rule::Code),
    Item::Rule(Rule::Arms),
];

static USES_LABEL: [Item; 1] = [Item::Token(Want::Index, Mark::Uses(Space::Label))];

static USES_LABELS: [Item; 2] = [
    Item::Token(Want::Index, Mark::Uses(Space::Label)),
    Item::Rule(Rule::Labels),
];

static USES_TYPE: [Item; 4] = [
    OPEN,
    Item::Token(Want::Word(Keyword::Type), Mark::Nothing),
    Item::Token(Want::Index, Mark::Uses(Space::Type)),
    CLOSE,
];

static USES_LOCAL: [Item; 1] = [Item::Token(Want::Index, Mark::Uses(Space::Local))];

static ACCESS: [Item; 2] = [Item::Rule(Rule::Offset), Item::Rule(Rule::Align)];

static WORD32: [Item; 1] = [Item::Token(Want::Number, Mark::Word32)];

static WORD64: [Item; 1] = [Item::Token(Want::Number, Mark::Word64)];

static HEAD_WITH_PARAM: [Item; 1] = [Item::Rule(Rule::Head(true, Part::Param))];

static HEAD_WITH_RESULT: [Item; 1] = [Item::Rule(Rule::Head(true, Part::Result))];

static HEAD_WITH_LOCAL: [Item; 1] = [Item::Rule(Rule::Head(true, Part::Local))];

static HEAD_WITHOUT_PARAM: [Item; 1] = [Item::Rule(Rule::Head(false, Part::Param))];

static HEAD_WITHOUT_RESULT: [Item; 1] = [Item::Rule(Rule::Head(false, Part::Result))];

static HEAD_WITHOUT_LOCAL: [Item; 1] = [Item::Rule(Rule::Head(false, Part::Local))];

static LIST_WITH_PARAM: [Item; 3] = [
    Item::Rule(Rule::Types(Part::Param)),
    CLOSE,
    Item::Rule(Rule::Heads(true, Part::Param)),
];

static LIST_WITH_RESULT: [Item; 3] = [
    Item::Rule(Rule::Types(Part::Result)),
    CLOSE,
    Item::Rule(Rule::Heads(true, Part::Result)),
];

static LIST_WITH_LOCAL: [Item; 3] = [
    Item::Rule(Rule::Types(Part::Local)),
    CLOSE,
    Item::Rule(Rule::Heads(true, Part::Local)),
];

static LIST_WITHOUT_PARAM: [Item; 3] = [
    Item::Rule(Rule::Types(Part::Param)),
    CLOSE,
    Item::Rule(Rule::Heads(false, Part::Param)),
];

static LIST_WITHOUT_RESULT: [Item; 3] = [
    Item::Rule(Rule::Types(Part::Result)),
    CLOSE,
    Item::Rule(Rule::Heads(false, Part::Result)),
];

static LIST_WITHOUT_LOCAL: [Item; 3] = [
    Item::Rule(Rule::Types(Part::Local)),
    CLOSE,
    Item::Rule(Rule::Heads(false, Part::Local)),
];

static MORE_PARAM: [Item; 1] = [Item::Rule(Rule::More(Part::Param))];

static MORE_RESULT: [Item; 1] = [Item::Rule(Rule::More(Part::Result))];

static MORE_LOCAL: [Item; 1] = [Item::Rule(Rule::More(Part::Local))];

static ONE_PARAM: [Item; 1] = [Item::Token(Want::ValueType, Mark::Type(Part::Param))];

static ONE_RESULT: [Item; 1] = [Item::Token(Want::ValueType, Mark::Type(Part::Result))];

static ONE_LOCAL: [Item; 1] = [Item::Token(Want::ValueType, Mark::Type(Part::Local))];

fn head(locals: bool, part: Part) -> &'static [Item]
    ensures { items_of result.now ≡ sequence_of (sequences.Head locals part) }
{
    match (locals, part) {
        (true, Part::Param) => &HEAD_WITH_PARAM,
        (true, Part::Result) => &HEAD_WITH_RESULT,
        (true, Part::Local) => &HEAD_WITH_LOCAL,
        (false, Part::Param) => &HEAD_WITHOUT_PARAM,
        (false, Part::Result) => &HEAD_WITHOUT_RESULT,
        (false, Part::Local) => &HEAD_WITHOUT_LOCAL,
    }
}

fn head_list(locals: bool, part: Part) -> &'static [Item]
    ensures { items_of result.now ≡ sequence_of (sequences.HeadList locals part) }
{
    match (locals, part) {
        (true, Part::Param) => &LIST_WITH_PARAM,
        (true, Part::Result) => &LIST_WITH_RESULT,
        (true, Part::Local) => &LIST_WITH_LOCAL,
        (false, Part::Param) => &LIST_WITHOUT_PARAM,
        (false, Part::Result) => &LIST_WITHOUT_RESULT,
        (false, Part::Local) => &LIST_WITHOUT_LOCAL,
    }
}

fn more_types(part: Part) -> &'static [Item]
    ensures { items_of result.now ≡ sequence_of (sequences.MoreTypes part) }
{
    match part {
        Part::Param => &MORE_PARAM,
        Part::Result => &MORE_RESULT,
        Part::Local => &MORE_LOCAL,
    }
}

fn one_type(part: Part) -> &'static [Item]
    ensures { items_of result.now ≡ sequence_of (sequences.OneType part) }
{
    match part {
        Part::Param => &ONE_PARAM,
        Part::Result => &ONE_RESULT,
        Part::Local => &ONE_LOCAL,
    }
}

/// The items of a sequence, the first first.
pub fn items(sequence: Sequence) -> &'static [Item]
    ensures { items_of result.now ≡ sequence_of sequence }
{
    match sequence {
        Sequence::Empty => &[],
        Sequence::Module => &MODULE,
        Sequence::FieldAndMore => &FIELD_AND_MORE,
        Sequence::TypeField => &TYPE_FIELD,
        Sequence::ImportField => &IMPORT_FIELD,
        Sequence::FuncField => &FUNC_FIELD,
        Sequence::Table => &TABLE,
        Sequence::Memory => &MEMORY,
        Sequence::GlobalField => &GLOBAL_FIELD,
        Sequence::ExportField => &EXPORT_FIELD,
        Sequence::ElemField => &ELEM_FIELD,
        Sequence::DataField => &DATA_FIELD,
        Sequence::DescribedFunc => &DESCRIBED_FUNC,
        Sequence::DescribedGlobal => &DESCRIBED_GLOBAL,
        Sequence::UsesFunc => &USES_FUNC,
        Sequence::UsesTable => &USES_TABLE,
        Sequence::UsesMemory => &USES_MEMORY,
        Sequence::UsesGlobal => &USES_GLOBAL,
        Sequence::Funcref => &FUNCREF,
        Sequence::MutableType => &MUTABLE_TYPE,
        Sequence::Constant32 => &CONSTANT32,
        Sequence::Constant64 => &CONSTANT64,
        Sequence::ConstantGlobal => &CONSTANT_GLOBAL,
        Sequence::Functions => &FUNCTIONS,
        Sequence::Labels => &LABELS,
        Sequence::Strings => &STRINGS,
        Sequence::ResultType => &RESULT_TYPE,
        Sequence::ElseArm => &ELSE_ARM,
        Sequence::Head(locals, part) => head(locals, part),
        Sequence::HeadList(locals, part) => head_list(locals, part),
        Sequence::MoreTypes(part) => more_types(part),
        Sequence::OneType(part) => one_type(part),
    }
}

/// The immediates of an instruction, and those of a block with all up to its end, the first first.
pub fn immediates(form: Form) -> &'static [Item]
    ensures { items_of result.now ≡ immediates (form_of form) }
{
    match form {
        Form::Block | Form::Loop => &BLOCK,
        Form::If => &IF,
        Form::Br | Form::BrIf => &USES_LABEL,
        Form::BrTable => &USES_LABELS,
        Form::Call => &USES_FUNC,
        Form::CallIndirect => &USES_TYPE,
        Form::LocalGet | Form::LocalSet | Form::LocalTee => &USES_LOCAL,
        Form::GlobalGet | Form::GlobalSet => &USES_GLOBAL,
        Form::Load(_) | Form::Store(_) => &ACCESS,
        Form::Const32 => &WORD32,
        Form::Const64 => &WORD64,
        _ => &[],
    }
}
