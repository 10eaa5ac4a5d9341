//! The table of rules.

ghost use Rattle.std.specs.Prelude.{[], ◌∷◌, ◌≡◌, false, map, option_map};
ghost use Rattle.wat_lang.specs.declared.parts.Rule.TheVariants as rules;
ghost use Rattle.wat_lang.specs.Grammar.{begins_instruction, head_rows, instruction_rows, may_end, rows};
ghost use Rattle.wat_lang.specs.Words.{instruction_names};
ghost use Rattle.wat_grammar.specs.Views.{class_of, code_behind, form_of, is_code, next_in, next_of, row_of, rows_of};

use crate::form::Form;
use crate::keyword::Keyword;
use crate::names::form_named;
use crate::parts::{Lexeme, Mark, Next, Row, Want, meets};
use crate::sequences::Sequence;
use wat_lang::{FieldKind, Part, Rule, Space};

/// The rows of a rule.
#[derive(Clone, Copy)]
pub enum Rows {
    One(Row),
    Table(&'static [Row]),
}

static FIELDS: [Row; 10] = [
    Row {
        want: Want::Word(Keyword::Type),
        mark: Mark::Field(FieldKind::Type),
        next: Sequence::TypeField,
    },
    Row {
        want: Want::Word(Keyword::Import),
        mark: Mark::Field(FieldKind::Import),
        next: Sequence::ImportField,
    },
    Row {
        want: Want::Word(Keyword::Func),
        mark: Mark::Field(FieldKind::Func),
        next: Sequence::FuncField,
    },
    Row {
        want: Want::Word(Keyword::Table),
        mark: Mark::Field(FieldKind::Table),
        next: Sequence::Table,
    },
    Row {
        want: Want::Word(Keyword::Memory),
        mark: Mark::Field(FieldKind::Memory),
        next: Sequence::Memory,
    },
    Row {
        want: Want::Word(Keyword::Global),
        mark: Mark::Field(FieldKind::Global),
        next: Sequence::GlobalField,
    },
    Row {
        want: Want::Word(Keyword::Export),
        mark: Mark::Field(FieldKind::Export),
        next: Sequence::ExportField,
    },
    Row {
        want: Want::Word(Keyword::Start),
        mark: Mark::Field(FieldKind::Start),
        next: Sequence::UsesFunc,
    },
    Row {
        want: Want::Word(Keyword::Elem),
        mark: Mark::Field(FieldKind::Elem),
        next: Sequence::ElemField,
    },
    Row {
        want: Want::Word(Keyword::Data),
        mark: Mark::Field(FieldKind::Data),
        next: Sequence::DataField,
    },
];

static DESCRIBED: [Row; 4] = [
    Row {
        want: Want::Word(Keyword::Func),
        mark: Mark::Described(Space::Func),
        next: Sequence::DescribedFunc,
    },
    Row {
        want: Want::Word(Keyword::Table),
        mark: Mark::Described(Space::Table),
        next: Sequence::Table,
    },
    Row {
        want: Want::Word(Keyword::Memory),
        mark: Mark::Described(Space::Memory),
        next: Sequence::Memory,
    },
    Row {
        want: Want::Word(Keyword::Global),
        mark: Mark::Described(Space::Global),
        next: Sequence::DescribedGlobal,
    },
];

static EXPORTED: [Row; 4] = [
    Row {
        want: Want::Word(Keyword::Func),
        mark: Mark::Exported(Space::Func),
        next: Sequence::UsesFunc,
    },
    Row {
        want: Want::Word(Keyword::Table),
        mark: Mark::Exported(Space::Table),
        next: Sequence::UsesTable,
    },
    Row {
        want: Want::Word(Keyword::Memory),
        mark: Mark::Exported(Space::Memory),
        next: Sequence::UsesMemory,
    },
    Row {
        want: Want::Word(Keyword::Global),
        mark: Mark::Exported(Space::Global),
        next: Sequence::UsesGlobal,
    },
];

static HEAD_WITH_LOCALS: [Row; 3] = [
    Row {
        want: Want::Word(Keyword::Param),
        mark: Mark::Nothing,
        next: Sequence::HeadList(true, Part::Param),
    },
    Row {
        want: Want::Word(Keyword::Result),
        mark: Mark::Nothing,
        next: Sequence::HeadList(true, Part::Result),
    },
    Row {
        want: Want::Word(Keyword::Local),
        mark: Mark::Nothing,
        next: Sequence::HeadList(true, Part::Local),
    },
];

static RESULTS_WITH_LOCALS: [Row; 2] = [
    Row {
        want: Want::Word(Keyword::Result),
        mark: Mark::Nothing,
        next: Sequence::HeadList(true, Part::Result),
    },
    Row {
        want: Want::Word(Keyword::Local),
        mark: Mark::Nothing,
        next: Sequence::HeadList(true, Part::Local),
    },
];

static HEAD: [Row; 2] = [
    Row {
        want: Want::Word(Keyword::Param),
        mark: Mark::Nothing,
        next: Sequence::HeadList(false, Part::Param),
    },
    Row {
        want: Want::Word(Keyword::Result),
        mark: Mark::Nothing,
        next: Sequence::HeadList(false, Part::Result),
    },
];

static PARAM_TYPES: [Row; 2] = [
    Row {
        want: Want::ValueType,
        mark: Mark::Type(Part::Param),
        next: Sequence::MoreTypes(Part::Param),
    },
    Row {
        want: Want::Id,
        mark: Mark::Binds(Space::Local),
        next: Sequence::OneType(Part::Param),
    },
];

static LOCAL_TYPES: [Row; 2] = [
    Row {
        want: Want::ValueType,
        mark: Mark::Type(Part::Local),
        next: Sequence::MoreTypes(Part::Local),
    },
    Row {
        want: Want::Id,
        mark: Mark::Binds(Space::Local),
        next: Sequence::OneType(Part::Local),
    },
];

static TABLE_END: [Row; 2] = [
    Row {
        want: Want::Number,
        mark: Mark::Maximum,
        next: Sequence::Funcref,
    },
    Row {
        want: Want::Word(Keyword::Funcref),
        mark: Mark::Nothing,
        next: Sequence::Empty,
    },
];

static KIND: [Row; 2] = [
    Row {
        want: Want::ValueType,
        mark: Mark::GlobalType,
        next: Sequence::Empty,
    },
    Row {
        want: Want::Open,
        mark: Mark::Nothing,
        next: Sequence::MutableType,
    },
];

static CONSTANT: [Row; 3] = [
    Row {
        want: Want::Word(Keyword::Const32),
        mark: Mark::Instruction(Form::Const32),
        next: Sequence::Constant32,
    },
    Row {
        want: Want::Word(Keyword::Const64),
        mark: Mark::Instruction(Form::Const64),
        next: Sequence::Constant64,
    },
    Row {
        want: Want::Word(Keyword::GlobalGet),
        mark: Mark::Instruction(Form::GlobalGet),
        next: Sequence::ConstantGlobal,
    },
];

static ARMS: [Row; 2] = [
    Row {
        want: Want::Word(Keyword::Else),
        mark: Mark::Instruction(Form::Else),
        next: Sequence::ElseArm,
    },
    Row {
        want: Want::Word(Keyword::End),
        mark: Mark::Instruction(Form::End),
        next: Sequence::Empty,
    },
];

fn one(want: Want, mark: Mark, next: Sequence) -> Rows
    ensures { rows_of result ≡ row_of (record { want = want; mark = mark; next = next }) ∷ [] }
{
    Rows::One(Row { want, mark, next })
}

fn head_rows(locals: bool, part: Part) -> Rows
    ensures { rows_of result ≡ head_rows locals part }
{
    match (locals, part) {
        (true, Part::Param) => Rows::Table(&HEAD_WITH_LOCALS),
        (true, Part::Result) => Rows::Table(&RESULTS_WITH_LOCALS),
        (true, Part::Local) => {
            one(
                Want::Word(Keyword::Local),
                Mark::Nothing,
                Sequence::HeadList(true, Part::Local),
            )
        }
        (false, Part::Param) => Rows::Table(&HEAD),
        (false, Part::Result) => {
            one(
                Want::Word(Keyword::Result),
                Mark::Nothing,
                Sequence::HeadList(false, Part::Result),
            )
        }
        (false, Part::Local) => Rows::Table(&[]),
    }
}

#[tactic(auto, unfolding(wat_lang::specs::Grammar::rows))]
fn type_rows(part: Part) -> Rows
    ensures { rows_of result ≡ rows (rules.Types part) }
{
    match part {
        Part::Param => Rows::Table(&PARAM_TYPES),
        Part::Result => {
            one(
                Want::ValueType,
                Mark::Type(Part::Result),
                Sequence::MoreTypes(Part::Result),
            )
        }
        Part::Local => Rows::Table(&LOCAL_TYPES),
    }
}

/// What a rule other than code may begin with.
#[tactic(auto, unfolding(wat_lang::specs::Grammar::rows))]
fn table(rule: Rule) -> Rows
    requires { is_code rule ≡ false }
    ensures { rows_of result ≡ rows rule }
{
    match rule {
        Rule::Grammar => one(Want::Open, Mark::Nothing, Sequence::Module),
        Rule::Name => one(Want::Id, Mark::Nothing, Sequence::Empty),
        Rule::Bound(space) => one(Want::Id, Mark::Binds(space), Sequence::Empty),
        Rule::Fields => one(Want::Open, Mark::Nothing, Sequence::FieldAndMore),
        Rule::Field => Rows::Table(&FIELDS),
        Rule::Described => Rows::Table(&DESCRIBED),
        Rule::Exported => Rows::Table(&EXPORTED),
        Rule::Heads(locals, part) => one(Want::Open, Mark::Nothing, Sequence::Head(locals, part)),
        Rule::Head(locals, part) => head_rows(locals, part),
        Rule::Types(part) => type_rows(part),
        Rule::More(part) => one(Want::ValueType, Mark::Type(part), Sequence::MoreTypes(part)),
        Rule::TableEnd => Rows::Table(&TABLE_END),
        Rule::Maximum => one(Want::Number, Mark::Maximum, Sequence::Empty),
        Rule::Kind => Rows::Table(&KIND),
        Rule::Constant => Rows::Table(&CONSTANT),
        Rule::Functions => one(Want::Index, Mark::Uses(Space::Func), Sequence::Functions),
        Rule::Labels => one(Want::Index, Mark::Uses(Space::Label), Sequence::Labels),
        Rule::Strings => one(Want::Text, Mark::Bytes, Sequence::Strings),
        Rule::FuncWord => one(Want::Word(Keyword::Func), Mark::Nothing, Sequence::Empty),
        Rule::Code => Rows::Table(&[]),
        Rule::Label => one(Want::Id, Mark::Binds(Space::Label), Sequence::Empty),
        Rule::BlockResult => one(Want::Open, Mark::Nothing, Sequence::ResultType),
        Rule::Arms => Rows::Table(&ARMS),
        Rule::Offset => one(Want::Offset, Mark::Offset, Sequence::Empty),
        Rule::Align => one(Want::Align, Mark::Alignment, Sequence::Empty),
    }
}

/// The next of the row, where the token begins it.
fn begun(row: Row, lexeme: Lexeme<'_>) -> Option<Next>
    ensures { option_map next_of result ≡ next_in (row_of row ∷ []) (class_of lexeme.entry) }
{
    if meets(row.want, lexeme) {
        Some(Next {
            mark: row.mark,
            items: row.next,
        })
    } else {
        None
    }
}

fn row_that_begins(rows: &[Row], lexeme: Lexeme<'_>) -> Option<Next>
    ensures { option_map next_of result ≡ next_in (map row_of rows.now) (class_of lexeme.entry) }
{
    for row in rows {
        if meets(row.want, lexeme) {
            return Some(Next {
                mark: row.mark,
                items: row.next,
            });
        }
    }
    None
}

/// The mark of a token that begins a rule other than code, and what follows it.
pub fn pick(rule: Rule, lexeme: Lexeme<'_>) -> Option<Next>
    requires { is_code rule ≡ false }
    ensures { option_map next_of result ≡ next_in (rows rule) (class_of lexeme.entry) }
{
    match table(rule) {
        Rows::One(row) => begun(row, lexeme),
        Rows::Table(rows) => row_that_begins(rows, lexeme),
    }
}

pub fn is_code(rule: Rule) -> bool
    ensures { result ≡ is_code rule }
{
    matches!(rule, Rule::Code)
}

/// Whether an instruction of the form may begin, where code stands.
fn begins_instruction(form: Form) -> bool
    ensures { result ≡ begins_instruction (form_of form) }
{
    !matches!(form, Form::Else | Form::End)
}

/// The instruction that a token begins: its row is found by its name.
#[tactic(auto, using(crate::proofs::Rows::named_row, crate::proofs::Rows::none_opens, crate::proofs::Rows::none_closes, crate::proofs::Rows::none_text))]
#[inline(always)]
pub fn instruction(lexeme: Lexeme<'_>) -> Option<Form>
    ensures { option_map code_behind result ≡ next_in (instruction_rows instruction_names) (class_of lexeme.entry) }
{
    let Lexeme::Atom(word) = lexeme else {
        return None;
    };
    let form = form_named(word)?;
    if begins_instruction(form) {
        Some(form)
    } else {
        None
    }
}

/// Whether a rule may stand for no token.
#[tactic(auto, unfolding(wat_lang::specs::Grammar::may_end))]
pub fn may_end(rule: Rule) -> bool
    ensures { result ≡ may_end rule }
{
    !matches!(
        rule,
        Rule::Grammar
            | Rule::Field
            | Rule::Described
            | Rule::Exported
            | Rule::Head(_, _)
            | Rule::TableEnd
            | Rule::Kind
            | Rule::Constant
            | Rule::Arms
    )
}
