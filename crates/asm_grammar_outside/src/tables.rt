//! Reading the tables of a module, and what comes after one of its functions.

ghost use Rattle.std.specs.Prelude.{◌≡◌, ◌∷◌, [], ◌++◌, if◌then◌else◌, IfOk, List as Items, OnOk};
ghost use Rattle.sem_words.specs.Lists.{list_items};
ghost use Rattle.asm_lang.specs.Grammar.{texts};
ghost use Rattle.asm_lang.specs.Lexemes.{Lexeme as PlainLexeme};
ghost use Rattle.asm_lang.specs.Trees.{FunctionTree as PlainFunction, Heading as PlainHeading, TableTree as PlainTable, VariableTree as PlainVariable};
ghost use Rattle.asm_lang.specs.Machine.{advance, feed, functions_by, in_tables, stuck, table_of, tables_by};
ghost use Rattle.asm_grammar_nodes.specs.Views.{lexeme_view, lexemes_view, names_view};
ghost use Rattle.asm_grammar_outside.specs.Outside.{functions_step_view, in_members, table_place_view, table_step_view, tables_of};

use asm_grammar_decls::{Ending, NamesReading, NamesStep, end_before, is};
use asm_grammar_nodes::{Class, Lexeme, TableTree};
use sem_words::{List, Text};
use std::alloc::{AllocError, Global};

/// What must come or may come next among the tables.
#[derive(Drop)]
pub enum TablePlace<'a> {
    /// A table or the exports.
    At,
    Name,
    Equals(Lexeme<'a>),
    OpenBracket(Lexeme<'a>),
    FirstMember(Lexeme<'a>),
    /// With the first member.
    Members(Lexeme<'a>, Lexeme<'a>, NamesReading<'a>),
    /// After a table.
    After,
}

/// What one token does among the tables.
#[derive(Drop)]
pub enum TableStep<'a> {
    On(TablePlace<'a>),
    /// The `return` was taken.
    Export,
    Stuck,
}

/// What a token between functions begins.
#[derive(Clone, Copy)]
pub enum FunctionsStep {
    /// The tables.
    Table,
    Function,
    /// The exports.
    Export,
    Stuck,
}

/// Another function, the tables or the exports.
pub fn functions_step(token: &Lexeme<'_>) -> FunctionsStep
    ensures { (h : PlainHeading) (gs : Items PlainVariable) (fs : Items PlainFunction) → functions_step_view result h gs fs (lexeme_view token.now) ≡ functions_by (lexeme_view token.now).class (lexeme_view token.now) h gs fs }
{
    match token.class {
        Class::Var => FunctionsStep::Table,
        Class::Function => FunctionsStep::Function,
        Class::Return => FunctionsStep::Export,
        _ => FunctionsStep::Stuck,
    }
}

fn on_if<'a>(holds: bool, place: TablePlace<'a>) -> TableStep<'a>
    ensures { (h : PlainHeading) (gs : Items PlainVariable) (fs : Items PlainFunction) (ts : Items PlainTable) (t : PlainLexeme) → table_step_view result h gs fs ts t ≡ (if holds then table_place_view place.entry h gs fs ts else stuck t) }
{
    if holds {
        TableStep::On(place)
    } else {
        TableStep::Stuck
    }
}

/// Reads one token among the tables.
pub fn table_step<'a>(
    alloc: Global,
    tables: &mut List<TableTree>,
    place: TablePlace<'a>,
    token: &Lexeme<'a>,
) -> Result<TableStep<'a>, AllocError>
    ensures { IfOk result (λ r. (h : PlainHeading) (gs : Items PlainVariable) (fs : Items PlainFunction) → table_step_view r h gs fs (tables_of tables.new) (lexeme_view token.now) ≡ advance (table_place_view place.entry h gs fs (tables_of tables.old)) (lexeme_view token.now)) }
{
    match place {
        TablePlace::At => Ok(at_tables(token)),
        TablePlace::Name => Ok(on_if(is(token, Class::Identifier), TablePlace::Equals(*token))),
        TablePlace::Equals(name) => Ok(on_if(
            is(token, Class::Equals),
            TablePlace::OpenBracket(name),
        )),
        TablePlace::OpenBracket(name) => Ok(on_if(
            is(token, Class::OpenBracket),
            TablePlace::FirstMember(name),
        )),
        TablePlace::FirstMember(name) => {
            let members = NamesReading::After(Vec::new(alloc));
            let place = TablePlace::Members(name, *token, members);
            Ok(on_if(is(token, Class::Identifier), place))
        }
        TablePlace::Members(name, first, members) => {
            in_members(alloc, tables, name, first, members, token)
        }
        TablePlace::After => Ok(after_table(token)),
    }
}

/// A table or the exports.
fn at_tables<'a>(token: &Lexeme<'a>) -> TableStep<'a>
    ensures { (h : PlainHeading) (gs : Items PlainVariable) (fs : Items PlainFunction) (ts : Items PlainTable) → table_step_view result h gs fs ts (lexeme_view token.now) ≡ tables_by (lexeme_view token.now).class (lexeme_view token.now) h gs fs ts }
{
    match token.class {
        Class::Var => TableStep::On(TablePlace::Name),
        Class::Return => TableStep::Export,
        _ => TableStep::Stuck,
    }
}

fn after_table<'a>(token: &Lexeme<'a>) -> TableStep<'a>
    ensures { (h : PlainHeading) (gs : Items PlainVariable) (fs : Items PlainFunction) (ts : Items PlainTable) → table_step_view result h gs fs ts (lexeme_view token.now) ≡ feed (in_tables h gs fs ts) (lexeme_view token.now) }
{
    match token.class {
        Class::Comma => TableStep::On(TablePlace::Name),
        _ => match end_before(token) {
            Ending::Written => TableStep::On(TablePlace::At),
            Ending::Missing => at_tables(token),
            Ending::Wrong => TableStep::Stuck,
        },
    }
}

/// The names with one more at their end.
#[tactic(auto, using(crate::proofs::Pushes::members))]
fn with_name(alloc: Global, names: List<Text>, name: &Lexeme<'_>) -> Result<List<Text>, AllocError>
    ensures { IfOk result (λ r. names_view (list_items r) ≡ names_view (list_items names) ++ (lexeme_view name.now).text ∷ []) }
{
    let mut names = names;
    let text = Text::from_bytes(alloc, name.text)?;
    match names.push(text) {
        Ok(()) => Ok(names),
        Err(_) => Err(AllocError),
    }
}

/// The texts of names.
#[tactic(auto, using(crate::proofs::Pushes::members))]
fn members(
    alloc: Global,
    first: &Lexeme<'_>,
    others: &[Lexeme<'_>],
) -> Result<List<Text>, AllocError>
    ensures { IfOk result (λ r. names_view (list_items r) ≡ (lexeme_view first.now).text ∷ texts (lexemes_view others.now)) }
{
    let mut members = with_name(alloc, List::new(alloc), first)?;
    for name in others {
        members = with_name(alloc, members, name)?;
    }
    Ok(members)
}

/// Puts one table more at the end.
#[tactic(auto, using(crate::proofs::Pushes::tables))]
fn add(
    alloc: Global,
    tables: &mut List<TableTree>,
    name: &Lexeme<'_>,
    first: &Lexeme<'_>,
    others: &[Lexeme<'_>],
) -> Result<(), AllocError>
    ensures { OnOk result (tables_of tables.new ≡ tables_of tables.old ++ table_of (lexeme_view name.now) ((lexeme_view first.now).text ∷ texts (lexemes_view others.now)) ∷ []) }
{
    let table = TableTree {
        at: name.at,
        name: Text::from_bytes(alloc, name.text)?,
        members: members(alloc, first, others)?,
    };
    match tables.push(table) {
        Ok(()) => Ok(()),
        Err(_) => Err(AllocError),
    }
}

fn in_members<'a>(
    alloc: Global,
    tables: &mut List<TableTree>,
    name: Lexeme<'a>,
    first: Lexeme<'a>,
    members: NamesReading<'a>,
    token: &Lexeme<'a>,
) -> Result<TableStep<'a>, AllocError>
    ensures { IfOk result (λ r. (h : PlainHeading) (gs : Items PlainVariable) (fs : Items PlainFunction) → table_step_view r h gs fs (tables_of tables.new) (lexeme_view token.now) ≡ advance (in_members (lexeme_view name.entry) (lexeme_view first.entry) members.entry h gs fs (tables_of tables.old)) (lexeme_view token.now)) }
{
    match members.feed(token, Class::CloseBracket)? {
        NamesStep::On(members) => {
            let place = TablePlace::Members(name, first, members);
            Ok(TableStep::On(place))
        }
        NamesStep::Done(others) => {
            add(alloc, tables, &name, &first, &others)?;
            Ok(TableStep::On(TablePlace::After))
        }
        NamesStep::Stuck => Ok(TableStep::Stuck),
    }
}
