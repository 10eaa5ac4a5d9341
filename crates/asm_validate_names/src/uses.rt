// Uses of names, each such as its place needs or not.

ghost use Rattle.std.specs.Prelude.{◌≡◌};
ghost use Rattle.sem_words.specs.Lists.{text_bytes};
ghost use Rattle.asm_lang_valid.specs.Rows.{first, need};
ghost use Rattle.asm_lang_valid.specs.Typing.{named};
ghost use Rattle.asm_lang_valid.specs.NameRows as rows;
ghost use Rattle.asm_names.specs.Meanings.{meaning_view};
ghost use Rattle.asm_names.specs.Scopes.{scope_view, IsCompleteScope};
ghost use Rattle.asm_validate_names.specs.Found.{row_of};

use asm_lang_valid::{Met, Rule};
use asm_names::{Meaning, Scope};
use sem_words::Text;

/// A name that is used at a node and has this meaning, which fits or doesn't.
pub fn uses(meaning: Option<Meaning<'_>>, fits: bool, node: u64) -> Result<(), Met>
    ensures { first (rows.uses (meaning_view meaning.entry) fits node) ≡ row_of result }
{
    match meaning {
        None => Err(Met {
            rule: Rule::UnknownName,
            node,
        }),
        Some(_) => needs(fits, Rule::WrongKind, node),
    }
}

/// What has to hold at a node.
pub fn needs(holds: bool, rule: Rule, node: u64) -> Result<(), Met>
    ensures { first (need holds rule node) ≡ row_of result }
{
    if holds {
        Ok(())
    } else {
        Err(Met { rule, node })
    }
}

fn is_variable(meaning: Option<Meaning<'_>>) -> bool
    ensures { result ≡ rows.as_variable (meaning_view meaning.entry) }
{
    matches!(meaning, Some(Meaning::Int | Meaning::Outside))
}

fn is_view(meaning: Option<Meaning<'_>>) -> bool
    ensures { result ≡ rows.as_view (meaning_view meaning.entry) }
{
    matches!(meaning, Some(Meaning::View(_) | Meaning::Outside))
}

fn is_callee(meaning: Option<Meaning<'_>>) -> bool
    ensures { result ≡ rows.as_callee (meaning_view meaning.entry) }
{
    matches!(
        meaning,
        Some(Meaning::Function(_) | Meaning::Foreign(_) | Meaning::Builtin(_) | Meaning::Outside)
    )
}

fn is_table(meaning: Option<Meaning<'_>>) -> bool
    ensures { result ≡ rows.as_table (meaning_view meaning.entry) }
{
    matches!(meaning, Some(Meaning::Table(_) | Meaning::Outside))
}

/// A use as a variable.
pub fn use_variable(scope: &Scope<'_, '_>, name: &Text, node: u64) -> Result<(), Met>
    requires { IsCompleteScope scope.now }
    ensures { first (rows.uses (named (scope_view scope.now) (text_bytes name.now)) (rows.as_variable (named (scope_view scope.now) (text_bytes name.now))) node) ≡ row_of result }
{
    let meaning = scope.meaning(name.as_bytes());
    uses(meaning, is_variable(meaning), node)
}

/// .. as a view.
pub fn use_view(scope: &Scope<'_, '_>, name: &Text, node: u64) -> Result<(), Met>
    requires { IsCompleteScope scope.now }
    ensures { first (rows.uses (named (scope_view scope.now) (text_bytes name.now)) (rows.as_view (named (scope_view scope.now) (text_bytes name.now))) node) ≡ row_of result }
{
    let meaning = scope.meaning(name.as_bytes());
    uses(meaning, is_view(meaning), node)
}

/// .. as what is called.
pub fn use_callee(scope: &Scope<'_, '_>, name: &Text, node: u64) -> Result<(), Met>
    requires { IsCompleteScope scope.now }
    ensures { first (rows.uses (named (scope_view scope.now) (text_bytes name.now)) (rows.as_callee (named (scope_view scope.now) (text_bytes name.now))) node) ≡ row_of result }
{
    let meaning = scope.meaning(name.as_bytes());
    uses(meaning, is_callee(meaning), node)
}

/// .. as a table.
pub fn use_table(scope: &Scope<'_, '_>, name: &Text, node: u64) -> Result<(), Met>
    requires { IsCompleteScope scope.now }
    ensures { first (rows.uses (named (scope_view scope.now) (text_bytes name.now)) (rows.as_table (named (scope_view scope.now) (text_bytes name.now))) node) ≡ row_of result }
{
    let meaning = scope.meaning(name.as_bytes());
    uses(meaning, is_table(meaning), node)
}
