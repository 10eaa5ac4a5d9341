// The rows of tables.

ghost use Rattle.std.specs.Prelude.{◌≡◌, ◌+◌, ◌<◌, ◌^◌, length, map};
ghost use Rattle.asm_tree.specs.Views.{module_view, table_view, texts_view};
ghost use Rattle.asm_lang_valid.specs.Rows.{first};
ghost use Rattle.asm_lang_valid.specs.Typed as typed;
ghost use Rattle.asm_lang_valid.specs.TypeRows as rows;
ghost use Rattle.asm_names.specs.Environments.{IsComplete};
ghost use Rattle.asm_validate_exprs.specs.Found.{row_of};
ghost use Rattle.asm_validate_exprs.specs.Signatures.{signature_option};

use asm_lang_valid::{Met, Rule};
use asm_names::Environment;
use asm_tree::Table;
use asm_validate_exprs::{Signature, function_signature, needs};
use sem_words::Text;

fn is_power_of_two(n: usize) -> bool
    ensures { result ≡ typed.is_power_of_two n }
{
    if n == 0 {
        return false;
    }
    n & (n - 1) == 0
}

fn same_signature(a: Option<Signature>, b: Option<Signature>) -> bool
    ensures { result ≡ typed.same_signature (signature_option a) (signature_option b) }
{
    match (a, b) {
        (Some(a), Some(b)) => a.params == b.params && a.result == b.result,
        (None, _) => false,
        (Some(_), None) => false,
    }
}

fn all_alike(environment: &Environment<'_>, signature: Option<Signature>, members: &[Text]) -> bool
    requires { IsComplete environment.now }
    ensures { result ≡ typed.all_alike (module_view environment.now.home.now) (signature_option signature) (texts_view members.now) }
{
    for member in members {
        let other = function_signature(environment.meaning(member.as_bytes()));
        if !same_signature(signature, other) {
            return false;
        }
    }
    true
}

fn alike(environment: &Environment<'_>, members: &[Text]) -> bool
    requires { IsComplete environment.now }
    ensures { result ≡ typed.alike (module_view environment.now.home.now) (texts_view members.now) }
{
    if members.is_empty() {
        return true;
    }
    let first = function_signature(environment.meaning(members[0].as_bytes()));
    all_alike(environment, first, members)
}

fn table_typed(environment: &Environment<'_>, table: &Table) -> bool
    requires { IsComplete environment.now }
    ensures { result ≡ typed.table_typed (module_view environment.now.home.now) (table_view table.now) }
{
    is_power_of_two(table.members.len()) && alike(environment, table.members.as_slice())
}

/// The first row of tables, of which the first is node `at`.
#[tactic(auto, using(asm_validate_exprs::proofs::Sequences::sequences))]
pub fn tables_typed(environment: &Environment<'_>, tables: &[Table], at: u64) -> Result<(), Met>
    requires complete { IsComplete environment.now }
    requires room { at + length tables.now < 2 ^ 64 }
    ensures { first (rows.tables_rows (module_view environment.now.home.now) at (map table_view tables.now)) ≡ row_of result }
{
    let mut node = at;
    for table in tables {
        needs(table_typed(environment, table), Rule::TableSize, node)?;
        node += 1;
    }
    Ok(())
}
