// The names that were declared so far.

ghost use Rattle.std.specs.Prelude.{◌≡◌, ◌++◌, ◌∷◌, [], None, true, not, IfOk, MatchResult};
ghost use Rattle.sem_words.specs.Lists.{text_bytes};
ghost use Rattle.asm_lang_valid.specs.Rows.{first};
ghost use Rattle.asm_lang_valid.specs.Scope.{is_in};
ghost use Rattle.asm_lang_valid.specs.NameRows as rows;
ghost use Rattle.asm_validate_names.specs.Found.{row_of};
ghost use Rattle.asm_validate_names.specs.Refusals.{IsRow};
ghost use Rattle.asm_validate_names.specs.Seen.{names, declared_rows};

use crate::refusal::AsmRefusal;
use crate::uses::needs;
use crate::words::{is_forbidden, is_forbidden_key};
use asm_lang_valid::{Met, Rule};
use indexmap::IndexSet;
use key_hashes::KeyHashes;
use sem_words::Text;
use std::alloc::AllocError;

/// Adds a name, and says whether it is new.
#[tactic(auto)]
pub fn add<'a>(seen: &mut IndexSet<&'a [u8], KeyHashes>, name: &'a Text) -> Result<bool, AllocError>
    ensures is_new { IfOk result (λ b. b ≡ not (is_in (text_bytes name.now) (names seen.old))) }
    ensures added { IfOk result (λ _. names seen.new ≡ rows.added (names seen.old) (text_bytes name.now)) }
{
    let is_new = seen.insert(name.as_bytes())?;
    Ok(is_new)
}

/// A name that is declared at a node, after those that were seen.
pub fn declare<'a>(
    seen: &mut IndexSet<&'a [u8], KeyHashes>,
    name: &'a Text,
    node: u64,
) -> Result<(), AsmRefusal>
    ensures row { MatchResult result (λ _. first (rows.declares (names seen.old) (text_bytes name.now) node) ≡ None) (IsRow (rows.declares (names seen.old) (text_bytes name.now) node)) }
    ensures seen { IfOk result (λ _. names seen.new ≡ names seen.old ++ text_bytes name.now ∷ []) }
{
    let is_new = add(seen, name)?;
    let forbidden = is_forbidden(name.as_bytes());
    declared(is_new, forbidden, node)?;
    Ok(())
}

/// The key of an export at a node, after those that were seen.
pub fn declare_key<'a>(
    seen: &mut IndexSet<&'a [u8], KeyHashes>,
    key: &'a Text,
    node: u64,
) -> Result<(), AsmRefusal>
    ensures row { MatchResult result (λ _. first (rows.declares_key (names seen.old) (text_bytes key.now) node) ≡ None) (IsRow (rows.declares_key (names seen.old) (text_bytes key.now) node)) }
    ensures seen { IfOk result (λ _. names seen.new ≡ names seen.old ++ text_bytes key.now ∷ []) }
{
    let is_new = add(seen, key)?;
    let forbidden = is_forbidden_key(key.as_bytes());
    declared(is_new, forbidden, node)?;
    Ok(())
}

// A name that is new or not, and forbidden or not.
pub fn declared(is_new: bool, forbidden: bool, node: u64) -> Result<(), Met>
    ensures row { first (declared_rows is_new forbidden node) ≡ row_of result }
    ensures is_new { IfOk result (λ _. is_new ≡ true) }
{
    if !is_new {
        return Err(Met {
            rule: Rule::NameTaken,
            node,
        });
    }
    needs(!forbidden, Rule::ForbiddenName, node)
}
