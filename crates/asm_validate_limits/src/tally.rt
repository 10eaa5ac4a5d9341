// What is counted on the way through a module.

ghost use Rattle.std.specs.Prelude.{◌≡◌, [], ◌∷◌, false, true, nat_le};
ghost use Rattle.sem_words.specs.Lists.{text_bytes};
ghost use Rattle.asm_tree.specs.Views.{module_view};
ghost use Rattle.asm_names.specs.Members.{IsMember};
ghost use Rattle.asm_lang_valid.specs.LimitRows.{a_use, most_foreign_calls};
ghost use Rattle.asm_validate_limits.specs.Passes.{IsOf, Tallied, calls_of, limited};

use crate::calls::ForeignCall;
use crate::numbers::MOST_FOREIGN_CALLS;
use asm_lang_valid::Rule;
use asm_names::Member;
use asm_tree::Module;
use asm_validate_names::AsmRefusal;
use indexmap::IndexSet;
use key_hashes::KeyHashes;
use std::alloc::Global;

/// The calls of foreign functions so far, each once, and the number of the next node.
#[derive(Drop)]
pub struct Tally<'a> {
    pub home: &'a Module,
    pub calls: IndexSet<ForeignCall, KeyHashes>,
    pub at: u64,
}

impl<'a> Tally<'a> {
    /// Before the first node after the module.
    pub fn new(alloc: Global, home: &'a Module, hashes: KeyHashes) -> Tally<'a>
        ensures of { IsOf (module_view home.now) result }
        ensures none { calls_of result ≡ [] }
        ensures first { result.at ≡ 1 }
    {
        Tally {
            home,
            calls: IndexSet::with_hasher(alloc, hashes),
            at: 1,
        }
    }
}

/// What has to hold at a node.
pub fn needs(holds: bool, node: u64) -> Result<(), AsmRefusal>
    ensures { result ≡ limited holds node }
{
    if holds {
        Ok(())
    } else {
        Err(AsmRefusal::Refused {
            rule: Rule::PastLimit,
            node,
        })
    }
}

/// A call of a foreign function at a node.
pub fn use_call<'a>(
    tally: &mut Tally<'a>,
    member: Member<'a>,
    params: u32,
    valued: bool,
    node: u64,
) -> Result<(), AsmRefusal>
    requires of { IsOf (module_view tally.old.home.now) tally.old }
    requires member { IsMember (module_view tally.old.home.now) (text_bytes member.name.now) member.declaration }
    ensures { Tallied (a_use (record { name = text_bytes member.entry.name.now; params = params; result = valued }) node ∷ []) 0 tally.old tally.new result }
{
    let call = ForeignCall {
        declaration: member.declaration,
        params,
        result: valued,
    };
    match tally.calls.insert(call) {
        Ok(is_new) => needs(is_within(is_new, tally.calls.len()), node),
        Err(_) => Err(AsmRefusal::Memory),
    }
}

// Whether there aren't too many calls now, where the last one is new or not.
fn is_within(is_new: bool, count: usize) -> bool
    ensures known { is_new ≡ false → result ≡ true }
    ensures new { is_new ≡ true → result ≡ nat_le count most_foreign_calls }
{
    !is_new || count <= MOST_FOREIGN_CALLS
}
