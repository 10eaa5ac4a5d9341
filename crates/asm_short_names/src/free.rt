//! The numbers of the first names that are free.

ghost use Rattle.std.specs.Prelude.{◌≡◌, ◌+◌, ◌-◌, ◌<◌, ◌^◌, ℕ, List, IfOk, length, map};
ghost use Rattle.asm_lang_valid.specs.Scope.{is_in};
ghost use Rattle.asm_short_lang.specs.Sequence.{numbered, free_from, first_names};
ghost use Rattle.asm_short_names.specs.Excluding.{IsExactly, all_taken};

use crate::excluding::Excluded;
use crate::forbidden::is_forbidden;
use std::alloc::{AllocError, Global};

fn is_taken(excluded: Excluded<'_>, number: u64) -> bool
    ensures { (names : List (List ℕ)) → IsExactly names excluded.entry → result ≡ is_in (numbered number) (all_taken names) }
{
    is_forbidden(number) || excluded.has(number)
}

// The first number from this one on whose name may be given. Where no number of 64 bits is left, a list of those before has
// no room in memory.
fn first_free(excluded: Excluded<'_>, start: u64) -> Result<u64, AllocError>
    ensures found { IfOk result (λ n. (names : List (List ℕ)) → IsExactly names excluded.entry → n ≡ free_from (all_taken names) (length (all_taken names)) start) }
    ensures small { IfOk result (λ n. n < 2 ^ 64 - 1) }
{
    for number in start..u64::MAX {
        if !is_taken(excluded, number) {
            return Ok(number);
        }
    }
    Err(AllocError)
}

/// The numbers of the first names of the sequence that aren't left out, so many.
pub fn first_numbers(
    alloc: Global,
    excluded: Excluded<'_>,
    count: usize,
) -> Result<Vec<u64>, AllocError>
    ensures { IfOk result (λ ns. (names : List (List ℕ)) → IsExactly names excluded.entry → map numbered ns.items ≡ first_names names count) }
{
    let mut numbers = Vec::with_capacity(alloc, count)?;
    let mut next = 0;
    for i in 0..count {
        let number = first_free(excluded, next)?;
        numbers.push(number)?;
        next = number + 1;
    }
    Ok(numbers)
}
