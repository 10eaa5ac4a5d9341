// The numbers of the calls of foreign functions.
ghost use Rattle.std.specs.Prelude.{◌≡◌, ◌<◌, ◌^◌, ℕ, IfOk, length, if◌then◌else◌};
ghost use Rattle.asm2wasm_numbers.specs.Calls.{call_found, key_of, place_among, same_call, IsCounted};

use asm_validate::ForeignCall;
use indexmap::IndexMap;
use key_hashes::KeyHashes;
use std::alloc::{AllocError, Global};
use std::marker::Model;

/// A call of a foreign function.
#[derive(Clone, Copy, PartialEq, Eq, Hash)]
pub struct Call {
    /// The number of the first global declaration that imports the function.
    pub declaration: usize,
    pub params: usize,
    pub result: bool,
}

/// Calls of foreign functions in order, each found by a map. Of equal ones the first counts.
#[derive(Drop)]
pub struct CallNumbers<'a> {
    calls: &'a [ForeignCall],
    numbers: IndexMap<Call, usize, KeyHashes>,
}

impl<'a> Model for CallNumbers<'a> {
    ghost use Rattle.std.specs.Prelude.{List};
    ghost use Rattle.asm_validate_limits.specs.declared.calls.ForeignCall.{ForeignCall};
    ghost use Rattle.asm2wasm_numbers.specs.Calls.{IsCounted};

    ghost Value = { List ForeignCall };

    ghost view = { λ c. c.calls.now };

    ghost invariant = { λ c. IsCounted c.calls.now c.numbers };
}

impl<'a> CallNumbers<'a> {
    /// The numbers of these calls, in a map with these hashers.
    pub fn new(
        alloc: Global,
        calls: &'a [ForeignCall],
        hashes: KeyHashes,
    ) -> Result<CallNumbers<'a>, AllocError>
        ensures { IfOk result (λ numbers. numbers ≡ calls.now) }
    {
        let mut numbers = IndexMap::with_capacity_and_hasher(alloc, calls.len(), hashes)?;
        put_calls(&mut numbers, calls)?;
        Ok(CallNumbers { calls, numbers })
    }

    /// How many calls there are.
    pub fn len(&self) -> usize
        ensures count { result ≡ length self.now }
        ensures small { result < 2 ^ 63 }
    {
        self.calls.len()
    }

    /// The number of a call, or how many there are where it isn't one of these.
    pub fn number(&self, call: Call) -> usize
        ensures { result ≡ place_among call self.now }
    {
        match self.numbers.get(&call) {
            Some(number) => *number,
            None => self.calls.len(),
        }
    }
}

// Later calls are put in first, so that an earlier one takes their place.
fn put_calls(
    numbers: &mut IndexMap<Call, usize, KeyHashes>,
    calls: &[ForeignCall],
) -> Result<(), AllocError>
    ensures { IfOk result (λ _. (c : Call) → call_found numbers.old c (length calls.now) ≡ length calls.now → call_found numbers.new c (length calls.now) ≡ place_among c calls.now) }
{
    let mut i = calls.len();
    while i > 0 {
        i -= 1;
        let call = &calls[i];
        put(numbers, call, i)?;
    }
    Ok(())
}

fn put(
    numbers: &mut IndexMap<Call, usize, KeyHashes>,
    call: &ForeignCall,
    number: usize,
) -> Result<(), AllocError>
    ensures { IfOk result (λ _. (c : Call) (o : ℕ) → call_found numbers.new c o ≡ (if same_call c (key_of call.now) then number else call_found numbers.old c o)) }
{
    let key = Call {
        declaration: call.declaration,
        params: call.params as usize,
        result: call.result,
    };
    numbers.insert(key, number)?;
    Ok(())
}
