//! The numbers that words write.

ghost use Rattle.std.specs.Prelude.{◌≡◌, ◌^◌, nat_lt, option_map};
ghost use Rattle.bridge_lang.specs.Number as spec;
ghost use Rattle.bridge_lang.specs.Number.{kept, number_of};
ghost use Rattle.bridge_lang.specs.Words.{heap_of, steps_of};
ghost use Rattle.bridge_args.specs.Answer.{given_texts};

use crate::command::Given;
use crate::functions::FunctionCount;
use crate::heap::HeapLength;

// bytes
const ABSENT_HEAP: u32 = 65536;

const ABSENT_STEPS: u32 = 1_000_000;

const SMALL_HEAPS: [u32; 12] = [
    4096, 8192, 16384, 32768, 65536, 131072, 262144, 524288, 1048576, 2097152, 4194304, 8388608,
];

/// The number that the text writes: `0`, or digits of which the first is not 0.
#[tactic(auto, using(crate::proofs::NumberLemmas::number_lemmas))]
fn number(text: &str) -> Option<u32>
    ensures { result ≡ kept (λ n. nat_lt n (2 ^ 32)) (number_of text.now) }
{
    let bytes = text.as_bytes();
    if bytes.is_empty() {
        return None;
    }
    match bytes[0] {
        b'0' if bytes.len() == 1 => Some(0),
        b'0' | b'+' => None,
        _ => text.parse::<u32>().ok(),
    }
}

#[tactic(auto, unfolding(bridge_lang::specs::Number::is_heap))]
fn is_heap(n: u32) -> bool
    ensures { result ≡ spec.is_heap n }
{
    SMALL_HEAPS.contains(&n) || (n % 16_777_216 == 0 && 16_777_216 <= n && n <= 268_435_456)
}

#[tactic(auto, using(crate::proofs::NumberLemmas::no_heap))]
fn heap_number(text: &str) -> Option<HeapLength>
    ensures { option_map (λ length. length.bytes) result ≡ kept spec.is_heap (number_of text.now) }
{
    match number(text) {
        Some(bytes) if is_heap(bytes) => Some(HeapLength { bytes }),
        _ => None,
    }
}

#[tactic(auto, using(crate::proofs::NumberLemmas::absent_heap), unfolding(bridge_lang::specs::Words::heap_of))]
/// The heap's length in bytes.
pub fn heap_size(given: &Given<'_, '_>) -> Option<HeapLength>
    ensures { option_map (λ length. length.bytes) result ≡ heap_of (given_texts given.now) }
{
    match given.heap {
        None => Some(HeapLength { bytes: ABSENT_HEAP }),
        Some(text) => heap_number(text),
    }
}

#[tactic(auto, unfolding(bridge_lang::specs::Number::is_steps))]
fn is_steps(n: u32) -> bool
    ensures { result ≡ spec.is_steps n }
{
    n <= 1_000_000_000
}

#[tactic(auto, using(crate::proofs::NumberLemmas::no_steps))]
fn step_number(text: &str) -> Option<u32>
    ensures { result ≡ kept spec.is_steps (number_of text.now) }
{
    match number(text) {
        Some(n) if is_steps(n) => Some(n),
        _ => None,
    }
}

#[tactic(auto, unfolding(bridge_lang::specs::Words::steps_of))]
/// How many units or reductions a run may take.
pub fn step_count(given: &Given<'_, '_>) -> Option<u32>
    ensures { result ≡ steps_of (given_texts given.now) }
{
    match given.steps {
        None => Some(ABSENT_STEPS),
        Some(text) => step_number(text),
    }
}

#[tactic(auto, unfolding(bridge_lang::specs::Number::is_gen_count))]
fn is_gen_count(n: u32) -> bool
    ensures { result ≡ spec.is_gen_count n }
{
    1 <= n && n <= 10_000
}

#[tactic(auto, using(crate::proofs::NumberLemmas::no_gen_count))]
/// How many functions a text is made of.
pub fn function_count(text: &str) -> Option<FunctionCount>
    ensures { option_map (λ count. count.functions) result ≡ kept spec.is_gen_count (number_of text.now) }
{
    match number(text) {
        Some(functions) if is_gen_count(functions) => Some(FunctionCount { functions }),
        _ => None,
    }
}
