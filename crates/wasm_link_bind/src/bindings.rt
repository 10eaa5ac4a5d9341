// The bound imports of a pair.

ghost use Rattle.std.specs.Prelude.{◌≡◌, ℕ, ◌≤◌, ◌^◌, ◌+◌, ◌++◌, length, map, replicate, None, IfOk, option_map, slice_get};
ghost use Rattle.wasm_link_lang.specs.Pairs as pairs;
ghost use Rattle.wasm_link_lang.specs.Pairs.{Pair, past_first};
ghost use Rattle.wasm_link_lang.specs.Refusal as rows;
ghost use Rattle.wasm_link_code.specs.Numbers as plain;
ghost use Rattle.wasm_link_code.specs.Numbers.{number, or_zero};

use crate::bound::{push_bound, push_unbound};
use crate::chains::ends_of;
use crate::exported::Exporting;
use crate::numbers::{numbered, numbers_at, unbound_count};
use crate::rings::{Cycles, first_member, marks_of};
use crate::taken::taken;
use crate::types::other_type;
use std::alloc::{AllocError, Global};
use std::marker::Model;
use wasm_validate::Valid;

/// Two modules with what the imports of each are bound to in the other. Contracts see the pair.
///
/// A function's address is its number among the functions of both modules, the first's first, with the imported ones.
#[derive(Drop)]
pub struct Bindings<'a> {
    first: Exporting<'a>,
    second: Exporting<'a>,
    first_bound: Vec<Option<usize>>,
    second_bound: Vec<Option<usize>>,
    next: Vec<Option<usize>>,
    ends: Vec<usize>,
}

impl<'a> Model for Bindings<'a> {
    ghost use Rattle.wasm_link_lang.specs.Pairs.{Pair};
    ghost use Rattle.wasm_link_bind.specs.Bindings.{AreBindings};

    ghost Value = { Pair };

    ghost view = { λ b. record { first = b.first; second = b.second } };

    ghost invariant = { λ b. AreBindings (record { first = b.first; second = b.second }) b.first_bound.items b.second_bound.items b.next.items b.ends.items };
}

impl<'a> Bindings<'a> {
    /// The bindings of a pair.
    pub fn new(
        alloc: Global,
        first: &'a Valid<'a>,
        second: &'a Valid<'a>,
    ) -> Result<Bindings<'a>, AllocError>
        ensures { IfOk result (λ b. b ≡ record { first = first.now; second = second.now }) }
    {
        let first = Exporting::new(alloc, first)?;
        let second = Exporting::new(alloc, second)?;
        let first_bound = first_bound(alloc, &first, &second)?;
        let second_bound = second_bound(alloc, &first, &second)?;
        let next = all_bound(
            alloc,
            &first,
            &second,
            first_bound.as_slice(),
            second_bound.as_slice(),
        )?;
        let imports = first_bound.as_slice().len() + second_bound.as_slice().len();
        let ends = ends_of(alloc, next.as_slice(), imports)?;
        Ok(Bindings {
            first,
            second,
            first_bound,
            second_bound,
            next,
            ends,
        })
    }

    /// The first module, with the functions that it exports.
    pub fn first(&self) -> &Exporting<'a>
        ensures { result.now ≡ self.now.first }
    {
        &self.first
    }

    /// .. and the second.
    pub fn second(&self) -> &Exporting<'a>
        ensures { result.now ≡ self.now.second }
    {
        &self.second
    }

    /// How many function imports of both modules aren't bound.
    pub fn unbound_imports(&self) -> usize
        ensures { result ≡ plain.unbound_count (pairs.first_bindings self.now) + plain.unbound_count (pairs.second_bindings self.now) }
    {
        unbound_count(self.first_bound.as_slice()) + unbound_count(self.second_bound.as_slice())
    }

    /// The number of what each function stands for, by its address, where no import comes back to itself, and no count is too large.
    pub fn function_numbers(&self, alloc: Global) -> Result<Vec<u32>, AllocError>
        requires first { rows.cycle self.now 0 0 self.now.first.imports ≡ None }
        requires second { rows.cycle self.now 0 (past_first self.now).functions self.now.second.imports ≡ None }
        requires few { rows.sums_past self.now ≡ None }
        ensures { IfOk result (λ numbers. (a : ℕ) → or_zero (slice_get numbers.items a) ≡ number self.now a) }
    {
        let own = numbered(
            alloc,
            self.first_bound.as_slice(),
            self.first.valid().module().functions.len(),
            self.second_bound.as_slice(),
            self.second.valid().module().functions.len(),
        )?;
        let numbers = numbers_at(alloc, own.as_slice(), self.ends.as_slice())?;
        Ok(numbers)
    }

    /// The place of the first export of the second module that has the name of a function that the first exports.
    pub fn taken(&self) -> Option<usize>
        ensures { result ≡ rows.taken self.now.first.exports 0 self.now.second.exports }
    {
        taken(&self.first, self.second.valid().module().exports.as_slice())
    }

    /// The number of the first module's first bound import that has another type than the function that it is bound to.
    pub fn first_other_type(&self) -> Option<usize>
        ensures { result ≡ rows.other_type self.now.first self.now.second 0 self.now.first.imports }
    {
        other_type(&self.first, &self.second)
    }

    /// .. and the second's.
    pub fn second_other_type(&self) -> Option<usize>
        ensures { result ≡ rows.other_type self.now.second self.now.first 0 self.now.second.imports }
    {
        other_type(&self.second, &self.first)
    }

    /// The numbers of the first imports of both modules that come back to themselves.
    pub fn cycles(&self, alloc: Global) -> Result<Cycles, AllocError>
        ensures first { IfOk result (λ cycles. cycles.first ≡ rows.cycle self.now 0 0 self.now.first.imports) }
        ensures second { IfOk result (λ cycles. cycles.second ≡ rows.cycle self.now 0 (past_first self.now).functions self.now.second.imports) }
    {
        let marks = marks_of(alloc, self.ends.as_slice())?;
        let marks = marks.as_slice();
        let first = self.first.valid().module().imports.as_slice();
        let second = self.second.valid().module().imports.as_slice();
        let next = self.next.as_slice();
        let past = self.first.sizes().functions;
        Ok(Cycles {
            first: first_member(next, marks, 0, first),
            second: first_member(next, marks, past, second),
        })
    }
}

// What the first's function imports are bound to.
fn first_bound(
    alloc: Global,
    first: &Exporting<'_>,
    second: &Exporting<'_>,
) -> Result<Vec<Option<usize>>, AllocError>
    ensures { IfOk result (λ bound. bound.items ≡ pairs.first_bindings (record { first = first.now; second = second.now })) }
{
    let bound = bound_in(alloc, first, second, first.sizes().functions)?;
    Ok(bound)
}

// .. and the second's.
fn second_bound(
    alloc: Global,
    first: &Exporting<'_>,
    second: &Exporting<'_>,
) -> Result<Vec<Option<usize>>, AllocError>
    ensures { IfOk result (λ bound. bound.items ≡ pairs.second_bindings (record { first = first.now; second = second.now })) }
{
    let bound = bound_in(alloc, second, first, 0)?;
    Ok(bound)
}

// What the function imports of a module are bound to, where the other module's addresses begin at `base`.
fn bound_in(
    alloc: Global,
    own: &Exporting<'_>,
    other: &Exporting<'_>,
    base: usize,
) -> Result<Vec<Option<usize>>, AllocError>
    requires { base ≤ 2 ^ 62 }
    ensures { IfOk result (λ bound. bound.items ≡ map (λ i. option_map (λ f. base + f) (pairs.bound_to other.now i)) (pairs.function_imports own.now.imports)) }
{
    let mut bound = Vec::new(alloc);
    push_bound(
        &mut bound,
        other,
        base,
        own.valid().module().imports.as_slice(),
    )?;
    Ok(bound)
}

// What the functions of both modules are bound to, by their addresses.
fn all_bound(
    alloc: Global,
    first: &Exporting<'_>,
    second: &Exporting<'_>,
    first_bound: &[Option<usize>],
    second_bound: &[Option<usize>],
) -> Result<Vec<Option<usize>>, AllocError>
    ensures { IfOk result (λ next. next.items ≡ (first_bound.now ++ replicate (length first.now.functions) None) ++ (second_bound.now ++ replicate (length second.now.functions) None)) }
{
    let mut next = Vec::from_slice(alloc, first_bound)?;
    push_unbound(&mut next, first.valid().module().functions.len())?;
    next.extend_from_slice(second_bound)?;
    push_unbound(&mut next, second.valid().module().functions.len())?;
    Ok(next)
}
