//! From the value of a switch to its clause.
ghost use Rattle.std.specs.Prelude.{◌≡◌, ◌<◌, ◌≤◌, ◌^◌, [], ◌∷◌, true, suc, length, OnOk};
ghost use Rattle.asm_tree.specs.Views.{clauses_view};
ghost use Rattle.sem_words.specs.Words as words;
ghost use Rattle.asm_lang_valid.specs.Typing as typing;
ghost use Rattle.asm2wasm_translation.specs.Bodies as shapes;
ghost use Rattle.asm_run_code.specs.declared.op.Op.TheVariants.{Choose};
ghost use Rattle.asm_run_code.specs.Bodies as code;
ghost use Rattle.asm_run_code.specs.Bodies.{a_switch};
ghost use Rattle.asm_run_emit_bodies.specs.Jumps.{inside};
ghost use Rattle.asm_run_emit_bodies.specs.Switches.{case_before, jumps};

use crate::jumps::Jumps;
use asm_run_code::Op;
use asm_run_emit_values::Output;
use asm_run_names::small;
use asm_tree::Clause;
use std::alloc::{AllocError, Global};
use std::marker::Model;
use switch_cases::{CaseRange, before_default, target_labels, word_of};

/// The addresses of the clauses of a switch and of what comes after them. It is held from its end, and its contracts see
/// the first one first.
#[derive(Drop)]
pub struct Starts {
    addresses: Vec<u32>,
}

impl Model for Starts {
    ghost use Rattle.std.specs.Prelude.{List, ℕ, reverse};

    ghost Value = { List ℕ };

    ghost view = { λ s. reverse s.addresses.items };
}

impl Starts {
    /// None. It takes no memory.
    pub fn new(alloc: Global) -> Starts
        ensures { result ≡ [] }
    {
        Starts {
            addresses: Vec::new(alloc),
        }
    }

    /// One more address before those that are there.
    pub fn put(&mut self, at: u32) -> Result<(), AllocError>
        ensures { OnOk result (self.new ≡ at ∷ self.old) }
    {
        self.addresses.push(at)?;
        Ok(())
    }

    /// That of clause k, or 0.
    pub fn get(&self, k: usize) -> u32
        ensures { result ≡ code.start_of self.now k }
    {
        let count = self.addresses.len();
        if k < count {
            self.addresses[count - 1 - k]
        } else {
            0
        }
    }
}

/// Into a switch, which ends with the code that is there. Jumps out of it go there.
pub fn start_switch(
    output: &Output,
    jumps: &mut Jumps<'_>,
    starts: &mut Starts,
) -> Result<(), AllocError>
    requires { starts.old ≡ [] }
    ensures start { OnOk result (starts.new ≡ length output.now ∷ []) }
    ensures entered { OnOk result (jumps.new ≡ inside (a_switch (length output.now)) jumps.old) }
{
    let past = output.address();
    starts.put(past)?;
    jumps.enter_switch(past)
}

/// To the clause of the value in a slot, before the code of the clauses.
pub fn dispatch(
    output: &mut Output,
    clauses: &[Clause],
    starts: &Starts,
    slot: u32,
) -> Result<(), AllocError>
    requires { length clauses.now ≤ length starts.now }
    ensures { OnOk result (output.new ≡ code.dispatched (clauses_view clauses.now) starts.now slot output.old) }
{
    let default = starts.get(before_default(clauses));
    output.put(Op::Go { at: default })?;
    let range = CaseRange::of(clauses);
    if range.is_dense() {
        put_table(output, clauses, starts, slot)
    } else {
        put_cases(output, clauses, starts, slot)
    }
}

// A comparison for each case.
fn put_cases(
    output: &mut Output,
    clauses: &[Clause],
    starts: &Starts,
    slot: u32,
) -> Result<(), AllocError>
    requires { length clauses.now ≤ length starts.now }
    ensures { OnOk result (output.new ≡ code.case_ops slot (clauses_view clauses.now) starts.now output.old) }
{
    let mut i = clauses.len();
    while i > 0 {
        i -= 1;
        put_case(output, clauses[i].value, starts.get(i), slot)?;
    }
    Ok(())
}

fn put_case(output: &mut Output, value: Option<i64>, at: u32, slot: u32) -> Result<(), AllocError>
    ensures { OnOk result (output.new ≡ case_before slot value at output.old) }
{
    match value {
        None => Ok(()),
        Some(value) => {
            let word = word_of(value);
            output.put(Op::Case { slot, word, at })
        }
    }
}

// A jump for each value from the least to the greatest.
fn put_table(
    output: &mut Output,
    clauses: &[Clause],
    starts: &Starts,
    slot: u32,
) -> Result<(), AllocError>
    requires { shapes.is_dense (typing.values (clauses_view clauses.now)) ≡ true }
    ensures { OnOk result (output.new ≡ Choose slot (words.word_of 32 (shapes.low (typing.values (clauses_view clauses.now)))) (suc (shapes.span (typing.values (clauses_view clauses.now))))
        ∷ code.target_ops (suc (shapes.span (typing.values (clauses_view clauses.now)))) (shapes.low (typing.values (clauses_view clauses.now))) (clauses_view clauses.now) starts.now output.old) }
{
    // the labels of clauses have 32 bits
    small(clauses.len())?;
    let targets = target_labels(output.alloc(), clauses)?;
    put_jumps(output, targets.as_slice(), starts)?;
    let range = CaseRange::of(clauses);
    output.put(Op::Choose {
        slot,
        low: word_of(range.low),
        count: small(targets.len())?,
    })
}

// A jump to each of these clauses.
fn put_jumps(output: &mut Output, targets: &[u32], starts: &Starts) -> Result<(), AllocError>
    ensures { OnOk result (output.new ≡ jumps starts.now targets.now output.old) }
{
    let mut i = targets.len();
    while i > 0 {
        i -= 1;
        output.put(Op::Go {
            at: starts.get(targets[i] as usize),
        })?;
    }
    Ok(())
}
