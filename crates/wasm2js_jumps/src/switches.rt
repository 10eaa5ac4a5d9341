//! A branch by an index.
ghost use Rattle.std.specs.Prelude.{◌≡◌, ◌≤◌, ◌<◌, ◌+◌, ◌^◌, ◌/◌, ◌∷◌, [], ◌++◌, List, length, take, Some, None, map, IfOk};
ghost use Rattle.sem_words.specs.Lists.{list_items};
ghost use Rattle.asm_lang.specs.Modules as plain;
ghost use Rattle.asm_tree.specs.Views.{clause_view, clauses_view, stmt_view};
ghost use Rattle.wasm2js_translation.specs.Bodies as bodies;
ghost use Rattle.wasm2js_build.specs.Blocks.{statements_of};
ghost use Rattle.wasm2js_jumps.specs.Jumps.{jump_to};
ghost use Rattle.wasm2js_jumps.specs.Clauses.{clause_for, case_list};

use crate::aims::Aim;
use crate::jumps::jump;
use crate::nodes::switch;
use crate::values::signed_word;
use asm_tree::{Clause, Stmt};
use sem_words::{List, signed32};
use std::alloc::{AllocError, Global};
use wasm2js_build::Block;

/// What the jumps of one instruction have in common: the aims, and the number of the operand that they carry.
#[derive(Clone, Copy)]
pub struct Jumps<'a> {
    pub alloc: Global,
    pub aims: &'a [Aim],
    pub depth: u64,
}

fn jump_list(jumps: &Jumps<'_>, label: u32) -> Result<List<Stmt>, AllocError>
    ensures { IfOk result (λ ss. map stmt_view (list_items ss) ≡ jump_to jumps.now label) }
{
    let mut block = Block::new(jumps.alloc);
    jump(jumps.alloc, jumps.aims, label, jumps.depth, &mut block)?;
    Ok(block.into_list())
}

#[tactic(auto, using(asm_tree::proofs::Views::views, crate::proofs::Lists::same_stmts))]
fn clause(jumps: &Jumps<'_>, value: Option<i64>, label: u32) -> Result<Clause, AllocError>
    ensures { IfOk result (λ c. clause_view c ≡ clause_for value (jump_to jumps.now label)) }
{
    let body = jump_list(jumps, label)?;
    Ok(Clause { value, body })
}

fn add(clauses: &mut List<Clause>, clause: Clause) -> Result<(), AllocError>
    ensures { IfOk result (λ _. map clause_view (list_items clauses.new) ≡ map clause_view (list_items clauses.old) ++ clause_view clause ∷ []) }
{
    match clauses.push(clause) {
        Ok(()) => Ok(()),
        Err(_) => Err(AllocError),
    }
}

fn add_case(
    jumps: &Jumps<'_>,
    index: usize,
    label: u32,
    clauses: &mut List<Clause>,
) -> Result<(), AllocError>
    requires { index < 2 ^ 32 }
    ensures { IfOk result (λ _. map clause_view (list_items clauses.new) ≡ map clause_view (list_items clauses.old) ++ case_list (jump_to jumps.now) index (label ∷ [])) }
{
    let value = signed32(index as u32) as i64;
    let case = clause(jumps, Some(value), label)?;
    add(clauses, case)
}

// The cases for these labels, the first of which has this index.
fn cases(jumps: &Jumps<'_>, first: usize, labels: &[u32]) -> Result<List<Clause>, AllocError>
    requires { first + length labels.now ≤ 2 ^ 32 }
    ensures { IfOk result (λ cs. map clause_view (list_items cs) ≡ case_list (jump_to jumps.now) first labels.now) }
{
    let mut clauses = List::new(jumps.alloc);
    for (i, label) in labels.iter().enumerate() {
        add_case(jumps, first + i, *label, &mut clauses)?;
    }
    Ok(clauses)
}

fn put_switch(
    jumps: &Jumps<'_>,
    subject: u64,
    clauses: List<Clause>,
    block: &mut Block,
) -> Result<(), AllocError>
    ensures { IfOk result (λ _. statements_of block.new ≡ statements_of block.old ++ plain.switches (bodies.signed_word subject) (clauses_view (list_items clauses)) ∷ []) }
{
    let test = signed_word(jumps.alloc, subject)?;
    block.push(switch(test, clauses))
}

// The switch for so many labels from an index on, which isn't the last one.
#[tactic(auto, using(crate::proofs::IndexLemmas::cases_alone))]
fn one_switch(
    jumps: &Jumps<'_>,
    subject: u64,
    first: usize,
    labels: &[u32],
    block: &mut Block,
) -> Result<(), AllocError>
    requires { first + length labels.now ≤ 2 ^ 32 }
    ensures { IfOk result (λ _. statements_of block.new ≡ statements_of block.old ++ plain.switches (bodies.signed_word subject) (bodies.cases (jump_to jumps.now) first labels.now plain.no_clauses) ∷ []) }
{
    let clauses = cases(jumps, first, labels)?;
    put_switch(jumps, subject, clauses, block)
}

#[tactic(auto, using(crate::proofs::IndexLemmas::cases_before))]
fn last_switch(
    jumps: &Jumps<'_>,
    subject: u64,
    first: usize,
    labels: &[u32],
    default: u32,
    block: &mut Block,
) -> Result<(), AllocError>
    requires { first + length labels.now ≤ 2 ^ 32 }
    ensures { IfOk result (λ _. statements_of block.new ≡ statements_of block.old ++ bodies.switches_from (jump_to jumps.now) (bodies.signed_word subject) 0 first labels.now default) }
{
    let mut clauses = cases(jumps, first, labels)?;
    let other = clause(jumps, None, default)?;
    add(&mut clauses, other)?;
    put_switch(jumps, subject, clauses, block)
}

const MOST_CASES: usize = 512;

// No index reaches a label past 2 ^ 32.
fn near(labels: &[u32]) -> &[u32]
    ensures { result.now ≡ take (2 ^ 32) labels.now }
{
    let most = 4294967296;
    if labels.len() > most {
        &labels[..most]
    } else {
        labels
    }
}

/// A branch to the label whose index is the operand of number `subject`, or else to the default.
pub fn by_index(
    jumps: &Jumps<'_>,
    subject: u64,
    labels: &[u32],
    default: u32,
    block: &mut Block,
) -> Result<(), AllocError>
    ensures { IfOk result (λ _. statements_of block.new ≡ statements_of block.old ++ bodies.by_index (jump_to jumps.now) (bodies.signed_word subject) labels.now default) }
{
    let labels = near(labels);
    let full = labels.len() / MOST_CASES;
    for turn in 0..full {
        let first = turn * MOST_CASES;
        one_switch(
            jumps,
            subject,
            first,
            &labels[first..first + MOST_CASES],
            block,
        )?;
    }
    let first = full * MOST_CASES;
    last_switch(jumps, subject, first, &labels[first..], default, block)
}
