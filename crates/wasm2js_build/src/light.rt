//! Statements of straight code among which light words wait: numbers, and variables that are no operands'.
ghost use Rattle.std.specs.Prelude.{◌≡◌, false, [], ◌∷◌, ◌++◌, ◌||◌, option_map, IfOk};
ghost use Rattle.asm_tree.specs.Views.{stmt_view};
ghost use Rattle.wasm2js_translation.specs.Words as words;
ghost use Rattle.wasm2js_translation.specs.Words.{simple_statements, statements};
ghost use Rattle.wasm2js_translation.specs.Delays as delays;
ghost use Rattle.wasm2js_translation.specs.Known as knowing;
ghost use Rattle.wasm2js_nodes.specs.Names.{name_view};
ghost use Rattle.wasm2js_terms.specs.Views.{term_view};
ghost use Rattle.wasm2js_build.specs.Blocks.{statements_of};
ghost use Rattle.wasm2js_terms.specs.Atoms.{atom_view};
ghost use Rattle.wasm2js_terms.specs.Waits.{delayed_view, delays_view, late_term};
ghost use Rattle.wasm2js_terms.specs.Held.{of_two_view, held_view, all_held, with_held, newest_view};
ghost use Rattle.wasm2js_terms.specs.Facts.{knowns_view};
ghost use Rattle.wasm2js_build.specs.declared.steps.Change.TheVariants.{Either};
ghost use Rattle.wasm2js_build.specs.Steps.{step_view, steps_view, is_spoiled, is_put, is_left_in_arms, left_in_arms};
ghost use Rattle.wasm2js_build.specs.Growing.{late_at, lights_of, lights_known, grown, took, begins_to_wait};

use crate::block::Block;
use crate::building::late_test;
use crate::learning::{is_needless, is_never, learn, learn_word, unlearn};
use crate::steps::{Change, Step, puts, replaces, spoils, statement};
use asm_tree::Stmt;
use std::alloc::{AllocError, Global};
use wasm2js_nodes::{Name, if_else};
use wasm2js_terms::{
    Atom, Delayed, Held, Known, Newest, OfTwo, Term, atom_fact, drop_name, note, stand_in, wait,
    waiting_word,
};

/// A list of statements that grows at its end, the light words that wait then, and what is known of variables, the oldest first.
#[derive(Drop)]
pub(crate) struct LightBlock {
    pub(crate) block: Block,
    pub(crate) waits: Vec<Delayed>,
    pub(crate) known: Vec<Known>,
}

impl LightBlock {
    // What a change spoils is written.
    fn write_spoiled(&mut self, change: Change<'_, '_>) -> Result<(), AllocError>
        ensures statements { IfOk result (λ _. statements_of self.new.block ≡ statements_of self.old.block ++ simple_statements (delays.written (delays.those (is_spoiled change.entry) (lights_of self.old)))) }
        ensures waits { self.new.waits ≡ self.old.waits }
        ensures known { IfOk result (λ _. lights_known self.new ≡ knowing.all_learned (lights_known self.old) (delays.written (delays.those (is_spoiled change.entry) (lights_of self.old)))) }
    {
        for delayed in &self.waits {
            if spoils(change, *delayed) {
                put_waiting(&mut self.block, &mut self.known, *delayed)?;
            }
        }
        Ok(())
    }

    // A step, unless it is needless.
    fn put_lean(&mut self, step: &Step<'_>) -> Result<(), AllocError>
        ensures statements { IfOk result (λ _. statements_of self.new.block ≡ statements_of self.old.block ++ statements (knowing.lean_action (lights_known self.old) (words.simply (delays.in_place (lights_of self.old) (step_view step.now)))).now) }
        ensures waits { self.new.waits ≡ self.old.waits }
        ensures known { IfOk result (λ _. lights_known self.new ≡ (knowing.lean_action (lights_known self.old) (words.simply (delays.in_place (lights_of self.old) (step_view step.now)))).known) }
    {
        if !is_needless(&self.known, &self.waits, step) {
            let statement = statement(self.block.alloc, &self.waits, step)?;
            self.block.push(statement)?;
        }
        learn(&mut self.known, &self.waits, step)
    }

    // A step that doesn't wait.
    pub(crate) fn act_late(&mut self, step: &Step<'_>) -> Result<(), AllocError>
        ensures statements { IfOk result (λ _. statements_of self.new.block ≡ statements_of self.old.block ++ statements (knowing.lean (lights_known self.old) (delays.at_once (lights_of self.old) (step_view step.now)).now).now) }
        ensures waits { IfOk result (λ _. lights_of self.new ≡ (delays.at_once (lights_of self.old) (step_view step.now)).later) }
        ensures known { IfOk result (λ _. lights_known self.new ≡ (knowing.lean (lights_known self.old) (delays.at_once (lights_of self.old) (step_view step.now)).now).known) }
    {
        let change = Change::One(step);
        self.write_spoiled(change)?;
        self.put_lean(step)?;
        drop_changed(&mut self.waits, change);
        Ok(())
    }

    // The second steps alone, where the test is never met.
    #[tactic(auto, using(crate::proofs::Waiting::left_are))]
    fn put_second<'a, 's>(
        &mut self,
        first: &'a [Step<'s>],
        second: &'a [Step<'s>],
    ) -> Result<(), AllocError>
        ensures statements { IfOk result (λ _. statements_of self.new.block ≡ statements_of self.old.block ++ simple_statements (delays.late_arm (left_in_arms (Either first.entry second.entry) (lights_of self.old)) (steps_view second.now))) }
        ensures waits { self.new.waits ≡ self.old.waits }
        ensures known { IfOk result (λ _. lights_known self.new ≡ knowing.all_learned (lights_known self.old) (delays.late_arm (left_in_arms (Either first.entry second.entry) (lights_of self.old)) (steps_view second.now))) }
    {
        let mut left = Vec::from_slice(self.block.alloc, &self.waits)?;
        drop_spoiled(&mut left, Change::Either(first, second));
        put_steps(&mut self.block, &mut self.known, left, second)
    }

    // The first steps where the test holds, and else the second ones.
    fn put_choice<'a, 's>(
        &mut self,
        test: &Term<'_>,
        first: &'a [Step<'s>],
        second: &'a [Step<'s>],
    ) -> Result<(), AllocError>
        ensures statements { IfOk result (λ _. statements_of self.new.block ≡ statements_of self.old.block ++ words.statement (words.either (late_term self.old.waits.items test.now) (delays.late_arm (left_in_arms (Either first.entry second.entry) (lights_of self.old)) (steps_view first.now)) (delays.late_arm (left_in_arms (Either first.entry second.entry) (lights_of self.old)) (steps_view second.now))) ∷ []) }
        ensures waits { self.new.waits ≡ self.old.waits }
        ensures known { IfOk result (λ _. lights_known self.new ≡ knowing.unchanged (λ n. delays.one_changes (steps_view first.now) n || delays.one_changes (steps_view second.now) n) (lights_known self.old)) }
    {
        let statement = choice(self.block.alloc, &self.waits, test, first, second)?;
        self.block.push(statement)?;
        unlearn(&mut self.known, first, second);
        Ok(())
    }

    fn put_lean_choice<'a, 's>(
        &mut self,
        test: &Term<'_>,
        first: &'a [Step<'s>],
        second: &'a [Step<'s>],
    ) -> Result<(), AllocError>
        ensures statements { IfOk result (λ _. statements_of self.new.block ≡ statements_of self.old.block ++ statements (knowing.lean_action (lights_known self.old) (words.either (late_term self.old.waits.items test.now) (delays.late_arm (left_in_arms (Either first.entry second.entry) (lights_of self.old)) (steps_view first.now)) (delays.late_arm (left_in_arms (Either first.entry second.entry) (lights_of self.old)) (steps_view second.now)))).now) }
        ensures waits { self.new.waits ≡ self.old.waits }
        ensures known { IfOk result (λ _. lights_known self.new ≡ (knowing.lean_action (lights_known self.old) (words.either (late_term self.old.waits.items test.now) (delays.late_arm (left_in_arms (Either first.entry second.entry) (lights_of self.old)) (steps_view first.now)) (delays.late_arm (left_in_arms (Either first.entry second.entry) (lights_of self.old)) (steps_view second.now)))).known) }
    {
        if is_never(&self.known, &self.waits, test) {
            self.put_second(first, second)
        } else {
            self.put_choice(test, first, second)
        }
    }

    pub(crate) fn either_late<'a, 's>(
        &mut self,
        test: &Term<'_>,
        first: &'a [Step<'s>],
        second: &'a [Step<'s>],
    ) -> Result<(), AllocError>
        ensures statements { IfOk result (λ _. statements_of self.new.block ≡ statements_of self.old.block ++ statements (knowing.lean (lights_known self.old) (delays.late_either (lights_of self.old) (term_view test.now) (steps_view first.now) (steps_view second.now)).now).now) }
        ensures waits { IfOk result (λ _. lights_of self.new ≡ (delays.late_either (lights_of self.old) (term_view test.now) (steps_view first.now) (steps_view second.now)).later) }
        ensures known { IfOk result (λ _. lights_known self.new ≡ (knowing.lean (lights_known self.old) (delays.late_either (lights_of self.old) (term_view test.now) (steps_view first.now) (steps_view second.now)).now).known) }
    {
        let change = Change::Either(first, second);
        self.write_spoiled(change)?;
        self.put_lean_choice(test, first, second)?;
        drop_changed(&mut self.waits, change);
        Ok(())
    }

    // A step where nothing waits.
    #[tactic(auto, using(crate::proofs::Replacing::nothing_in_place))]
    pub(crate) fn act_at_once(&mut self, step: &Step<'_>) -> Result<(), AllocError>
        ensures statements { IfOk result (λ _. statements_of self.new.block ≡ statements_of self.old.block ++ words.simple_statement (step_view step.now) ∷ []) }
        ensures waits { self.new.waits ≡ self.old.waits }
        ensures known { self.new.known ≡ self.old.known }
    {
        let statement = statement(self.block.alloc, &[], step)?;
        self.block.push(statement)
    }

    #[tactic(auto, using(crate::proofs::Growing::either_is))]
    pub(crate) fn either_at_once<'a, 's>(
        &mut self,
        test: &Term<'_>,
        first: &'a [Step<'s>],
        second: &'a [Step<'s>],
    ) -> Result<(), AllocError>
        ensures statements { IfOk result (λ _. statements_of self.new.block ≡ statements_of self.old.block ++ words.statement (words.either (term_view test.now) (steps_view first.now) (steps_view second.now)) ∷ []) }
        ensures waits { self.new.waits ≡ self.old.waits }
        ensures known { self.new.known ≡ self.old.known }
    {
        let statement = choice(self.block.alloc, &[], test, first, second)?;
        self.block.push(statement)
    }

    // The word that is held is written.
    pub(crate) fn write_held(&mut self, held: Option<Held>) -> Result<(), AllocError>
        ensures statements { IfOk result (λ _. statements_of self.new.block ≡ statements_of self.old.block ++ simple_statements (delays.written (all_held held))) }
        ensures waits { self.new.waits ≡ self.old.waits }
        ensures known { IfOk result (λ _. lights_known self.new ≡ knowing.all_learned (lights_known self.old) (delays.written (all_held held))) }
    {
        match held {
            Some(held) => put_held(&mut self.block, &mut self.known, held.name, held.word),
            None => Ok(()),
        }
    }

    // A variable of no operand gets the word that is held, and stands for its operand.
    pub(crate) fn take(&mut self, to: Name, held: Held) -> Result<(), AllocError>
        requires { delays.is_operand (name_view to) ≡ false }
        ensures statements { IfOk result (λ _. statements_of self.new.block ≡ statements_of self.old.block ++ statements (knowing.lean (lights_known self.old) (took (lights_of self.old) (name_view to) (held_view held)).now).now) }
        ensures waits { IfOk result (λ _. lights_of self.new ≡ (took (lights_of self.old) (name_view to) (held_view held)).later) }
        ensures known { IfOk result (λ _. lights_known self.new ≡ (knowing.lean (lights_known self.old) (took (lights_of self.old) (name_view to) (held_view held)).now).known) }
    {
        let word = Term::read(held.name);
        let step = Step::Put(to, &word);
        let change = Change::One(&step);
        self.write_spoiled(change)?;
        put_held(&mut self.block, &mut self.known, to, held.word)?;
        drop_spoiled(&mut self.waits, change);
        stand_in(&mut self.waits, held.name, to)
    }

    // A step where no word is held. It returns the word that is held then.
    pub(crate) fn act_among(&mut self, step: &Step<'_>) -> Result<Option<Held>, AllocError>
        ensures { IfOk result (λ held. late_at (statements_of self.new.block) (with_held (lights_of self.new) held) (lights_known self.new) ≡ grown (statements_of self.old.block) (lights_known self.old) (delays.late_among (lights_of self.old) (step_view step.now))) }
    {
        match waiting_step(&self.waits, step) {
            Some(Newest::Light(delayed)) => {
                wait(&mut self.waits, delayed)?;
                Ok(None)
            }
            Some(Newest::OfTwo(held)) => {
                drop_name(&mut self.waits, held.name);
                Ok(Some(held))
            }
            None => {
                self.act_late(step)?;
                Ok(None)
            }
        }
    }
}

pub(crate) fn term_of(word: Atom) -> Term<'static>
    ensures { term_view result ≡ atom_view word }
{
    match word {
        Atom::Read(name) => Term::read(name),
        Atom::Number(value) => Term::number(value),
    }
}

// What a step puts that may wait.
fn waiting_step(waits: &[Delayed], step: &Step<'_>) -> Option<Newest>
    ensures { option_map newest_view result ≡ begins_to_wait (delays_view waits.now) (step_view step.now) }
{
    match step {
        Step::Put(to, value) => waiting_word(waits, *to, value),
        _ => None,
    }
}

// What a change spoils is written by now, and what it replaces is gone.
fn drop_changed(waits: &mut Vec<Delayed>, change: Change<'_, '_>)
    ensures { delays_view waits.new.items ≡ delays.others (λ d. is_spoiled change.entry d || is_put change.entry d.name) (delays_view waits.old.items) }
{
    waits.retain(|delayed| !(spoils(change, *delayed) || replaces(change, delayed.name)));
}

// What a step of an arm replaces is gone.
fn drop_put(waits: &mut Vec<Delayed>, step: &Step<'_>)
    ensures { delays_view waits.new.items ≡ delays.others (λ d. delays.puts (step_view step.now) d.name) (delays_view waits.old.items) }
{
    waits.retain(|delayed| !puts(step, delayed.name));
}

// A word that waited is written.
fn put_waiting(
    block: &mut Block,
    known: &mut Vec<Known>,
    delayed: Delayed,
) -> Result<(), AllocError>
    ensures statements { IfOk result (λ _. statements_of block.new ≡ statements_of block.old ++ words.simple_statement (words.put (name_view delayed.name) (atom_view delayed.word)) ∷ []) }
    ensures known { IfOk result (λ _. knowns_view known.new.items ≡ knowing.learned (knowns_view known.old.items) (words.put (name_view delayed.name) (atom_view delayed.word))) }
{
    block.put(delayed.name, &term_of(delayed.word))?;
    let fact = atom_fact(known, delayed.word);
    note(known, delayed.name, fact)
}

// Steps one after the other, of which none begins to wait.
fn put_steps(
    block: &mut Block,
    known: &mut Vec<Known>,
    waits: Vec<Delayed>,
    steps: &[Step<'_>],
) -> Result<(), AllocError>
    ensures statements { IfOk result (λ _. statements_of block.new ≡ statements_of block.old ++ simple_statements (delays.late_arm (delays_view waits.items) (steps_view steps.now))) }
    ensures known { IfOk result (λ _. knowns_view known.new.items ≡ knowing.all_learned (knowns_view known.old.items) (delays.late_arm (delays_view waits.items) (steps_view steps.now))) }
{
    let mut waits = waits;
    for step in steps {
        let statement = statement(block.alloc, &waits, step)?;
        block.push(statement)?;
        learn(known, &waits, step)?;
        drop_put(&mut waits, step);
    }
    Ok(())
}

// The steps of an arm: nothing begins to wait there.
fn arm(alloc: Global, waits: &[Delayed], steps: &[Step<'_>]) -> Result<Block, AllocError>
    ensures { IfOk result (λ b. statements_of b ≡ simple_statements (delays.late_arm (delays_view waits.now) (steps_view steps.now))) }
{
    let mut waits = Vec::from_slice(alloc, waits)?;
    let mut block = Block::new(alloc);
    for step in steps {
        let statement = statement(alloc, &waits, step)?;
        block.push(statement)?;
        drop_put(&mut waits, step);
    }
    Ok(block)
}

fn is_kept(change: Change<'_, '_>, delayed: Delayed) -> bool
    ensures { result ≡ is_left_in_arms change.entry (delayed_view delayed) }
{
    !spoils(change, delayed)
}

// What a change spoils is written by now.
fn drop_spoiled(waits: &mut Vec<Delayed>, change: Change<'_, '_>)
    ensures { delays_view waits.new.items ≡ delays.those (is_left_in_arms change.entry) (delays_view waits.old.items) }
{
    waits.retain(|delayed| is_kept(change, *delayed));
}

// In the arms nothing waits that is written before both.
#[tactic(auto, using(crate::proofs::Waiting::left_are))]
fn choice<'a, 's>(
    alloc: Global,
    waits: &[Delayed],
    test: &Term<'_>,
    first: &'a [Step<'s>],
    second: &'a [Step<'s>],
) -> Result<Stmt, AllocError>
    ensures { IfOk result (λ s. stmt_view s ≡ words.statement (words.either (late_term waits.now test.now) (delays.late_arm (left_in_arms (Either first.entry second.entry) (delays_view waits.now)) (steps_view first.now)) (delays.late_arm (left_in_arms (Either first.entry second.entry) (delays_view waits.now)) (steps_view second.now)))) }
{
    let test = late_test(alloc, waits, test)?;
    let mut left = Vec::from_slice(alloc, waits)?;
    drop_spoiled(&mut left, Change::Either(first, second));
    let yes = arm(alloc, &left, first)?;
    let no = arm(alloc, &left, second)?;
    if_else(alloc, test, yes.into_part(), no.into_part())
}

// `to=value;`
#[tactic(auto, using(crate::proofs::Replacing::nothing_waits))]
fn put_noted(
    block: &mut Block,
    known: &mut Vec<Known>,
    to: Name,
    value: &Term<'_>,
) -> Result<(), AllocError>
    ensures statements { IfOk result (λ _. statements_of block.new ≡ statements_of block.old ++ words.simple_statement (words.put (name_view to) (term_view value.now)) ∷ []) }
    ensures known { IfOk result (λ _. knowns_view known.new.items ≡ knowing.learned (knowns_view known.old.items) (words.put (name_view to) (term_view value.now))) }
{
    block.put(to, value)?;
    learn_word(known, &[], to, value)
}

/// A variable gets a word of two others.
pub(crate) fn put_held(
    block: &mut Block,
    known: &mut Vec<Known>,
    to: Name,
    word: OfTwo,
) -> Result<(), AllocError>
    ensures statements { IfOk result (λ _. statements_of block.new ≡ statements_of block.old ++ words.simple_statement (words.put (name_view to) (of_two_view word)) ∷ []) }
    ensures known { IfOk result (λ _. knowns_view known.new.items ≡ knowing.learned (knowns_view known.old.items) (words.put (name_view to) (of_two_view word))) }
{
    match word {
        OfTwo::Bits(operator, a, b) => {
            let a = term_of(a);
            let b = term_of(b);
            put_noted(block, known, to, &Term::both(operator, &a, &b))
        }
        OfTwo::Sum(a, minus, b) => {
            let a = term_of(a);
            let b = term_of(b);
            put_noted(block, known, to, &sum_of_two(&a, minus, &b))
        }
        OfTwo::Product(a, b) => {
            let a = term_of(a);
            let b = term_of(b);
            put_noted(block, known, to, &Term::product(&a, &b))
        }
        OfTwo::Compare(is_signed, relation, a, b) => {
            let a = term_of(a);
            let b = term_of(b);
            put_noted(
                block,
                known,
                to,
                &Term::compare(is_signed, relation, &a, &b),
            )
        }
    }
}

/// `a+b`, or with a mark `a-b`
pub(crate) fn sum_of_two<'a>(a: &'a Term<'a>, minus: bool, b: &'a Term<'a>) -> Term<'a>
    ensures { term_view result ≡ words.sum (term_view a.now) (words.further minus (term_view b.now) words.no_more) }
{
    if minus {
        Term::minus(a, b)
    } else {
        Term::plus(a, b)
    }
}
