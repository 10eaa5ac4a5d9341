//! Straight code whose words may wait in place of the variables of operands.
ghost use Rattle.std.specs.Prelude.{◌≡◌, ◌&&◌, not, false, [], ◌∷◌, ◌++◌, Some, None, length, nat_lt, option_map, IfOk};
ghost use Rattle.wasm2js_translation.specs.Words as words;
ghost use Rattle.wasm2js_translation.specs.Words.{simple_statements, statements};
ghost use Rattle.wasm2js_translation.specs.Delays as delays;
ghost use Rattle.wasm2js_translation.specs.Known as knowing;
ghost use Rattle.wasm2js_nodes.specs.Names.{name_view, fixed_view};
ghost use Rattle.wasm2js_terms.specs.Views.{term_view, terms_view};
ghost use Rattle.wasm2js_terms.specs.Atoms.{atom_view};
ghost use Rattle.wasm2js_terms.specs.Waits.{delays_view};
ghost use Rattle.wasm2js_terms.specs.Held.{held_view, all_held, word_view};
ghost use Rattle.wasm2js_build.specs.Blocks.{statements_of};
ghost use Rattle.wasm2js_build.specs.Steps.{step_view, steps_view, name_in};
ghost use Rattle.wasm2js_build.specs.Growing.{one, waits_of, known_of, held_of, nothing_held, late_at, late_state, late_of, after_late, state_of, state_at_once, taking, lights_in};

use crate::block::Block;
use crate::light::{LightBlock, put_held, term_of};
use crate::steps::Step;
use std::alloc::{AllocError, Global};
use std::mem;
use wasm2js_nodes::{Fixed, Name, same_name};
use wasm2js_terms::{
    Atom, Delayed, Held, Known, Term, Word, atom_of, drop_name, has_room, held_without, is_operand,
    keep_into_block, number_at, word_at,
};

/// A list of statements that grows at its end, the words that wait then, the light ones and the one that is held, and what is known of
/// variables, the oldest first.
#[derive(Drop)]
pub struct LateBlock {
    pub block: Block,
    pub waits: Vec<Delayed>,
    pub held: Option<Held>,
    pub known: Vec<Known>,
}

impl LateBlock {
    /// No statement, and nothing that waits.
    pub fn new(alloc: Global) -> LateBlock
        ensures { late_state result ≡ late_at [] [] [] }
    {
        LateBlock {
            block: Block::new(alloc),
            waits: Vec::new(alloc),
            held: None,
            known: Vec::new(alloc),
        }
    }

    // The light words that wait are written.
    fn write_lights(&mut self) -> Result<(), AllocError>
        ensures statements { IfOk result (λ _. statements_of self.new.block ≡ statements_of self.old.block ++ simple_statements (delays.written (lights_in self.old))) }
        ensures held { self.new.held ≡ self.old.held }
    {
        for delayed in &self.waits {
            self.block.put(delayed.name, &term_of(delayed.word))?;
        }
        Ok(())
    }

    // The word that is held is written.
    fn write_held(&mut self) -> Result<(), AllocError>
        ensures statements { IfOk result (λ _. statements_of self.new.block ≡ statements_of self.old.block ++ simple_statements (delays.written (all_held self.old.held))) }
    {
        match self.held {
            Some(held) => put_held(&mut self.block, &mut self.known, held.name, held.word),
            None => Ok(()),
        }
    }

    /// All that waits is written, and nothing is known then.
    pub fn write_all(&mut self) -> Result<(), AllocError>
        ensures statements { IfOk result (λ _. statements_of self.new.block ≡ statements_of self.old.block ++ simple_statements (delays.written (waits_of self.old))) }
        ensures held { IfOk result (λ _. held_of self.new ≡ nothing_held) }
    {
        self.write_lights()?;
        self.write_held()?;
        self.forget();
        Ok(())
    }

    /// All that waits is let go unwritten, and nothing is known then.
    pub fn forget(&mut self)
        ensures held { held_of self.new ≡ nothing_held }
        ensures block { self.new.block ≡ self.old.block }
    {
        self.waits.clear();
        self.held = None;
        self.known.clear();
    }

    /// The word that stands for a variable.
    pub fn word_at(&self, name: Name) -> Word
        ensures { word_view result ≡ delays.at_hand (waits_of self.now) (name_view name) }
    {
        word_at(&self.waits, self.held, name)
    }

    /// The word that stands for a variable, and no longer waits for it.
    pub fn take_out(&mut self, name: Name) -> Word
        ensures word { word_view result ≡ delays.at_hand (waits_of self.old) (name_view name) }
        ensures waits { waits_of self.new ≡ delays.without (name_view name) (waits_of self.old) }
        ensures block { self.new.block ≡ self.old.block }
        ensures known { self.new.known ≡ self.old.known }
    {
        let word = self.word_at(name);
        drop_name(&mut self.waits, name);
        self.held = held_without(self.held, name);
        word
    }

    /// What stands in a block that begins here, after all that waits is written: no statement yet, and it is
    /// known what was known of variables that are no operands'.
    pub fn begin_block(&mut self) -> Result<LateBlock, AllocError>
        ensures statements { IfOk result (λ _. statements_of self.new.block ≡ statements_of self.old.block ++ simple_statements (delays.written (waits_of self.old))) }
        ensures held { IfOk result (λ _. held_of self.new ≡ nothing_held) }
        ensures inside { IfOk result (λ inner. late_state inner ≡ late_at [] [] (knowing.into_block (known_of self.old))) }
    {
        let alloc = self.block.alloc;
        let mut known = mem::replace(&mut self.known, Vec::new(alloc));
        keep_into_block(&mut known);
        self.write_all()?;
        Ok(LateBlock {
            block: Block::new(alloc),
            waits: Vec::new(alloc),
            held: None,
            known,
        })
    }
}

/// Straight code: where words may wait, and where each is written at once.
#[derive(Drop)]
pub struct Straight {
    text: LightBlock,
    held: Option<Held>,
    is_late: bool,
}

impl Straight {
    /// After what stands in this block and waits there, which is taken out of it.
    pub fn late(text: &mut LateBlock) -> Straight
        ensures { state_of result ≡ late_state text.old }
    {
        let alloc = text.block.alloc;
        Straight {
            text: LightBlock {
                block: mem::replace(&mut text.block, Block::new(alloc)),
                waits: mem::replace(&mut text.waits, Vec::new(alloc)),
                known: mem::replace(&mut text.known, Vec::new(alloc)),
            },
            held: text.held,
            is_late: true,
        }
    }

    /// After what stands in this block, which is taken out of it, where nothing waits.
    pub fn at_once(block: &mut Block) -> Straight
        ensures { state_of result ≡ state_at_once (statements_of block.old) }
    {
        let alloc = block.alloc;
        Straight {
            text: LightBlock {
                block: mem::replace(block, Block::new(alloc)),
                waits: Vec::new(alloc),
                known: Vec::new(alloc),
            },
            held: None,
            is_late: false,
        }
    }

    /// The code, and what still waits.
    pub fn into_late(self) -> LateBlock
        ensures { late_state result ≡ late_of self }
    {
        let Straight { text, held, .. } = self;
        let LightBlock {
            block,
            waits,
            known,
        } = text;
        LateBlock {
            block,
            waits,
            held,
            known,
        }
    }

    /// The code.
    pub fn into_block(self) -> Block
        ensures { statements_of result ≡ (state_of self).told }
    {
        self.text.block
    }

    /// The number that waits in place of a variable.
    pub fn number_of(&self, name: Name) -> Option<i64>
        ensures { result ≡ delays.number_at (state_of self.now).waits (name_view name) }
    {
        number_at(&self.text.waits, name)
    }

    // A step behind the word that is held.
    fn act_behind(&mut self, step: &Step<'_>) -> Result<(), AllocError>
        requires { taking (all_held self.old.held) (delays_view self.old.text.waits.items) (step_view step.now) ≡ None }
        ensures late { self.new.is_late ≡ self.old.is_late }
        ensures state { IfOk result (λ _. late_of self.new ≡ after_late (late_of self.old) (words.simply (step_view step.now))) }
    {
        let held = self.held;
        self.held = None;
        self.text.write_held(held)?;
        self.held = self.text.act_among(step)?;
        Ok(())
    }

    // A step where this word is held.
    fn act_on(&mut self, held: Held, step: &Step<'_>) -> Result<(), AllocError>
        requires { self.old.held ≡ Some held }
        ensures late { self.new.is_late ≡ self.old.is_late }
        ensures state { IfOk result (λ _. late_of self.new ≡ after_late (late_of self.old) (words.simply (step_view step.now))) }
    {
        match taken_by(held, &self.text.waits, step) {
            Some(to) => {
                self.held = None;
                self.text.take(to, held)
            }
            None => self.act_behind(step),
        }
    }

    // A step where words may wait.
    fn act_late(&mut self, step: &Step<'_>) -> Result<(), AllocError>
        ensures late { self.new.is_late ≡ self.old.is_late }
        ensures state { IfOk result (λ _. late_of self.new ≡ after_late (late_of self.old) (words.simply (step_view step.now))) }
    {
        match self.held {
            Some(held) => self.act_on(held, step),
            None => self.act_behind(step),
        }
    }

    // A choice where words may wait.
    fn either_late<'a, 's>(
        &mut self,
        test: &Term<'_>,
        first: &'a [Step<'s>],
        second: &'a [Step<'s>],
    ) -> Result<(), AllocError>
        ensures late { self.new.is_late ≡ self.old.is_late }
        ensures state { IfOk result (λ _. late_of self.new ≡ after_late (late_of self.old) (words.either (term_view test.now) (steps_view first.now) (steps_view second.now))) }
    {
        let held = self.held;
        self.held = None;
        self.text.write_held(held)?;
        self.text.either_late(test, first, second)
    }

    /// One more step.
    pub fn act(&mut self, step: &Step<'_>) -> Result<(), AllocError>
        ensures { IfOk result (λ _. state_of self.new ≡ one (state_of self.old) (words.simply (step_view step.now))) }
    {
        if self.is_late {
            self.act_late(step)
        } else {
            self.text.act_at_once(step)
        }
    }

    /// The first steps where the test holds, and else the second ones.
    pub fn either<'a, 's>(
        &mut self,
        test: &Term<'_>,
        first: &'a [Step<'s>],
        second: &'a [Step<'s>],
    ) -> Result<(), AllocError>
        ensures { IfOk result (λ _. state_of self.new ≡ one (state_of self.old) (words.either (term_view test.now) (steps_view first.now) (steps_view second.now))) }
    {
        if self.is_late {
            self.either_late(test, first, second)
        } else {
            self.text.either_at_once(test, first, second)
        }
    }

    /// `to=value;`
    pub fn put(&mut self, to: Name, value: &Term<'_>) -> Result<(), AllocError>
        ensures { IfOk result (λ _. state_of self.new ≡ one (state_of self.old) (words.simply (words.put (name_view to) (term_view value.now)))) }
    {
        self.act(&Step::Put(to, value))
    }

    /// `to=helper(arguments)|0;`
    pub fn ask(&mut self, to: Name, helper: Fixed, arguments: &[Term<'_>]) -> Result<(), AllocError>
        ensures { IfOk result (λ _. state_of self.new ≡ one (state_of self.old) (words.simply (words.ask (name_view to) (fixed_view helper) (terms_view arguments.now)))) }
    {
        self.act(&Step::Ask(to, helper, arguments))
    }

    /// `helper(arguments);`
    pub fn tell(&mut self, helper: Fixed, arguments: &[Term<'_>]) -> Result<(), AllocError>
        ensures { IfOk result (λ _. state_of self.new ≡ one (state_of self.old) (words.simply (words.tell (fixed_view helper) (terms_view arguments.now)))) }
    {
        self.act(&Step::Tell(helper, arguments))
    }

    /// `if(value>>>0>most)$trap(kind);`
    pub fn guard(&mut self, value: &Term<'_>, most: u64, kind: u32) -> Result<(), AllocError>
        ensures { IfOk result (λ _. state_of self.new ≡ one (state_of self.old) (words.simply (words.guard (term_view value.now) most kind))) }
    {
        self.act(&Step::Guard(value, most, kind))
    }

    /// `$trap(kind);`
    pub fn stop(&mut self, kind: u32) -> Result<(), AllocError>
        ensures { IfOk result (λ _. state_of self.new ≡ one (state_of self.old) (words.simply (words.stop kind))) }
    {
        self.act(&Step::Stop(kind))
    }

    /// `$u8[at>>0]=value;`
    pub fn write_byte(&mut self, at: &Term<'_>, value: &Term<'_>) -> Result<(), AllocError>
        ensures { IfOk result (λ _. state_of self.new ≡ one (state_of self.old) (words.simply (words.write_byte (term_view at.now) (term_view value.now)))) }
    {
        self.act(&Step::WriteByte(at, value))
    }
}

fn name_of_atom(atom: Atom) -> Option<Name>
    ensures { option_map name_view result ≡ name_in (atom_view atom) }
{
    match atom {
        Atom::Read(name) => Some(name),
        Atom::Number(_) => None,
    }
}

// The name of a term that is a variable.
fn name_of(term: &Term<'_>) -> Option<Name>
    ensures { option_map name_view result ≡ name_in (term_view term.now) }
{
    match atom_of(&[], term) {
        Some(atom) => name_of_atom(atom),
        None => None,
    }
}

// Whether a variable may stand for one of an operand.
fn may_stand_in(waits: &[Delayed], name: Name) -> bool
    ensures { result ≡ (not (delays.is_operand (name_view name)) && nat_lt (length (delays_view waits.now)) delays.most_waiting) }
{
    !is_operand(name) && has_room(waits)
}

// Whether the operand of the word that is held is what is put into a variable of no operand.
fn takes(held: Held, waits: &[Delayed], to: Name, value: &Term<'_>) -> bool
    ensures { result ≡ delays.takes (held_view held ∷ []) (delays_view waits.now) (words.put (name_view to) (term_view value.now)) }
{
    match name_of(value) {
        Some(name) => same_name(held.name, name) && may_stand_in(waits, to),
        None => false,
    }
}

// The variable that gets the word that is held.
fn taken_by(held: Held, waits: &[Delayed], step: &Step<'_>) -> Option<Name>
    ensures { option_map (λ n. (name_view n, held_view held)) result ≡ taking (held_view held ∷ []) (delays_view waits.now) (step_view step.now) }
{
    match step {
        Step::Put(to, value) if takes(held, waits, *to, value) => Some(*to),
        _ => None,
    }
}
