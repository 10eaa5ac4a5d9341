//! Calls and returns.
ghost use Rattle.std.specs.Prelude.{◌≡◌, ◌+◌, [], IfOk, IfNone, slice_get, length};
ghost use Rattle.std.specs.Bool.{OnTrue};
ghost use Rattle.session_lang.specs.Views.{end_of};
ghost use Rattle.asm_run_code.specs.Machine.{Came, Leads, enters, gives_back};
ghost use Rattle.asm_run_code.specs.Sessions.{begins};
ghost use Rattle.asm_run_steps.specs.Worlds.{world_of};
ghost use Rattle.asm_run_steps.specs.Linked.{codes_in};
ghost use Rattle.asm_run_steps.specs.States.{callers_of, state_in, state_of};
ghost use Rattle.asm_run_steps.specs.Flows.{entered_as, given_as, left_to, resumed, ResumedCallers};
ghost use Rattle.asm_run_steps.specs.Runs.{HasEnded, Comes, CameTo};
ghost use Rattle.asm_run_steps.specs.declared.flow.Leaving.TheVariants as leavings;

use crate::bodies::run_ops;
use crate::ended::Ended;
use crate::flow::Leaving;
use crate::linked::Linked;
use crate::words::Words;
use crate::world::World;
use std::alloc::{AllocError, Global};

/// Where a function goes on once the one that it called has ended.
#[derive(Clone, Copy)]
pub struct Caller {
    pub function: usize,
    pub at: u32,
    pub base: usize,
}

/// The function that runs, the address of its next operation, its words and those of its callers, the callers with the innermost
/// last, and what they change.
#[derive(Drop)]
pub struct Machine<'a> {
    pub function: usize,
    pub at: u32,
    pub words: Words,
    pub callers: Vec<Caller>,
    pub world: World<'a>,
}

impl<'a> Machine<'a> {
    /// A machine that runs nothing yet. It takes no memory.
    pub fn new(alloc: Global, world: World<'a>) -> Machine<'a>
        ensures { state_of result ≡ state_in 0 0 [] (record { all = []; base = 0 }) (world_of world.entry) }
    {
        Machine {
            function: 0,
            at: 0,
            words: Words::new(alloc),
            callers: Vec::new(alloc),
            world,
        }
    }

    /// The world that it leaves.
    pub fn into_world(self) -> World<'a>
        ensures { result ≡ self.entry.world }
    {
        self.world
    }

    // At the beginning of a function, whose slots begin where those of the one that runs do. False where there is none.
    fn enter(&mut self, linked: Linked<'_>, function: u32) -> Result<bool, AllocError>
        ensures entered { IfOk result (λ entered. entered_as entered (state_of self.new)
            ≡ enters (slice_get (codes_in linked.entry).functions function) function self.old.words.base (callers_of self.old.callers.items) (state_of self.old)) }
        ensures world { self.new.world ≡ self.old.world }
        ensures callers { self.new.callers.items ≡ self.old.callers.items }
    {
        let Some(entered) = linked.functions.get(function as usize) else {
            return Ok(false);
        };
        let Ok(at) = u32::try_from(entered.code.len()) else {
            return Err(AllocError);
        };
        self.words.put_all(entered.params, entered.firsts)?;
        self.function = function as usize;
        self.at = at;
        Ok(true)
    }

    // Calls a function with its arguments from a slot on. False where there is none.
    fn call_from(
        &mut self,
        linked: Linked<'_>,
        function: u32,
        first: u32,
    ) -> Result<bool, AllocError>
        ensures entered { IfOk result (λ entered. entered_as entered (state_of self.new)
            ≡ left_to (codes_in linked.entry) (leavings.Call function first) (end_of self.old.world.ending) (state_of self.old)) }
        ensures world { self.new.world ≡ self.old.world }
        ensures callers { IfOk result (λ _. length self.new.callers.items ≡ length self.old.callers.items + 1) }
    {
        let caller = Caller {
            function: self.function,
            at: self.at,
            base: self.words.base(),
        };
        self.callers.push(caller)?;
        self.words.enter(first)?;
        let entered = self.enter(linked, function)?;
        Ok(entered)
    }

    // Gives a word back to the caller. False where there is none.
    fn give(&mut self, word: u32) -> Result<bool, AllocError>
        ensures given { IfOk result (λ given. given_as given word (state_of self.new) ≡ gives_back (callers_of self.old.callers.items) word (state_of self.old)) }
        ensures world { self.new.world ≡ self.old.world }
        ensures callers { IfOk result (λ given. OnTrue given (length self.new.callers.items + 1 ≡ length self.old.callers.items)) }
    {
        let Some(caller) = self.callers.pop() else {
            return Ok(false);
        };
        self.words.put(0, word)?;
        self.words.set_base(caller.base);
        self.function = caller.function;
        self.at = caller.at;
        Ok(true)
    }

    // What becomes of a function that left off: another one goes on, or the host's call has ended.
    fn resume(&mut self, linked: Linked<'_>, how: Leaving) -> Result<Option<Ended>, AllocError>
        ensures came { IfOk result (λ ended. resumed ended (end_of self.old.world.ending) (state_of self.new)
            ≡ left_to (codes_in linked.entry) how (end_of self.old.world.ending) (state_of self.old)) }
        ensures world { self.new.world ≡ self.old.world }
        ensures callers { IfOk result (λ ended. IfNone ended (ResumedCallers how (length self.old.callers.items) (length self.new.callers.items))) }
    {
        match how {
            Leaving::Call(function, first) => {
                if self.call_from(linked, function, first)? {
                    Ok(None)
                } else {
                    Ok(Some(Ended::Lost))
                }
            }
            Leaving::Give(word) => {
                if self.give(word)? {
                    Ok(None)
                } else {
                    Ok(Some(Ended::Back(word)))
                }
            }
            Leaving::Unpaid => Ok(Some(Ended::Unpaid)),
            Leaving::Halted => Ok(Some(Ended::Halted)),
            Leaving::Lost => Ok(Some(Ended::Lost)),
        }
    }

    // Runs until the host's call has ended.
    fn run(&mut self, alloc: Global, linked: Linked<'_>) -> Result<Ended, AllocError>
        ensures { IfOk result (λ ended. (r : Came) → HasEnded r → Leads (codes_in linked.entry) (state_of self.old) r
            → CameTo ended (end_of self.new.world.ending) (state_of self.new) r) }
    {
        'functions: loop {
            let Some(function) = linked.functions.get(self.function) else {
                return Ok(Ended::Lost);
            };
            let left = run_ops(
                alloc,
                linked,
                function.code,
                self.at,
                &mut self.words,
                &mut self.world,
            )?;
            self.at = left.at;
            if let Some(ended) = self.resume(linked, left.how)? {
                return Ok(ended);
            }
        }
    }

    /// A call of the host, which takes a unit, with the words of its arguments. For want of memory the machine is lost.
    pub fn call(
        &mut self,
        alloc: Global,
        linked: Linked<'_>,
        function: u32,
        arguments: &[u32],
    ) -> Result<Ended, AllocError>
        ensures { IfOk result (λ ended. (r : Came) → HasEnded r → Comes (codes_in linked.entry) (begins (codes_in linked.entry) function arguments.now (state_of self.old)) r
            → CameTo ended (end_of self.new.world.ending) (state_of self.new) r) }
    {
        if !self.world.pay() {
            return Ok(Ended::Unpaid);
        }
        self.words.clear();
        self.callers.clear();
        self.words.put_all(0, arguments)?;
        if !self.enter(linked, function)? {
            return Ok(Ended::Lost);
        }
        let ended = self.run(alloc, linked)?;
        Ok(ended)
    }
}
