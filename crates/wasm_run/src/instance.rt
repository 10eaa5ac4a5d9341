// Instances of modules.

ghost use Rattle.std.specs.Prelude.{◌≡◌, None, IfOk};
ghost use Rattle.session_lang.specs.Views.{script_of};
ghost use Rattle.session_replies.specs.Views.{seen_of};
ghost use Rattle.wasm_lang.specs.Shape.{IsShaped};
ghost use Rattle.wasm_tree.specs.Views.{module_of};
ghost use Rattle.wasm_lang_valid.specs.Runnable.{not_runnable};
ghost use Rattle.wasm_lang_valid.specs.Validity.{IsValidModule};
ghost use Rattle.wasm_lang_exec.specs.Session.{wasm};
ghost use Rattle.wasm_lang_exec.specs.Fits.{misfit};
ghost use Rattle.wasm_laws_sound.specs.Laws.{IsWhole};
ghost use Rattle.wasm_lang_exec.specs.Places.{GoesOn, place, seen};
ghost use Rattle.wasm_laws_sound.specs.TypedPlaces.{IsTypedPlace};
ghost use Rattle.wasm_run_frames.specs.Views.{machine_of};
ghost use Rattle.wasm_run.specs.Exports.{callees_of};
ghost use Rattle.wasm_run.specs.Runs.{seen_as};

use crate::first::first_state;
use crate::session::run_session;
use sem_words::List;
use session_lang::{End, Script};
use session_replies::{Replies, Seen};
use std::alloc::{AllocError, Global};
use std::marker::Model;
use wasm_lang_exec::fitting_laws;
use wasm_laws_sound::laws::sessions_go_on;
use wasm_run_frames::Machine;
use wasm_run_machine::Function;
use wasm_run_operands::{Operands, State};
use wasm_run_start::functions_of;
use wasm_tree::Module;
use wasm_validate::Valid;

/// A module that is ready to run with a script. It has all the memory that the session writes to.
#[derive(Drop)]
pub struct Instance<'a> {
    alloc: Global,
    module: &'a Module<'a>,
    script: &'a Script,
    functions: Vec<Function>,
    // the functions that the script's calls name
    callees: Vec<Option<u32>>,
    state: State,
}

impl<'a> Model for Instance<'a> {
    ghost use Rattle.session_lang.specs.Views.{script_of};
    ghost use Rattle.wasm_tree.specs.Views.{module_of};
    ghost use Rattle.wasm_run.specs.Instances.{InstancePlain, IsInstance};

    ghost Value = { InstancePlain };

    ghost view = { λ i. record { code = module_of i.«module».now; script = script_of i.script.now } };

    ghost invariant = { λ i. IsInstance (module_of i.«module».now) (script_of i.script.now) i.functions.items i.callees.items i.state };
}

// What is seen of a session that has this end, or none.
fn observed(machine: Machine<'_>, end: Option<End>) -> Seen
    ensures { seen_of result ≡ seen_as end (machine_of machine.entry).store }
{
    let Machine { state, events, .. } = machine;
    Seen {
        events,
        end,
        heap: state.memory,
    }
}

// The module, of which each function has a body.
#[tactic(auto, using(crate::proofs::Whole::shaped_whole))]
fn whole_module<'a>(valid: &'a Valid<'a>) -> &'a Module<'a>
    ensures given { module_of result.now ≡ valid.now }
    ensures valid { IsValidModule valid.now }
    ensures whole { IsWhole valid.now }
    ensures shaped { IsShaped valid.now }
{
    valid.module()
}

impl<'a> Instance<'a> {
    /// An instance of a module that can be run, with a script that fits it and the functions that its calls name. It takes memory, table and globals, so that nothing that
    /// the session stores can be refused later.
    pub fn start(
        alloc: Global,
        valid: &'a Valid<'a>,
        script: &'a Script,
        callees: Vec<Option<u32>>,
    ) -> Result<Instance<'a>, AllocError>
        requires runnable { not_runnable valid.now ≡ None }
        requires fits { misfit valid.now (script_of script.now) ≡ None }
        requires callees { callees.items ≡ callees_of valid.now (script_of script.now).calls }
        ensures code { IfOk result (λ i. i.code ≡ valid.now) }
        ensures script { IfOk result (λ i. i.script ≡ script_of script.now) }
    {
        let module = whole_module(valid);
        let functions = functions_of(alloc, module)?;
        let state = first_state(alloc, module, script)?;
        Ok(Instance {
            alloc,
            module,
            script,
            functions,
            callees,
            state,
        })
    }

    /// What is seen of the session after so many reductions: instantiation, the start function and the script's calls are run.
    /// After any number of reductions the session has ended or has a next one, in which no operand is missing or of another type.
    pub fn run(self, steps: u64) -> Result<Seen, AllocError>
        ensures meaning { IfOk result (λ s. seen_of s ≡ wasm self.entry.code self.entry.script steps) }
        ensures seen { wasm self.entry.code self.entry.script steps ≡ seen (place self.entry.code self.entry.script steps) }
        ensures goes_on { GoesOn self.entry.code (place self.entry.code self.entry.script steps) }
        ensures typed { IsTypedPlace self.entry.code (place self.entry.code self.entry.script steps) }
    {
        sessions_go_on();
        fitting_laws();
        let alloc = self.alloc;
        let mut machine = Machine {
            operands: Operands::new(alloc),
            locals: Vec::new(alloc),
            function: 0,
            at: 0,
            enclosing: Vec::new(alloc),
            state: self.state,
            events: List::new(alloc),
            replies: Replies::of(self.script),
            ending: End::Done,
        };
        let functions = self.functions.as_slice();
        let end = run_session(
            alloc,
            self.module,
            functions,
            self.callees.as_slice(),
            self.script,
            &mut machine,
            steps,
        )?;
        Ok(observed(machine, end))
    }
}
