//! Sessions.

ghost use Rattle.std.specs.Prelude.{◌≡◌, None, Some, IfOk};
ghost use Rattle.heap_lang.specs.Heap.{IsHeapLength};
ghost use Rattle.session_lang.specs.Observation.{ObservationPlain};
ghost use Rattle.session_lang.specs.Views.{script_of};
ghost use Rattle.session_replies.specs.Views.{seen_of};
ghost use Rattle.asm_tree.specs.Views.{module_view};
ghost use Rattle.asm_lang_exec.specs.Session.{asm, checked_asm};
ghost use Rattle.asm_lang_exec.specs.Fits.{misfit};
ghost use Rattle.asm_run_state.specs.Session.{callees_of};

use crate::linking::{functions_of, members_of, run_linked};
use asm_run_emit_bodies::{Codes, codes_of};
use asm_run_state::first_world;
use asm_run_steps::World;
use asm_validate::Checked;
use session_lang::Script;
use session_replies::Seen;
use std::alloc::{AllocError, Global};
use std::marker::Model;

/// A session of an accepted module with a heap and a script that fits it, before its first call.
#[derive(Drop)]
pub struct Session<'a> {
    checked: &'a Checked,
    heap_len: u32,
    script: &'a Script,
    flat: Codes,
    // the names of the foreign members by their declarations
    members: Vec<&'a [u8]>,
    callees: Vec<Option<u32>>,
    world: World<'a>,
}

impl<'a> Model for Session<'a> {
    ghost use Rattle.std.specs.Coded.{codes};
    ghost use Rattle.session_lang.specs.Views.{script_of};
    ghost use Rattle.asm_tree.specs.contracts.tree.Expr as exprs;
    ghost use Rattle.asm_tree.specs.contracts.tree.Stmt as stmts;
    ghost use Rattle.asm_run.specs.Linked.{SessionPlain, IsLinked};

    ghost Value = { SessionPlain };

    ghost coded = { Prim.hlevel (codes, exprs.the_row.coded, stmts.the_row.coded) };

    ghost view = { λ s. record { code = s.checked.now; size = s.heap_len; script = script_of s.script.now } };

    ghost invariant = { λ s. IsLinked s.checked.now s.heap_len (script_of s.script.now) s.flat s.members.items s.callees.items s.world };
}

impl<'a> Session<'a> {
    /// Links a module with a heap of this length and a script, of which `fits_asm` said that it fits and which functions its calls
    /// name. It takes the memory of the heap, of the module's variables and of the module's flat code, and while it links that of a map
    /// of the script's lines of globals and of maps of the module's names.
    pub fn link(
        alloc: Global,
        checked: &'a Checked,
        heap_len: u32,
        script: &'a Script,
        callees: Vec<Option<u32>>,
    ) -> Result<Session<'a>, AllocError>
        requires fits { misfit (module_view checked.now) heap_len (script_of script.now) ≡ None }
        requires length { IsHeapLength heap_len }
        requires callees { callees.items ≡ callees_of (module_view checked.now) (script_of script.now).calls }
        ensures code { IfOk result (λ s. s.code ≡ checked.now) }
        ensures size { IfOk result (λ s. s.size ≡ heap_len) }
        ensures script { IfOk result (λ s. s.script ≡ script_of script.now) }
    {
        let module = checked.module();
        let flat = codes_of(alloc, module)?;
        let members = members_of(alloc, module.globals.as_slice())?;
        let world = first_world(alloc, module, heap_len, script, 0)?;
        Ok(Session {
            checked,
            heap_len,
            script,
            flat,
            members,
            callees,
            world,
        })
    }

    /// What is seen of the session with this budget of units. It is never wrong, and each value of an
    /// expression is one of its type.
    pub fn run(self, alloc: Global, budget: u64) -> Result<Seen, AllocError>
        ensures meaning { IfOk result (λ s. asm (module_view self.entry.code) self.entry.size self.entry.script budget ≡ Some (seen_of s)) }
        ensures never_wrong { (seen : ObservationPlain) × (asm (module_view self.entry.code) self.entry.size self.entry.script budget ≡ Some seen) }
        ensures types_hold { checked_asm (module_view self.entry.code) self.entry.size self.entry.script budget ≡ asm (module_view self.entry.code) self.entry.size self.entry.script budget }
    {
        asm_run_laws::flat_sessions();
        asm_laws_sound::laws::accepted_modules();
        let module = self.checked.module();
        let script = self.script;
        let callees = self.callees;
        let members = self.members;
        let flat = self.flat;
        let mut world = self.world;
        world.units = budget;
        let functions = functions_of(alloc, flat.functions.as_slice())?;
        let seen = run_linked(
            alloc,
            module,
            functions.as_slice(),
            flat.tables.as_slice(),
            members.as_slice(),
            callees.as_slice(),
            world,
            script.calls.as_slice(),
        )?;
        match seen {
            Some(seen) => Ok(seen),
            None => unreachable!(),
        }
    }
}
