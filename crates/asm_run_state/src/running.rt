//! Runs the calls of a script.
ghost use Rattle.std.specs.Prelude.{◌≡◌, IfOk, map};
ghost use Rattle.session_lang.specs.Observation.{done, ended, running};
ghost use Rattle.session_lang.specs.Views.{call_of, end_of};
ghost use Rattle.session_replies.specs.Views.{seen_of};
ghost use Rattle.asm_tree.specs.Views.{module_view};
ghost use Rattle.asm_run_code.specs.Modules.{codes_of};
ghost use Rattle.asm_run_steps.specs.Worlds.{world_of};
ghost use Rattle.asm_run_steps.specs.Linked.{codes_in};
ghost use Rattle.asm_run_steps.specs.States.{state_of};
ghost use Rattle.asm_run_state.specs.Session.{callees_of, IsSession};

use crate::host_calls::{Hosted, host_call};
use asm_run_steps::{Linked, Machine, World};
use asm_tree::Module;
use session_lang::{CallLine, End};
use session_replies::Seen;
use std::alloc::{AllocError, Global};
use std::mem;

/// What is seen of the module where the script makes these calls, of these functions, in a world; None where the session goes
/// wrong.
pub fn run(
    alloc: Global,
    module: &Module,
    linked: Linked<'_>,
    callees: &[Option<u32>],
    world: World<'_>,
    calls: &[CallLine],
) -> Result<Option<Seen>, AllocError>
    requires codes { codes_in linked ≡ codes_of (module_view «module».now) }
    requires callees { callees.now ≡ callees_of (module_view «module».now) (map call_of calls.now) }
    ensures { IfOk result (λ seen. IsSession (module_view «module».now) (map call_of calls.now) (world_of world.entry) seen) }
{
    let mut machine = Machine::new(alloc, world);
    for (i, call) in calls.iter().enumerate() {
        match host_call(alloc, module, linked, callees[i], &mut machine, call)? {
            Hosted::Goes => {}
            Hosted::Ends => return Ok(Some(over(machine))),
            Hosted::Stops => return Ok(Some(stopped(machine))),
            Hosted::Wrong => return Ok(None),
        }
    }
    let seen = finished(machine);
    Ok(Some(seen))
}

// What is seen where the session is over, as the world's ending says.
fn over(machine: Machine<'_>) -> Seen
    ensures { seen_of result ≡ ended (state_of machine.entry).events (end_of machine.entry.world.ending) (state_of machine.entry).heap }
{
    let mut world = machine.into_world();
    let ending = mem::replace(&mut world.ending, End::Done);
    world.ended(ending)
}

// .. where a unit is due and none is left
fn stopped(machine: Machine<'_>) -> Seen
    ensures { seen_of result ≡ running (state_of machine.entry).events }
{
    machine.into_world().running()
}

// .. where no call is left
fn finished(machine: Machine<'_>) -> Seen
    ensures { seen_of result ≡ ended (state_of machine.entry).events done (state_of machine.entry).heap }
{
    machine.into_world().ended(End::Done)
}
