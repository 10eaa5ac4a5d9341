//! Why two modules aren't linked.
ghost use Rattle.std.specs.Prelude.{◌≡◌};
ghost use Rattle.cmd_link.specs.Joins.{of_link};

use cmd_check_wasm::CheckFault;
use thiserror::Error;
use wasm_link::LinkFault;
use wasm_link_lang::Refused;

/// Why the second module's bytes aren't linked to the first.
#[derive(Clone, Copy, PartialEq, Eq, Debug, Error)]
pub enum JoinFault {
    /// They spell no valid module, or memory ran out.
    #[error("not a valid module")]
    Check(CheckFault),
    /// The two modules aren't linked.
    #[error("the modules can't be linked")]
    Apart(Refused),
}

/// The fault of two modules that aren't linked.
pub fn of_fault(fault: LinkFault) -> JoinFault
    ensures { result ≡ of_link fault }
{
    match fault {
        LinkFault::Refused(why) => JoinFault::Apart(why),
        LinkFault::Memory => JoinFault::Check(CheckFault::Memory),
    }
}
