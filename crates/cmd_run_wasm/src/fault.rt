//! Why a module isn't run.
use cmd_check_wasm::CheckFault;
use thiserror::Error;
use wasm_validate::Outside;

/// Why the bytes are no module that is run.
#[derive(Clone, Copy, PartialEq, Eq, Debug, Error)]
pub enum RunFault {
    /// They spell no valid module, or memory ran out.
    #[error("not a valid module")]
    Check(CheckFault),
    /// The module is valid, and outside what is run.
    #[error("a module that isn't run")]
    Outside(Outside),
}
