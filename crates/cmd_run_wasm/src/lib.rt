//! Scripts as texts, run on modules of WebAssembly: which modules can be run, which scripts are refused, and what is printed.
#![tactic(auto)]

mod fault;
mod modules;
mod runs;

pub use fault::RunFault;
pub use modules::runnable_module;
pub use runs::run_script;
