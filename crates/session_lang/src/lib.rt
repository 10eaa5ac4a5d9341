//! The language in which every statement about runs is said: scripts and which of them fit a module, observations, simulation,
//! and the calling forms of the two translations with their names.
#![tactic(auto)]

mod bytes;
mod comparing;
mod fitting;
mod given;
pub mod laws;
mod lines;
mod naming;
mod observation;
mod script;
mod splitting;

pub use bytes::bytes_are;
pub use comparing::below;
pub use fitting::{fitting_laws, written_laws};
pub use given::is_given;
pub use lines::{earlier, lesser};
pub use naming::{export_name, import_name};
pub use observation::{End, Event, Observation};
pub use script::{CallLine, CallShape, GlobalLine, Misfit, Reply, ReplyLine, Script, WriteLine};
pub use splitting::split_script;
