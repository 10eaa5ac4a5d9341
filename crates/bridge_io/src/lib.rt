//! Files, sinks, and how often they failed: what the outside is to a program.
#![tactic(auto)]

mod memory_files;
mod memory_sink;
mod reading;
mod steady_files;
mod steady_sink;
mod stored;
mod writing;

pub use memory_files::MemFiles;
pub use memory_sink::MemSink;
pub use reading::{Files, GatherFault, ReadAnswer, gather};
pub use steady_files::SteadyFiles;
pub use steady_sink::SteadySink;
pub use writing::{Failed, Sink, put_all};
