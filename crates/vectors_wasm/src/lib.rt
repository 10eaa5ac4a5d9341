//! Worked rows of modules of WebAssembly: read, written, listed, judged, and what single instructions do.
#![tactic(auto)]

#[cfg(test)]
mod codes;
#[cfg(test)]
mod jumps;
#[cfg(test)]
mod listings;
#[cfg(test)]
mod locals;
#[cfg(test)]
mod modules;
#[cfg(test)]
mod plain;
#[cfg(test)]
mod reading;
#[cfg(test)]
mod rows;
#[cfg(test)]
mod validity;
#[cfg(test)]
mod verdicts;
#[cfg(test)]
mod writing;
