//! Worked rows of both languages: modules that are taken or refused, linked, and run with scripts, by the whole program; modules of
//! WebAssembly that are read and written.
#![tactic(auto)]

#[cfg(test)]
mod binaries;
#[cfg(test)]
mod calls;
#[cfg(test)]
mod checks;
#[cfg(test)]
mod commands;
#[cfg(test)]
mod faults;
#[cfg(test)]
mod fronts;
#[cfg(test)]
mod large;
#[cfg(test)]
mod limits;
#[cfg(test)]
mod link_limits;
#[cfg(test)]
mod links;
#[cfg(test)]
mod modules;
#[cfg(test)]
mod pieces;
#[cfg(test)]
mod program;
#[cfg(test)]
mod recipes;
#[cfg(test)]
mod rows;
#[cfg(test)]
mod sessions;
#[cfg(test)]
mod texts;
#[cfg(test)]
mod translations;
#[cfg(test)]
mod translations_back;
#[cfg(test)]
mod writing;
