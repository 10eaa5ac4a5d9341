//! Worked rows of words, heaps, observations, scripts, command lines and files, as tests of the calls that give them.
#![tactic(auto)]

#[cfg(test)]
mod command_lines;
#[cfg(test)]
mod files;
#[cfg(test)]
mod heap;
#[cfg(test)]
mod observations;
#[cfg(test)]
mod printed;
#[cfg(test)]
mod replies;
#[cfg(test)]
mod rows;
#[cfg(test)]
mod scripts;
#[cfg(test)]
mod types;
#[cfg(test)]
mod words;
