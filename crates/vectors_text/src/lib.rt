//! Worked rows of the text of asm.js: tokens, texts that are read and printed, verdicts with their places, tables, slots of names.
#![tactic(auto)]

#[cfg(test)]
mod pieces;
#[cfg(test)]
mod rows;
#[cfg(test)]
mod slots;
#[cfg(test)]
mod texts;
#[cfg(test)]
mod tokens;
#[cfg(test)]
mod verdicts;
