//! Tests: short forms of whole texts, written and shortened again.
#![tactic(auto)]

#[cfg(test)]
mod short_forms;
