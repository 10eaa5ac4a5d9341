//! Definitions: what a script says, line by line, and the text that is printed of a run.
#![tactic(auto)]
