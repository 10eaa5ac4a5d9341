//! Definitions: the short form of a module of asm.js, and what callers see of two modules alike.
#![tactic(auto)]
