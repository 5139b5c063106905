//! Definitions that the contracts of several crates cite: single bytes, tables of rows with names,
//! and steps that may fail. It has no code.
#![tactic(auto)]
