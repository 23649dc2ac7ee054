//! Modules, printed as canonical text.
#![tactic(auto)]

pub mod print;
