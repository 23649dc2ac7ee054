//! The laws of reading modules and of their canonical text, over the definitions alone.
#![tactic(auto)]

pub mod laws;
