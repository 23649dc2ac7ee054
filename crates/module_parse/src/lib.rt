//! Modules, read from a text.
#![tactic(auto)]

pub mod parse;
mod reading;
