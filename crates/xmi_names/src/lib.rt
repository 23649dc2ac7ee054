//! The names of a metamodel, looked up in tables.
#![tactic(auto)]

pub mod lookups;
mod skipped;
mod tables;
pub mod vocabulary;
