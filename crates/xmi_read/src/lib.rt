//! Metamodels from documents.
#![tactic(auto)]

mod classes;
mod enums;
mod features;
pub mod laws;
mod packages;
pub mod read_metamodel;
pub mod refusal;
mod skipped;
