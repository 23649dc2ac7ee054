//! What the references of a metamodel's file name.
#![tactic(auto)]

mod classifiers;
pub mod data_type;
pub mod file;
mod literals;
pub mod own;
mod owns;
pub mod target;
