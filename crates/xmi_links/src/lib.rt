//! Models from documents: the objects of a file, the references between them, and the model that they make.
#![tactic(auto)]

mod ends;
mod ids;
mod joined;
pub mod laws;
mod links;
mod objects;
pub mod read_model;
mod reference_fault;
mod references;
pub mod refusal;
#[cfg(test)]
mod tests;
mod tokens;
