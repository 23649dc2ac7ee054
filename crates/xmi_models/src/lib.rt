//! Models from documents.
#![tactic(auto)]

pub mod attribute;
mod class_fault;
pub mod fault;
mod feature_fault;
pub mod first_fault;
mod foreign;
pub mod outline;
pub mod part;
mod scope;
mod seen;
mod stray;
#[cfg(test)]
mod tests;
pub mod value;
mod value_fault;
