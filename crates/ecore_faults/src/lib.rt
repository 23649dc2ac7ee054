//! The first thing that is wrong with a metamodel's file.
#![tactic(auto)]

mod earlier_names;
mod element_fault;
pub mod fault;
pub mod first_fault;
mod number_fault;
mod opposite;
mod type_fault;
