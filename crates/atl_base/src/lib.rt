//! Texts, places, faults, typed numbers and the step counter, which every other crate stands on.
#![tactic(auto)]

pub mod fault;
pub mod numbers;
pub mod place;
pub mod steps;
pub mod text;
mod xml_text;
