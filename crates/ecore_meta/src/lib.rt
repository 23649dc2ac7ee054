//! Metamodels: packages, classes, features and enumerations after Ecore, and look-ups of what a class inherits.
#![tactic(auto)]

mod inherited;
pub mod metamodel;
mod names;
mod order;
pub mod parts;
#[cfg(test)]
mod tests;
