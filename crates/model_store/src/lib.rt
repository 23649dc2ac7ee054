//! Models: objects of a metamodel's classes, their slots, what contains what, and the order and paths that follow.
#![tactic(auto)]

mod adding;
pub mod attributes;
mod containing;
mod copies;
mod draft;
mod fragments;
mod guesses;
pub mod held;
pub mod laws;
pub mod lookups;
mod met;
pub mod model;
mod order;
mod pairs;
pub mod parts;
mod path;
pub mod refusal;
mod roots;
pub mod row;
pub mod sketch;
mod store;
#[cfg(test)]
mod tests;
pub mod texts;
mod types;
