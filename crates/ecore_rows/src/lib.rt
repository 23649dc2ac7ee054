//! The classes and features of a metamodel's file, with what they inherit.
#![tactic(auto)]

pub mod reach;
pub mod repeated;
pub mod rows;
pub mod typed;
