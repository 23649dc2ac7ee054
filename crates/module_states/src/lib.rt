//! Where the reading of a module stands, as the states of a machine.
#![tactic(auto)]

pub mod content;
pub mod next;
pub mod parts;
pub mod wanted;
