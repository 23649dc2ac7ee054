//! The elements of modules, helpers and rules, read token by token: the steps of the machine up to the blocks of rules.
#![tactic(auto)]

pub mod expr;
pub mod head;
pub mod helper;
pub mod item;
pub mod kind;
pub mod params;
pub mod rule;
pub mod target;
