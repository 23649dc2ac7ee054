//! What lies outside a run: files by path, and a place where bytes go. Each is a trait, with one implementation in memory
//! whose calls fail where they are told to, one in memory that never fails, and one over the operating system.
#![tactic(auto)]

pub mod files;
pub mod host;
pub mod memory;
mod path_table;
mod plan;
pub mod sink;
pub mod sure;
#[cfg(test)]
mod tests;
