//! The outlines of metamodels' files.
#![tactic(auto)]

pub mod form;
pub mod known_text;
pub mod outline;
pub mod role;
pub mod text;
