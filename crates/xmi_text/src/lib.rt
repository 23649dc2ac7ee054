//! What elements and their attributes say, as the readers of metamodels and of models share it.
#![tactic(auto)]

pub mod cut;
pub mod keys;
pub mod level;
pub mod markup;
pub mod numbers;
pub mod references;
pub mod scope;
pub mod words;
