//! The grammar of modules: its keywords, its marks, and what is written in them.
#![tactic(auto)]

pub mod keyword;
