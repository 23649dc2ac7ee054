//! The tokens of a module's text, and the trees that modules and expressions are read into.
#![tactic(auto)]

mod cursor;
pub mod expr;
pub mod front;
pub mod judge;
pub mod kind;
pub mod laws;
pub mod lex;
pub mod module;
pub mod name;
mod scan;
mod state;
pub mod statements;
pub mod token;
