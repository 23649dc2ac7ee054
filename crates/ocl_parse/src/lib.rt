//! Expressions, read from the tokens of a module's text.
#![tactic(auto)]

mod close;
pub mod frame;
mod kind_step;
pub mod laws;
mod operand;
pub mod parse;
mod pending;
pub mod refusal;
pub mod sign;
pub mod stack;
pub mod step;
pub mod symbol;
pub mod variable;
