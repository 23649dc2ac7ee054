//! Models as files: the XMI text of a model.
#![tactic(auto)]

mod cycles;
mod elements;
mod heads;
pub mod named;
mod parts;
pub mod refusal;
mod setting;
#[cfg(test)]
mod tests;
mod values;
mod writing;

pub use writing::write_model;
