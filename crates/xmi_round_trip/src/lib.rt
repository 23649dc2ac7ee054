//! What is written of a model is read back: the law that joins the writer of models to their reader.
#![tactic(auto)]

pub mod laws;
