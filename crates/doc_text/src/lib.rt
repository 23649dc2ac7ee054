//! Documents: the trees of the XML profile that models, metamodels and code files are written in, how a
//! document is read, and how one is written.
#![tactic(auto)]

mod characters;
mod cursor;
mod declarations;
pub mod encoding;
mod escape;
mod growing;
pub mod laws;
pub mod pairs;
mod reading;
pub mod refusal;
mod source;
pub mod state;
pub mod symbol;
#[cfg(test)]
mod tests;
pub mod tree;
mod write;

pub use escape::{Escapes, push_escaped};
pub use reading::read_doc;
pub use write::{DECLARATION, XMI, push_element, push_end_tag, push_opening, write_doc};
