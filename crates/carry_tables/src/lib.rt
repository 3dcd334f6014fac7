//! What is known of the names of a tree, in tables by number.
#![tactic(auto)]

mod scoped;
mod table;

pub use scoped::Scoped;
pub use table::NameTable;
