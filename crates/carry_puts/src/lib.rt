//! What is put at reads, one after another.
#![tactic(auto)]

mod putting;
mod value;
mod walk;

pub use walk::Walked;
