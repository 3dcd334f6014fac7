//! Which names of a tree the scopes round them would catch, if texts alone told names apart, and
//! whether the tree is valid.
#![tactic(auto)]

mod captures;
mod reach;
mod scopes;
mod table;

pub use captures::{Fault, first_fault, first_fault_of_script};
