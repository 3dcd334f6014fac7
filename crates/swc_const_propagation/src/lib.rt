//! Constants put in the places of their names.
#![tactic(auto)]

mod pass;

pub use pass::{ConstPropagation, constant_propagation};
