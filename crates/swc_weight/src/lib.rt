//! How heavy a tree is: what simplification makes smaller.
#![tactic(auto)]

mod weights;

pub use weights::{weight, weight_of_script};
