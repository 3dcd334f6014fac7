//! Checks on trees.
#![tactic(auto)]

mod names;
mod shapes;
mod valid;
mod words;

pub use names::has_good_names;
pub use shapes::has_good_shape;
pub use valid::{is_script_valid, is_valid};
