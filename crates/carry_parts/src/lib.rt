//! What stands for names.
#![tactic(auto)]

mod carry;
mod name;

pub use carry::{Carry, Pass, either};
pub use name::{is_eval, name_of};
