//! Jumps that may leave statements: whether one of some kinds stands in them, aimed at something outside.
#![tactic(auto)]

mod aims;
mod walk;

pub use aims::{Jumps, Labels, Sought};
pub use walk::{has_jump, have_jumps};
