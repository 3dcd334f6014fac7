//! What is told of texts: what a pass makes of them, whether they are the same, their names and weight, and what is known of their
//! expressions.
#![tactic(auto)]

mod compare;
mod names;
mod passes;
mod questions;
mod whole;

pub use compare::compared;
pub use names::{named, weighed};
pub use passes::TextPass;
pub use questions::{Question, known};
pub use whole::{Asked, of_both, of_module, push_refusal};
