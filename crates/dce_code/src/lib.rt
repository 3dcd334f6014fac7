//! The rules of the tree shaker, at each node and list.
#![tactic(auto)]

mod assignments;
mod declarations;
mod early;
mod known;
mod lists;
mod looks;
mod objects;
mod shut;
mod values;

pub use known::Known;
pub use shut::begins_with_asm;
