//! What is promised of what stands for names, given or carried, and of levels, for edits that must fail: each function here calls
//! the one that its comment names, under the same contract.
#![tactic(auto)]

mod carried;
mod given;

pub use carried::{is_steady, propagate, put};
pub use given::{count_levels, get, insert, levels_of_module, number, put_globals, replace};
