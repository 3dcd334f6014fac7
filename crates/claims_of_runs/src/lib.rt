//! What is promised of the work of the program and of flags, for edits that must fail: each function here calls the one that its
//! comment names, under the same contract.
#![tactic(auto)]

mod given;
mod runs;

pub use given::{Told, prepare, prepare_levels};
pub use runs::{json_parse, run, run_pass};
