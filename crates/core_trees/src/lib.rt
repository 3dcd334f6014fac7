//! Whether a tree is core: its numbers are in range, and no scope declares a name twice but for `var`s and parameters.
#![tactic(auto)]

mod answer;
mod declared;
mod walk;

pub use answer::{is_core, is_script_core};
