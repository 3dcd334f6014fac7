//! What is promised of answers on expressions, for edits that must fail: each function here calls the one that it is named
//! after, under the same contract.
#![tactic(auto)]

mod asked;
mod functions;

pub use asked::Asked;
pub use functions::{is_literal, preserve_effects};
