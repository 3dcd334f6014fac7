//! What is promised of scopes and of captured names, for edits that must fail: each function here calls the one that it is
//! named after, under the same contract.
#![tactic(auto)]

mod captures;
mod resolved;

pub use captures::first_fault;
pub use resolved::{
    is_core, is_core_and_resolved, is_resolved, is_script_core, is_script_resolved, is_valid,
};
