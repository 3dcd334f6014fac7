//! What lists of statements become, once their items are walked.
#![tactic(auto)]

mod cut;
mod exports;
mod looks;
mod sweep;
mod tidy;

pub use tidy::{tidy_items, tidy_statements};
