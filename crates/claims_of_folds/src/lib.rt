//! What is promised of folds of expressions and of what rules ask, for edits that must fail: each function here calls the one that
//! it is named after, under the same contract.
#![tactic(auto)]

mod members;
mod operators;
mod rules;

pub use members::{fold_member, fold_sequence, spread_items, spread_properties};
pub use operators::{fold_binary, fold_unary};
pub use rules::{declare_all_vars, has_jump, is_bound, shield};
