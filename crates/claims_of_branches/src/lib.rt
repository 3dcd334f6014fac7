//! What is promised of what the remover of dead branches makes of nodes, for edits that must fail: each function here calls the one
//! that it is named after, under the same contract.
#![tactic(auto)]

mod choices;
mod lists;
mod loops;
mod statements;

pub use choices::{fold_arms, shed_switch};
pub use lists::tidy_items;
pub use loops::{fold_do, fold_for, fold_while, run_within};
pub use statements::{fold_block, fold_expression, fold_if, fold_label, fold_try};
