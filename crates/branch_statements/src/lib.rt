//! What expression statements, conditions, blocks, labels and `try` become, once what is in them is walked.
#![tactic(auto)]

mod blocks;
mod conditions;
mod expressions;
mod tries;

pub use blocks::{fold_block, fold_label};
pub use conditions::fold_if;
pub use expressions::fold_expression;
pub use tries::fold_try;
