//! How many levels of expressions and statements a tree has.
#![tactic(auto)]

mod levels;

pub use levels::{levels_of_expr, levels_of_module};
