//! Whether a text is a text of a tree.
#![tactic(auto)]

mod expressions;
mod operators;

pub use expressions::is_text_of_expr;
