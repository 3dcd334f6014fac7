//! Folds of operators and conditions whose operands are known.
#![tactic(auto)]

mod addition;
mod arithmetic;
mod binary;
mod bits;
mod choices;
mod comparisons;
mod equality;
mod instances;
mod length;
mod literals;
mod names;
mod numbers;
mod operands;
mod texts;
mod unary;

pub use binary::fold_binary;
pub use choices::fold_condition;
pub use unary::fold_unary;
