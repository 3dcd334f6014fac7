//! What becomes of a `switch` of which it is known what it runs.
#![tactic(auto)]

mod bodies;
mod clauses;
mod defaults;
mod folds;
mod plan;
mod selection;
mod shed;
mod sorts;
mod switch;
mod unbroken;
mod values;

pub use shed::shed_switch;
pub use switch::fold_switch;
