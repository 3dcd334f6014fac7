//! The remover of dead branches: statements that are never run go, and so does what is left of expressions whose values are not used.
#![tactic(auto)]

mod expressions;
mod places;
mod remover;
mod rules;
mod statements;

pub use remover::{Remover, dead_branch_remover};
pub use rules::BranchRules;
