//! The expression simplifier: operators, conditions, sequences, spreads and members of what is known become what they give.
#![tactic(auto)]

mod rules;
mod simplify;

pub use rules::ExprRules;
pub use simplify::{Config, SimplifyExpr, expr_simplifier};
