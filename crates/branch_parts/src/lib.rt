//! Parts of the rules on statements: what is left of an expression, what stays of statements that go, and statements in
//! the place of one.
#![tactic(auto)]

mod behind;
mod looks;
mod places;

pub use behind::{push_all_vars, push_effects, push_left, push_vars};
pub use looks::{are_plain, is_plain};
pub use places::{as_one, take_expr, take_stmt};
