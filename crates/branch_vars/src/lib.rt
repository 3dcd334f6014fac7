//! The declaration that stays of statements that go: their `var` names.
#![tactic(auto)]

mod declarations;
mod gather;

pub use declarations::{declare, declare_all_vars, declare_vars};
pub use gather::add_vars;
