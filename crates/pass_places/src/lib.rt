//! Places where an expression would mean something else, and defaults that say nothing: what passes over expressions share.
#![tactic(auto)]

mod defaults;
mod places;

pub use defaults::drop_default;
pub use places::{is_delete, is_shield, shield, shielded};
