//! What the scopes of a tree bind: whether it is resolved, and in the core too.
#![tactic(auto)]

mod apart;
mod declared;
mod distinct;
mod exports;
mod functions;
mod here;
mod jumps;
mod leaves;
mod names;
mod resolved;
mod scopes;
mod still;
mod walk;

pub use declared::{Part, add_body, add_names, add_own_names};
pub use functions::{Half, half_of, has_default};
pub use here::is_own_core;
pub use names::{Name, NameSet};
pub use resolved::{
    is_core_and_resolved, is_expr_core_and_resolved, is_resolved, is_script_core_and_resolved,
    is_script_resolved,
};
