//! The names of trees: all of them by number, those that are bound, those of `var`, and those of parameters.
#![tactic(auto)]

mod gather;
mod ids;
mod keys;
mod numbers;

pub use gather::open_item;
pub use ids::{collect_decls, extract_var_ids, find_pat_ids};
pub use numbers::Names;
