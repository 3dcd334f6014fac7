//! What is promised of nodes and of the walk over them, for edits that must fail: each function here calls the one that its
//! comment names, under the same contract.
#![tactic(auto)]

mod names;
mod nodes;
mod walks;
mod weights;

pub use names::{apply_mark, into_target, new_mark};
pub use nodes::{clone_return, eq_names_ignoring_spans, is_same_name};
pub use walks::{rewrite, walk_expr, walk_stmt};
pub use weights::weight;
