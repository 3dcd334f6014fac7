//! Folds of sequences, of spreads of literals, and of members of literals: what takes the place of such a node, its
//! children being folded already.
#![tactic(auto)]

mod arrays;
mod items;
mod keys;
mod members;
mod object_members;
mod properties;
mod sequences;
mod spreads;
mod texts;

pub use members::fold_member;
pub use properties::spread_properties;
pub use sequences::fold_sequence;
pub use spreads::spread_items;
