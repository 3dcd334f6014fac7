//! What a tree says of each of its names: how often it is declared, and by what, and whether it is written.
#![tactic(auto)]

mod count;
mod tally;
mod vars;

pub use vars::Vars;
