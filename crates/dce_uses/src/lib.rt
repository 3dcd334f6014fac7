//! How the names of a tree are used: counted in one walk, for all names at once. And the texts of names that stay, in order.
#![tactic(auto)]

mod count;
mod exports;
mod gone;
mod labels;
mod listed;
mod place;
mod retained;
mod said;
mod scans;
mod seen;
mod table;
mod tally;
mod uses;

pub use labels::{declared_name, function_name, is_read, named};
pub use retained::Retained;
pub use said::{Said, Speaks};
pub use uses::{Uses, is_default};
