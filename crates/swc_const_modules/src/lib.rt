//! Imports of modules whose exports are known expressions, replaced by these expressions.
#![tactic(auto)]

mod read;

pub use const_pass::ConstModules;
pub use read::const_modules;
