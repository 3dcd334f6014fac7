//! Imports of given modules, replaced by the values of what they import.
#![tactic(auto)]

mod pass;
mod rules;

pub use pass::ConstModules;
