//! Expressions that are given for names, for chains of members and for the members of `process.env`.
#![tactic(auto)]

mod found;
mod lookup;
mod names;
mod settings;

pub use found::Found;
pub use lookup::Lookup;
pub use settings::Settings;
