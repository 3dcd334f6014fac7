//! A module in rounds of passes, as its items, each of which knows the passes that leave it as it is and what it says of names.
#![tactic(auto)]

mod unit;
mod units;

pub use unit::Unit;
pub use units::Units;
