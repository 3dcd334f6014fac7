//! What flags give, put into a module in front of a pass.
#![tactic(auto)]

mod error;
mod fit;
mod front;
mod given;
mod key;
mod line;

pub use error::GivenError;
pub use front::prepare;
pub use given::{Given, GivenNames};
