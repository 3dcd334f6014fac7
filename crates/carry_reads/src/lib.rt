//! The first reading of propagation: what is put at each read of a tree, and what is carried at its end.
#![tactic(auto)]

mod declaration;
mod front;
mod initial;
mod kinds;
mod place;
mod reader;
mod reading;
mod ready;
mod settled;
mod tables;
mod values;

pub use reading::Reading;
