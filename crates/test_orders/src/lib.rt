//! What is done with texts: orders in words, each for the texts behind it.
#![tactic(auto)]

mod command;
mod globals;
mod imports;
mod order;
mod passes;
mod peel;
mod rounds;
mod words;

pub use order::Order;
pub use words::LINE_END;
