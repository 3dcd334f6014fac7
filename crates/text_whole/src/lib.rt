//! Whole modules as core text: what isn't core is enclosed in stand-ins, calls of functions that aren't there, and its own text is
//! put back in their place when the module was changed and printed.
#![tactic(auto)]

mod around;
mod enclosing;
mod error;
mod names;
mod places;
mod restoring;
mod splices;
mod stand_in;
mod words;

pub use enclosing::{Whole, enclose};
pub use error::WholeError;
