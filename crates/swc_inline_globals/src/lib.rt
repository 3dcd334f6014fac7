//! Expressions that are given for names, for chains of members and for the members of `process.env`, put in their places.
#![tactic(auto)]

mod finals;
mod gather;
mod levels;
mod pass;
mod put;

pub use levels::Nesting;
pub use pass::{InlineGlobals, inline_globals, inline_globals2};
