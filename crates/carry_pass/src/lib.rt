//! What a pass that propagates makes of a module or a script.
#![tactic(auto)]

mod exports;
mod pass;
mod readable;

pub use pass::propagate;
pub use readable::Readable;
