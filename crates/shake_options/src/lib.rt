//! What the command line of `shake` asks for: a pass and its options, or a word about the program.
#![tactic(auto)]

mod flags;
mod notice;
mod options;

pub use flags::{Flag, flags_of};
pub use notice::Notice;
pub use options::{Options, PassName, retained, takes_operand};
