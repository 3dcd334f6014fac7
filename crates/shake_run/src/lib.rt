//! The work of the program `shake`: reads a module, runs a pass on it and prints the answer.
#![tactic(auto)]

mod answer;
mod fault;
mod flagged;
mod input;
mod notices;
mod passes;
mod work;

pub use fault::Fault;
pub use flagged::run_pass;
pub use input::read_text;
pub use notices::inform;
pub use work::{run, tell};
