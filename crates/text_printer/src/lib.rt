//! The text of a module or a script, spaced or compact: one form for each node in each layout, parentheses only where reading
//! would else give another tree or an error.
#![tactic(auto)]

mod expressions;
mod functions;
mod literals;
mod modules;
mod precedence;
mod statements;
mod writer;

pub use writer::{Layout, print, print_script};
