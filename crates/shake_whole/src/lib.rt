//! The work of the program on whole modules: what isn't in the core is kept word for word.
#![tactic(auto)]

mod stop;
mod whole;
mod words;

pub use whole::run_whole;
pub use words::verbatim_at;
