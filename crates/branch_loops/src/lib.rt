//! What loops become whose parts do nothing, whose tests are known, or whose bodies are run once.
#![tactic(auto)]

mod dos;
mod fors;
mod looks;
mod nodes;
mod once;
mod whiles;
mod within;

pub use dos::fold_do;
pub use fors::fold_for;
pub use whiles::fold_while;
pub use within::run_within;
