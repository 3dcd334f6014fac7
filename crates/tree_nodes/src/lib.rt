//! Questions about one node, and nodes that are made, as all passes need them.
#![tactic(auto)]

mod kinds;
mod make;
mod names;
mod places;
mod statements;

pub use kinds::is_lexical;
pub use make::{binary_expr, void_expr};
pub use names::{is_bound, is_same_name};
pub use places::take;
pub use statements::is_stopper;
