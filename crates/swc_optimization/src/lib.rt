//! The simplifier: the expression simplifier, the remover of dead branches and the tree shaker, in rounds, and the optimizer, which inlines
//! names in front of it. All else that a caller needs is named again here.
#![tactic(auto)]

ghost use Rattle.swc_optimization.specs.Laws.{RoundIsLawful, RowsAreRounds, ReachedIsSettled};

pub mod ast;
mod config;
mod optimize;
mod passes;
mod rounds;
pub mod simplify;
pub mod utils;

pub use optimize::optimizer;
pub use passes::Optimizer;
pub use simplify::{Config, Simplifier, simplifier};
pub use swc_const_modules::{ConstModules, const_modules};
pub use swc_debug as debug;
pub use swc_expr_map::GlobalExprMap;
pub use swc_inline_globals::{InlineGlobals, inline_globals, inline_globals2};
pub use swc_json_parse::{JsonParse, json_parse};
pub use swc_pass as pass;
pub use swc_text as text;

/// The laws of rounds, which its contract states: a round is a lawful pass, the passes in a row come to rounds, and what is
/// reached is settled.
pub fn laws()
    ensures lawful { RoundIsLawful }
    ensures rounds { RowsAreRounds }
    ensures settled { ReachedIsSettled }
{}
