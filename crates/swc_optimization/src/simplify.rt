//! The simplifier and its passes.
ghost use Rattle.std.specs.Prelude.{◌≡◌, false};
ghost use Rattle.swc_dce.specs.Configured.{told};

pub use crate::config::Config;
pub use crate::passes::Simplifier;
use swc_ast::Mark;
pub use swc_branch as branch;
pub use swc_branch::{Remover, dead_branch_remover};
pub use swc_const_propagation as const_propagation;
pub use swc_dce as dce;
pub use swc_dce::TreeShaker;
pub use swc_expr as expr;
pub use swc_expr::{Config as ExprSimplifierConfig, SimplifyExpr, expr_simplifier};
pub use swc_inlining as inlining;
pub use swc_inlining::ScopeKind;

/// Returns the simplifier for modules whose unresolved names have the mark.
pub fn simplifier(unresolved_mark: Mark, config: Config) -> Simplifier
    ensures told { result.told ≡ told unresolved_mark config.dce }
    ensures most { result.most ≡ config.max_rounds }
    ensures rounds { result.rounds ≡ 0 }
    ensures reached { result.reached ≡ false }
    ensures changed { result.changed ≡ false }
{
    Simplifier::new(unresolved_mark, config)
}
