//! The answers that are functions.
ghost use Rattle.std.specs.Prelude.{◌≡◌, ◌∷◌, [], IfOk, IfErr};
ghost use Rattle.swc_ast.specs.Parts.{list_trees};
ghost use Rattle.swc_ast.specs.Views.{expr_tree};
ghost use Rattle.swc_ast.specs.declared.errors.PassError.TheVariants.{OutOfMemory};
ghost use Rattle.swc_utils.specs.Effects.{effects_all, preserve, Preserves};
ghost use Rattle.swc_utils.specs.Globals.{unresolved};
ghost use Rattle.swc_utils.specs.Literals.{is_literal as tree_is_literal};

use std::alloc::Global;
use swc_ast::{Expr, PassError, Span};
use swc_utils::ExprCtx;

/// `swc_utils::is_literal`
pub fn is_literal(e: &Expr) -> bool
    ensures { result ≡ tree_is_literal (expr_tree e.now) }
{
    swc_utils::is_literal(e)
}

/// `swc_utils::preserve_effects`
pub fn preserve_effects(
    alloc: Global,
    ctx: &ExprCtx,
    span: Span,
    value: Expr,
    exprs: Vec<Expr>,
) -> Result<Expr, PassError>
    ensures answer { IfOk result (λ r. expr_tree r ≡ preserve (span ∷ []) (effects_all (unresolved ctx.now) (list_trees expr_tree exprs.items)) (expr_tree value)) }
    ensures sound { IfOk result (λ r. Preserves (unresolved ctx.now) (list_trees expr_tree exprs.items) (expr_tree value) (expr_tree r)) }
    ensures memory { IfErr result (λ e. e ≡ OutOfMemory) }
{
    swc_utils::preserve_effects(alloc, ctx, span, value, exprs)
}
