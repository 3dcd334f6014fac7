//! Expressions that are names of the host.
ghost use Rattle.std.specs.Prelude.{◌≡◌};
ghost use Rattle.swc_ast.specs.Views.{expr_tree};
ghost use Rattle.swc_utils.specs.Globals.{unresolved, is_global_ref_to, directness_matters as tree_directness_matters};

use crate::context::ExprCtx;
use swc_ast::Expr;

/// Whether an expression is the unresolved name of a text.
#[tactic(auto, using(swc_ast::proofs::Equations::forms, crate::proofs::GlobalNodes::global_nodes))]
pub(crate) fn is_global(ctx: ExprCtx, e: &Expr, text: &str) -> bool
    ensures { result ≡ is_global_ref_to (unresolved ctx) text.now (expr_tree e.now) }
{
    match e {
        Expr::Ident(n) => ctx.is_global(n, text),
        Expr::Unary(_) => false,
        Expr::Call(_) => false,
        Expr::Update(_) => false,
        Expr::Assign(_) => false,
        Expr::Member(_) => false,
        Expr::Lit(_) => false,
        Expr::This(_)
        | Expr::Array(_)
        | Expr::Object(_)
        | Expr::Fn(_)
        | Expr::Bin(_)
        | Expr::Cond(_)
        | Expr::New(_)
        | Expr::Seq(_)
        | Expr::Tpl(_)
        | Expr::Arrow(_)
        | Expr::Invalid(_) => false,
    }
}

/// Whether an expression is a member or the unresolved `eval`.
#[tactic(auto, using(swc_ast::proofs::Equations::forms, crate::proofs::GlobalNodes::direct_nodes))]
pub(crate) fn directness_matters(ctx: ExprCtx, e: &Expr) -> bool
    ensures { result ≡ tree_directness_matters (unresolved ctx) (expr_tree e.now) }
{
    match e {
        Expr::Member(_) => true,
        Expr::Ident(n) => ctx.is_global(n, "eval"),
        Expr::Unary(_) => false,
        Expr::Call(_) => false,
        Expr::Update(_) => false,
        Expr::Assign(_) => false,
        Expr::Lit(_) => false,
        Expr::This(_)
        | Expr::Array(_)
        | Expr::Object(_)
        | Expr::Fn(_)
        | Expr::Bin(_)
        | Expr::Cond(_)
        | Expr::New(_)
        | Expr::Seq(_)
        | Expr::Tpl(_)
        | Expr::Arrow(_)
        | Expr::Invalid(_) => false,
    }
}
