//! What folds make: expressions of known values, behind the effects of operands.
ghost use Rattle.std.specs.Prelude.{◌≡◌, IfOk, [], ◌∷◌, string_bytes};
ghost use Rattle.swc_ast.specs.Tree.{Seq, node, ε, ◌⊳◌};
ghost use Rattle.swc_ast.specs.Views.{expr_tree};
ghost use Rattle.swc_utils.specs.Effects.{effects_all, preserve};
ghost use Rattle.swc_utils.specs.Globals.{unresolved};
ghost use Rattle.swc_utils.specs.Sound.{numeric};
ghost use Rattle.pass_rules.specs.Leaves as leaves;

use std::alloc::{AllocError, Global};
use swc_ast::{
    Atom, BinExpr, Bool, Expr, Ident, Lit, Number, PassError, SeqExpr, Span, Str, UnaryExpr,
};
use swc_utils::{ExprCtx, preserve_effects};
use tree_nodes::take;

pub(crate) fn truth_expr(span: Span, value: bool) -> Expr
    ensures { expr_tree result ≡ leaves.truth_tree (span ∷ []) value }
{
    Expr::Lit(Lit::Bool(Bool { span, value }))
}

pub(crate) fn text_expr(span: Span, value: String) -> Expr
    ensures { expr_tree result ≡ leaves.text_tree (span ∷ []) (string_bytes value) }
{
    Expr::Lit(Lit::Str(Str { span, value }))
}

/// A number as an expression. NaN, which is None, is written as the host's name.
pub(crate) fn number_expr(
    alloc: Global,
    ctx: &ExprCtx,
    span: Span,
    number: Option<i64>,
) -> Result<Expr, AllocError>
    ensures { IfOk result (λ r. expr_tree r ≡ leaves.number_tree (unresolved ctx.now) (span ∷ []) (numeric number)) }
{
    match number {
        Some(value) => Ok(Expr::Lit(Lit::Num(Number { span, value }))),
        None => {
            let sym = Atom::from_str(alloc, "NaN")?;
            let ctxt = ctx.unresolved_ctxt;
            Ok(Expr::Ident(Ident { span, sym, ctxt }))
        }
    }
}

/// `first, second`
pub(crate) fn sequence(
    alloc: Global,
    span: Span,
    first: Expr,
    second: Expr,
) -> Result<Expr, AllocError>
    ensures { IfOk result (λ r. expr_tree r ≡ node Seq (span ∷ []) (expr_tree first ⊳ expr_tree second ⊳ ε)) }
{
    let exprs = vec![in alloc; first, second]?;
    Ok(Expr::Seq(SeqExpr { span, exprs }))
}

/// A value behind the effects of a node's operand.
pub(crate) fn behind_operand(
    alloc: Global,
    ctx: &ExprCtx,
    n: &mut UnaryExpr,
    value: Expr,
) -> Result<Expr, PassError>
    ensures { IfOk result (λ r. expr_tree r ≡ preserve (n.old.span ∷ []) (effects_all (unresolved ctx.now) (expr_tree n.old.arg.value ⊳ ε)) (expr_tree value)) }
{
    let operands = vec![in alloc; take(&mut n.arg)]?;
    preserve_effects(alloc, ctx, n.span, value, operands)
}

/// A value behind the effects of a node's operands.
pub(crate) fn behind_operands(
    alloc: Global,
    ctx: &ExprCtx,
    n: &mut BinExpr,
    value: Expr,
) -> Result<Expr, PassError>
    ensures { IfOk result (λ r. expr_tree r ≡ preserve (n.old.span ∷ []) (effects_all (unresolved ctx.now) (expr_tree n.old.left.value ⊳ expr_tree n.old.right.value ⊳ ε)) (expr_tree value)) }
{
    let operands = vec![in alloc; take(&mut n.left), take(&mut n.right)]?;
    preserve_effects(alloc, ctx, n.span, value, operands)
}
