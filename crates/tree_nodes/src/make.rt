//! Expressions that are made.
ghost use Rattle.std.specs.Prelude.{◌≡◌, IfOk, [], ◌∷◌};
ghost use Rattle.swc_ast.specs.Tree.{Binary, node, ε, ◌⊳◌};
ghost use Rattle.swc_ast.specs.Views.{expr_tree};
ghost use Rattle.pass_rules.specs.Leaves as leaves;

use std::alloc::{AllocError, Global};
use swc_ast::{BinExpr, BinaryOp, Expr, Lit, Number, Span, UnaryExpr, UnaryOp};

/// Returns an operator between two operands. Fails if memory runs out.
pub fn binary_expr(
    alloc: Global,
    span: Span,
    op: BinaryOp,
    left: Expr,
    right: Expr,
) -> Result<Expr, AllocError>
    ensures { IfOk result (λ r. expr_tree r ≡ node (Binary op) (span ∷ []) (expr_tree left ⊳ expr_tree right ⊳ ε)) }
{
    let left = Box::new(alloc, left)?;
    let right = Box::new(alloc, right)?;
    Ok(Expr::Bin(BinExpr {
        span,
        op,
        left,
        right,
    }))
}

/// Returns `void 0`. Fails if memory runs out.
pub fn void_expr(alloc: Global, span: Span) -> Result<Expr, AllocError>
    ensures { IfOk result (λ r. expr_tree r ≡ leaves.void_tree (span ∷ []) (span ∷ [])) }
{
    let zero = Expr::Lit(Lit::Num(Number { span, value: 0 }));
    let arg = Box::new(alloc, zero)?;
    let op = UnaryOp::Void;
    Ok(Expr::Unary(UnaryExpr { span, op, arg }))
}
