//! What is left of an expression, and what it is made of.
ghost use Rattle.std.specs.Prelude.{◌≡◌, ◌∷◌, [], IfOk, ℕ};
ghost use Rattle.swc_ast.specs.Parts.{list_trees};
ghost use Rattle.swc_ast.specs.Tree.{Cond, node, ε, ◌⊳◌, Tree};
ghost use Rattle.swc_ast.specs.Views.{expr_tree};
ghost use Rattle.branch_rules.specs.Ignored.{Ignores, as_one as tree_as_one};
ghost use Rattle.branch_expressions.specs.Left.{Rested, is_change as tree_is_change, other, tree_of};

use std::alloc::{AllocError, Global};
use swc_ast::{CondExpr, Expr, SeqExpr, Span};
use tree_nodes::take;

/// What is left of an expression: the expression itself, which is as it was, nothing, or another expression.
#[derive(Drop)]
pub(crate) enum Rest {
    Same,
    Nothing,
    Other(Expr),
}

impl Rest {
    /// Whether it is something else than the expression.
    pub(crate) fn is_change(&self) -> bool
        ensures { result ≡ tree_is_change self.now }
    {
        match self {
            Rest::Same => false,
            Rest::Nothing => true,
            Rest::Other(_) => true,
        }
    }
}

/// What is left of an expression, moved out of its place if it stands there still.
pub(crate) fn moved(place: &mut Expr, rest: Rest) -> Option<Expr>
    ensures { (mark : ℕ) → (t : Tree) → Rested mark t (expr_tree place.old) rest → Ignores mark (tree_is_change rest) t (tree_of result) }
{
    match rest {
        Rest::Same => Some(take(place)),
        Rest::Nothing => None,
        Rest::Other(left) => Some(left),
    }
}

/// What is left of an expression that changes: nothing, or another one.
pub(crate) fn changed(left: Option<Expr>) -> Rest
    ensures { result ≡ other left }
{
    match left {
        Some(e) => Rest::Other(e),
        None => Rest::Nothing,
    }
}

/// One expression as itself, more as a sequence.
pub(crate) fn as_one(span: Span, exprs: Vec<Expr>) -> Option<Expr>
    ensures { tree_of result ≡ tree_as_one (span ∷ []) (list_trees expr_tree exprs.items) }
{
    let mut exprs = exprs;
    if exprs.len() > 1 {
        return Some(Expr::Seq(SeqExpr { span, exprs }));
    }
    exprs.pop()
}

/// A choice between two expressions.
pub(crate) fn cond_expr(
    alloc: Global,
    span: Span,
    test: Expr,
    cons: Expr,
    alt: Expr,
) -> Result<Expr, AllocError>
    ensures { IfOk result (λ r. expr_tree r ≡ node Cond (span ∷ []) (expr_tree test ⊳ expr_tree cons ⊳ expr_tree alt ⊳ ε)) }
{
    let test = Box::new(alloc, test)?;
    let cons = Box::new(alloc, cons)?;
    let alt = Box::new(alloc, alt)?;
    Ok(Expr::Cond(CondExpr {
        span,
        test,
        cons,
        alt,
    }))
}
