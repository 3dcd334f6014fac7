//! Places where a member or a name would mean something else than an expression of its value: a call of a member hands on
//! its object, a call of `eval` is direct, and `typeof` of a name doesn't throw.
ghost use Rattle.std.specs.Prelude.{◌≡◌, ◌≤◌, ◌+◌, IfOk, [], ◌∷◌};
ghost use Rattle.swc_ast.specs.Parts.{list_trees};
ghost use Rattle.swc_ast.specs.Redex as redex;
ghost use Rattle.swc_ast.specs.Views.{expr_tree};
ghost use Rattle.swc_ast.specs.declared.expressions.Expr.{size-Expr};
ghost use Rattle.swc_ast.specs.Tree.{label_of};
ghost use Rattle.pass_rules.specs.Leaves.{guarded};
ghost use Rattle.pass_places.specs.Places as places;

use std::alloc::{AllocError, Global};
use swc_ast::{DUMMY_SP, Expr, Lit, Number, SeqExpr, UnaryOp};
use tree_walk::{Place, fits};

/// Whether an expression is the literal 0.
#[tactic(auto, using(swc_ast::proofs::Equations::forms))]
fn is_zero(e: &Expr) -> bool
    ensures { result ≡ redex.is_zero (expr_tree e.now) }
{
    match e {
        Expr::Lit(n) => match n {
            Lit::Num(n) => n.value == 0,
            Lit::Str(_) | Lit::Bool(_) | Lit::Null(_) => false,
        },
        _ => false,
    }
}

/// Whether the items of a sequence are 0 and what would mean something else by itself.
fn is_shielding(place: Place, exprs: &[Expr]) -> bool
    ensures { result ≡ places.is_shielding place (list_trees expr_tree exprs.now) }
{
    match exprs {
        [front, last] => is_zero(front) && !fits(place, last),
        _ => false,
    }
}

/// Whether an expression is `(0, e)`, where e would mean something else by itself.
#[tactic(auto, using(swc_ast::proofs::Equations::forms))]
pub fn is_shield(place: Place, e: &Expr) -> bool
    ensures { result ≡ places.is_shield place (expr_tree e.now) }
{
    match e {
        Expr::Seq(n) => is_shielding(place, &n.exprs),
        _ => false,
    }
}

/// `(0, e)`. Fails where memory is refused.
#[tactic(auto, using(swc_ast::proofs::Equations::forms))]
pub fn shield(alloc: Global, e: Expr) -> Result<Expr, AllocError>
    ensures tree { IfOk result (λ r. expr_tree r ≡ guarded (places.nowhere ∷ []) (places.nowhere ∷ []) (expr_tree e)) }
    ensures depth { IfOk result (λ r. size-Expr r ≤ size-Expr e + 1) }
{
    let zero = Expr::Lit(Lit::Num(Number {
        span: DUMMY_SP,
        value: 0,
    }));
    let exprs = vec![in alloc; zero, e]?;
    Ok(Expr::Seq(SeqExpr {
        span: DUMMY_SP,
        exprs,
    }))
}

/// An expression, or `(0, e)` where it would mean something else by itself: a call of a member hands on its object, a call of
/// `eval` is direct, and `typeof` of a name doesn't throw (ECMA-262, 13.3.6.1 and 13.5.3.1). Fails where memory is refused.
pub fn shielded(alloc: Global, place: Place, e: Expr) -> Result<Expr, AllocError>
    ensures { IfOk result (λ r. expr_tree r ≡ places.shielded place (expr_tree e)) }
{
    if fits(place, &e) {
        return Ok(e);
    }
    let guarded = shield(alloc, e)?;
    Ok(guarded)
}

/// Whether an expression is `delete` of something. Its operand is a reference, and no pass enters it.
#[tactic(auto, using(swc_ast::proofs::Equations::forms))]
pub fn is_delete(e: &Expr) -> bool
    ensures { result ≡ redex.is_delete (label_of (expr_tree e.now)) }
{
    match e {
        Expr::Unary(n) => match n.op {
            UnaryOp::Delete => true,
            _ => false,
        },
        _ => false,
    }
}
