//! Sequences that stay where they are, as there is no room for what would take their place.
ghost use Rattle.std.specs.Prelude.{◌≡◌};
ghost use Rattle.swc_ast.specs.Parts.{list_trees};
ghost use Rattle.swc_ast.specs.Views.{expr_tree};
ghost use Rattle.swc_branch.specs.Places as places;

use swc_ast::{Expr, Lit};
use tree_walk::{Place, fits};

/// Whether an expression is the literal 0 or a sequence, which may weigh no more than that.
#[tactic(auto, using(swc_ast::proofs::Equations::forms))]
fn is_light(e: &Expr) -> bool
    ensures { result ≡ places.is_light (expr_tree e.now) }
{
    match e {
        Expr::Lit(n) => match n {
            Lit::Num(n) => n.value == 0,
            Lit::Str(_) | Lit::Bool(_) | Lit::Null(_) => false,
        },
        Expr::Seq(_) => true,
        _ => false,
    }
}

/// Whether the items of a sequence are a light one and what would mean something else by itself.
fn are_cramped(place: Place, exprs: &[Expr]) -> bool
    ensures { result ≡ places.are_cramped place (list_trees expr_tree exprs.now) }
{
    match exprs {
        [front, last] => is_light(front) && !fits(place, last),
        _ => false,
    }
}

/// Whether an expression is `(a, b)`, where b would mean something else by itself and a may be no heavier than the `0`
/// of `(0, b)`.
#[tactic(auto, using(swc_ast::proofs::Equations::forms))]
pub(crate) fn is_cramped(place: Place, e: &Expr) -> bool
    ensures { result ≡ places.is_cramped place (expr_tree e.now) }
{
    match e {
        Expr::Seq(n) => are_cramped(place, &n.exprs),
        _ => false,
    }
}
