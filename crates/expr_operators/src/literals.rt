//! Number literals, and where expressions stand.
ghost use Rattle.std.specs.Prelude.{◌≡◌, ◌≤◌, ◌&&◌, IsFalse, IsTrue, Some, false, not};
ghost use Rattle.swc_ast.specs.Parts.{lit_tree};
ghost use Rattle.swc_ast.specs.Redex as redex;
ghost use Rattle.swc_ast.specs.Views.{expr_tree};
ghost use Rattle.swc_ast.specs.Weight.{weight};
ghost use Rattle.expr_operators.specs.Literals as literals;

use swc_ast::{Expr, Lit, Span};

fn number_of_literal(n: &Lit) -> Option<i64>
    ensures { result ≡ literals.literal_number (lit_tree n.now) }
{
    match n {
        Lit::Num(n) => Some(n.value),
        Lit::Str(_) => None,
        Lit::Bool(_) => None,
        Lit::Null(_) => None,
    }
}

/// The value of a number literal.
#[tactic(auto, using(swc_ast::proofs::Equations::forms, crate::proofs::LiteralNodes::number_nodes))]
pub(crate) fn literal_number(e: &Expr) -> Option<i64>
    ensures { result ≡ literals.literal_number (expr_tree e.now) }
{
    match e {
        Expr::Lit(n) => number_of_literal(n),
        Expr::Unary(_) => None,
        Expr::Call(_) => None,
        Expr::Update(_) => None,
        Expr::Assign(_) => None,
        Expr::Member(_) => None,
        Expr::This(_)
        | Expr::Array(_)
        | Expr::Object(_)
        | Expr::Fn(_)
        | Expr::Bin(_)
        | Expr::Cond(_)
        | Expr::New(_)
        | Expr::Seq(_)
        | Expr::Ident(_)
        | Expr::Tpl(_)
        | Expr::Arrow(_)
        | Expr::Invalid(_) => None,
    }
}

/// Whether an expression is the literal 0.
#[tactic(auto, using(crate::proofs::Zeros::zeros))]
pub(crate) fn is_zero_literal(e: &Expr) -> bool
    ensures { result ≡ redex.is_zero (expr_tree e.now) }
{
    match literal_number(e) {
        Some(n) => n == 0,
        None => false,
    }
}

fn span_of_literal(n: &Lit) -> Span
    ensures { redex.span_of (lit_tree n.now) ≡ Some result }
{
    match n {
        Lit::Num(n) => n.span,
        Lit::Str(n) => n.span,
        Lit::Bool(n) => n.span,
        Lit::Null(n) => n.span,
    }
}

/// Where an expression stands.
#[tactic(auto, using(swc_ast::proofs::Equations::forms, crate::proofs::LiteralNodes::span_nodes))]
pub(crate) fn span_of(e: &Expr) -> Span
    ensures { redex.span_of (expr_tree e.now) ≡ Some result }
{
    match e {
        Expr::This(n) => n.span,
        Expr::Array(n) => n.span,
        Expr::Object(n) => n.span,
        Expr::Fn(n) => n.function.span,
        Expr::Unary(n) => n.span,
        Expr::Update(n) => n.span,
        Expr::Bin(n) => n.span,
        Expr::Assign(n) => n.span,
        Expr::Member(n) => n.span,
        Expr::Cond(n) => n.span,
        Expr::Call(n) => n.span,
        Expr::New(n) => n.span,
        Expr::Seq(n) => n.span,
        Expr::Ident(n) => n.span,
        Expr::Lit(n) => span_of_literal(n),
        Expr::Tpl(n) => n.span,
        Expr::Arrow(n) => n.span,
        Expr::Invalid(n) => n.span,
    }
}

/// Whether an expression is there at all: an invalid one weighs nothing.
#[tactic(auto, using(crate::proofs::Weights::weights))]
fn weighs_one(e: &Expr) -> bool
    ensures { IsTrue result → 1 ≤ weight (expr_tree e.now) }
{
    match e {
        Expr::Invalid(_) => false,
        Expr::Lit(_) => true,
        Expr::Seq(_) => true,
        Expr::Unary(_) => true,
        Expr::Call(_) => true,
        Expr::Update(_) => true,
        Expr::Assign(_) => true,
        Expr::Member(_) => true,
        Expr::This(_)
        | Expr::Array(_)
        | Expr::Object(_)
        | Expr::Fn(_)
        | Expr::Bin(_)
        | Expr::Cond(_)
        | Expr::New(_)
        | Expr::Ident(_)
        | Expr::Tpl(_)
        | Expr::Arrow(_) => true,
    }
}

/// Whether an expression is heavier than the literal 0.
#[tactic(auto, using(crate::proofs::Weights::weights, crate::proofs::Zeros::zeros))]
pub(crate) fn weighs_two(e: &Expr) -> bool
    ensures heavy { IsTrue result → 2 ≤ weight (expr_tree e.now) }
    ensures literal { IsFalse result → (redex.is_simple_literal (expr_tree e.now) && not (redex.is_zero (expr_tree e.now))) ≡ false }
{
    match e {
        Expr::Invalid(_) => false,
        Expr::Lit(_) => !is_zero_literal(e),
        Expr::Seq(n) => match n.exprs.as_slice() {
            [] => false,
            [first, ..] => weighs_one(first),
        },
        Expr::Unary(_) => true,
        Expr::Call(_) => true,
        Expr::Update(_) => true,
        Expr::Assign(_) => true,
        Expr::Member(_) => true,
        Expr::This(_)
        | Expr::Array(_)
        | Expr::Object(_)
        | Expr::Fn(_)
        | Expr::Bin(_)
        | Expr::Cond(_)
        | Expr::New(_)
        | Expr::Ident(_)
        | Expr::Tpl(_)
        | Expr::Arrow(_) => true,
    }
}
