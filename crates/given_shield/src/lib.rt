//! What is given for names: which names it is given for, and what may not stand bare where it is put.
#![tactic(auto)]

ghost use Rattle.std.specs.Prelude.{◌≡◌, IfOk};
ghost use Rattle.swc_ast.specs.Expressions.{is_eval};
ghost use Rattle.swc_ast.specs.Meaning.{is_host_name};
ghost use Rattle.swc_ast.specs.Parts.{ident_name};
ghost use Rattle.swc_ast.specs.Views.{expr_tree};
ghost use Rattle.given_shield.specs.Shield.{is_bare_callee as bare_callee, is_bare_operand as bare_operand, is_bare as bare, guarded as guarded_tree, shield};

mod names;

pub use names::{imported_text, is_unresolved};
use std::alloc::{AllocError, Global};
use swc_ast::{DUMMY_SP, Expr, Ident, Lit, Number, SeqExpr};
use tree_put::Spot;

/// Whether a name is spelled `eval`.
fn is_named_eval(n: &Ident) -> bool
    ensures { result ≡ is_eval (ident_name n.now) }
{
    n.sym.as_str() == "eval"
}

/// Whether a host may have a value for a name: it is none of those that each function or each program has.
fn is_host(n: &Ident) -> bool
    ensures { result ≡ is_host_name (ident_name n.now).text }
{
    let name = n.sym.as_str();
    !(name == "undefined" || (name == "NaN" || (name == "Infinity" || name == "arguments")))
}

/// Whether a call of an expression is more than a call of its value: a call of a member hands on its object, and a call of
/// `eval` is direct (ECMA-262, 13.3.6.1).
#[tactic(auto, using(swc_ast::proofs::Equations::forms))]
fn is_bare_callee(e: &Expr) -> bool
    ensures { result ≡ bare_callee (expr_tree e.now) }
{
    match e {
        Expr::Member(_) => true,
        Expr::Ident(n) => is_named_eval(n),
        _ => false,
    }
}

/// Whether `typeof` of an expression may not read it: that of a host's name doesn't throw (ECMA-262, 13.5.3.1).
#[tactic(auto, using(swc_ast::proofs::Equations::forms))]
fn is_bare_operand(e: &Expr) -> bool
    ensures { result ≡ bare_operand (expr_tree e.now) }
{
    match e {
        Expr::Ident(n) => is_host(n),
        _ => false,
    }
}

/// Whether an expression would mean something else by itself.
fn is_bare(spot: Spot, e: &Expr) -> bool
    ensures { result ≡ bare spot (expr_tree e.now) }
{
    match spot {
        Spot::Callee => is_bare_callee(e),
        Spot::Operand => is_bare_operand(e),
        Spot::Here | Spot::Property => false,
    }
}

/// `(0, e)`. Fails where memory is refused.
#[tactic(auto, using(swc_ast::proofs::Equations::forms))]
fn guarded(alloc: Global, e: Expr) -> Result<Expr, AllocError>
    ensures { IfOk result (λ r. expr_tree r ≡ guarded_tree (expr_tree e)) }
{
    let zero = Expr::Lit(Lit::Num(Number {
        span: DUMMY_SP,
        value: 0,
    }));
    let exprs = vec![in alloc; zero, e]?;
    Ok(Expr::Seq(SeqExpr {
        span: DUMMY_SP,
        exprs,
    }))
}

/// An expression as it is put at a spot: `(0, e)` where a member or `eval` is called, or a host's name stands under `typeof`.
/// Fails where memory is refused.
pub fn shielded(alloc: Global, spot: Spot, e: Expr) -> Result<Expr, AllocError>
    ensures { IfOk result (λ r. expr_tree r ≡ shield spot (expr_tree e)) }
{
    if is_bare(spot, &e) {
        let shield = guarded(alloc, e)?;
        return Ok(shield);
    }
    Ok(e)
}
