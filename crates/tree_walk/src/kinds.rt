//! What kind of node an expression is.
ghost use Rattle.std.specs.Prelude.{◌≡◌, ◌&&◌, IsTrue, IsFalse, not};
ghost use Rattle.swc_ast.specs.Views.{expr_tree};
ghost use Rattle.tree_walk.specs.Parts.{member_tree_is, name_tree_is, part_of_call_is, eval_tree_is, is_typeof, part_of, operand_of, stands_alone};
ghost use Rattle.tree_walk.specs.Pass.{is_shallow};

use crate::rules::Place;
use swc_ast::{Expr, UnaryOp};

/// Returns whether an expression is a member.
#[tactic(auto, using(swc_ast::proofs::Equations::forms))]
pub fn is_member(e: &Expr) -> bool
    ensures { result ≡ member_tree_is (expr_tree e.now) }
{
    match e {
        Expr::Member(_) => true,
        Expr::Unary(_) => false,
        Expr::Call(_) => false,
        Expr::This(_)
        | Expr::Array(_)
        | Expr::Object(_)
        | Expr::Fn(_)
        | Expr::Update(_)
        | Expr::Bin(_)
        | Expr::Assign(_)
        | Expr::Cond(_)
        | Expr::New(_)
        | Expr::Seq(_)
        | Expr::Ident(_)
        | Expr::Lit(_)
        | Expr::Tpl(_)
        | Expr::Arrow(_)
        | Expr::Invalid(_) => false,
    }
}

/// Returns whether an expression is a name.
#[tactic(auto, using(swc_ast::proofs::Equations::forms))]
pub fn is_name(e: &Expr) -> bool
    ensures named { result ≡ name_tree_is (expr_tree e.now) }
    ensures shallow { IsTrue result → IsTrue (is_shallow (expr_tree e.now)) }
{
    match e {
        Expr::Ident(_) => true,
        Expr::Unary(_) => false,
        Expr::Call(_) => false,
        Expr::This(_)
        | Expr::Array(_)
        | Expr::Object(_)
        | Expr::Fn(_)
        | Expr::Update(_)
        | Expr::Bin(_)
        | Expr::Assign(_)
        | Expr::Member(_)
        | Expr::Cond(_)
        | Expr::New(_)
        | Expr::Seq(_)
        | Expr::Lit(_)
        | Expr::Tpl(_)
        | Expr::Arrow(_)
        | Expr::Invalid(_) => false,
    }
}

/// Returns whether a callee is a node of its own: no member, and not the name `eval`.
#[tactic(auto, using(swc_ast::proofs::Equations::forms))]
pub fn is_plain(e: &Expr) -> bool
    ensures plain { IsTrue result → IsFalse (part_of_call_is (expr_tree e.now)) }
    ensures eval { IsFalse result → IsFalse (member_tree_is (expr_tree e.now)) → IsTrue (eval_tree_is (expr_tree e.now)) }
{
    match e {
        Expr::Member(_) => false,
        Expr::Ident(n) => n.sym.as_str() != "eval",
        Expr::Unary(_) => true,
        Expr::Call(_) => true,
        Expr::This(_)
        | Expr::Array(_)
        | Expr::Object(_)
        | Expr::Fn(_)
        | Expr::Update(_)
        | Expr::Bin(_)
        | Expr::Assign(_)
        | Expr::Cond(_)
        | Expr::New(_)
        | Expr::Seq(_)
        | Expr::Lit(_)
        | Expr::Tpl(_)
        | Expr::Arrow(_)
        | Expr::Invalid(_) => true,
    }
}

/// Returns whether an operand is a name under `typeof`.
pub fn is_named_typeof(op: UnaryOp, e: &Expr) -> bool
    ensures named { result ≡ (is_typeof op && name_tree_is (expr_tree e.now)) }
    ensures shallow { IsTrue result → IsTrue (is_shallow (expr_tree e.now)) }
{
    match op {
        UnaryOp::TypeOf => is_name(e),
        UnaryOp::Minus
        | UnaryOp::Plus
        | UnaryOp::Bang
        | UnaryOp::Tilde
        | UnaryOp::Void
        | UnaryOp::Delete => false,
    }
}

/// Where a part of an expression stands, by where the expression stands.
pub fn part_place(place: Place) -> Place
    ensures { result ≡ part_of place }
{
    match place {
        Place::Callee | Place::Part => Place::Part,
        Place::Value | Place::Statement | Place::TypeOf | Place::Delete => Place::Value,
    }
}

/// Where the operand of an operator stands, by where the operator stands.
pub fn operand_place(op: UnaryOp, place: Place) -> Place
    ensures { result ≡ operand_of op place }
{
    match op {
        UnaryOp::TypeOf => Place::TypeOf,
        UnaryOp::Delete => Place::Delete,
        UnaryOp::Minus | UnaryOp::Plus | UnaryOp::Bang | UnaryOp::Tilde | UnaryOp::Void =>
            part_place(place),
    }
}

/// Whether an expression is a node of its own where it stands: a callee that is no member and not the name `eval`, an
/// operand of `typeof` that is no name, or one of `delete` that is no member.
#[tactic(auto, using(crate::proofs::NodeKinds::plain_is))]
pub fn fits(place: Place, e: &Expr) -> bool
    ensures { result ≡ stands_alone place (expr_tree e.now) }
{
    match place {
        Place::Callee => is_plain(e),
        Place::TypeOf => !is_name(e),
        Place::Delete => !is_member(e),
        Place::Value | Place::Statement | Place::Part => true,
    }
}
