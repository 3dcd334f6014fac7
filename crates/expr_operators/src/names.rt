//! A bound name, or its type, beside itself.
ghost use Rattle.std.specs.Prelude.{◌≡◌, IfSome, Some};
ghost use Rattle.swc_ast.specs.Parts.{ident_name};
ghost use Rattle.swc_ast.specs.Views.{expr_tree};
ghost use Rattle.swc_utils.specs.Globals.{unresolved};
ghost use Rattle.expr_rules.specs.Comparisons as rules;
ghost use Rattle.expr_operators.specs.Names as names;
ghost use Rattle.expr_operators.specs.Steps.{TruthStep};

use swc_ast::{BinaryOp, Expr, Ident, UnaryOp};
use swc_utils::ExprCtx;
use tree_nodes::{is_bound, is_same_name};

/// What is so of every value beside itself.
fn value_beside_itself(op: BinaryOp) -> Option<bool>
    ensures { result ≡ rules.beside_itself op }
{
    match op {
        BinaryOp::Lt | BinaryOp::Gt => Some(false),
        _ => None,
    }
}

/// What is so of every text beside itself.
fn text_beside_itself(op: BinaryOp) -> Option<bool>
    ensures { result ≡ rules.text_beside_itself op }
{
    match op {
        BinaryOp::Lt | BinaryOp::Gt | BinaryOp::NotEq | BinaryOp::NotEqEq => Some(false),
        BinaryOp::LtEq | BinaryOp::GtEq | BinaryOp::EqEq | BinaryOp::EqEqEq => Some(true),
        _ => None,
    }
}

/// The name that an expression is.
#[tactic(auto, using(swc_ast::proofs::Equations::forms))]
fn read_name(e: &Expr) -> Option<&Ident>
    ensures { IfSome result (λ x. names.read_name (expr_tree e.now) ≡ Some (ident_name x.now)) }
{
    match e {
        Expr::Ident(name) => Some(name),
        _ => None,
    }
}

/// The name whose type an expression asks for.
#[tactic(auto, using(swc_ast::proofs::Equations::forms), unfolding(swc_ast::specs::Expressions::unary_node))]
fn typeof_name(e: &Expr) -> Option<&Ident>
    ensures { IfSome result (λ x. names.typeof_name (expr_tree e.now) ≡ Some (ident_name x.now)) }
{
    match e {
        Expr::Unary(n) => match n.op {
            UnaryOp::TypeOf => match &*n.arg {
                Expr::Ident(name) => Some(name),
                _ => None,
            },
            _ => None,
        },
        _ => None,
    }
}

/// What an operator gives of a bound name beside itself, or of its type beside itself.
#[tactic(auto, using(crate::proofs::Beside::name_step, crate::proofs::Beside::type_step))]
pub(crate) fn beside_itself(ctx: &ExprCtx, op: BinaryOp, left: &Expr, right: &Expr) -> Option<bool>
    ensures { IfSome result (λ r. TruthStep (unresolved ctx.now) op (expr_tree left.now) (expr_tree right.now) r) }
{
    if let (Some(a), Some(b)) = (read_name(left), read_name(right)) {
        if is_bound(ctx, a) && is_same_name(a, b) {
            return value_beside_itself(op);
        }
        return None;
    }
    if let (Some(a), Some(b)) = (typeof_name(left), typeof_name(right)) {
        if is_bound(ctx, a) && is_same_name(a, b) {
            return text_beside_itself(op);
        }
    }
    None
}
