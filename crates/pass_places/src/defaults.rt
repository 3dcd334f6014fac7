//! Defaults of parameters that are undefined anyway.
ghost use Rattle.std.specs.Prelude.{◌≡◌};
ghost use Rattle.swc_ast.specs.Expressions.{param_tree};
ghost use Rattle.swc_ast.specs.Views.{expr_tree};
ghost use Rattle.swc_utils.specs.Globals.{unresolved};
ghost use Rattle.pass_rules.specs.Defaults as rules;
ghost use Rattle.pass_places.specs.Dropped.{MayDrop, has_void_default};

use std::alloc::{AllocError, Global};
use std::mem;
use swc_ast::{Atom, Expr, Ident, Pat, SyntaxContext, UnaryOp};
use swc_utils::{ExprCtx, ExprExt};

/// Whether an expression is `undefined`, or `void` of what has no effect.
#[tactic(auto, using(swc_ast::proofs::Equations::forms))]
fn is_void(ctx: &ExprCtx, e: &Expr) -> bool
    ensures { result ≡ rules.is_void (unresolved ctx.now) (expr_tree e.now) }
{
    match e {
        Expr::Unary(n) => match n.op {
            UnaryOp::Void => !n.arg.may_have_side_effects(ctx),
            _ => false,
        },
        _ => e.is_undefined(ctx),
    }
}

/// Drops the default of a parameter where it is `undefined`, or `void` of an expression without effects: without one a
/// parameter is undefined too (ECMA-262, 8.6.3). Answers whether it did; where it didn't the parameter is as it was.
pub fn drop_default(ctx: &ExprCtx, p: &mut Pat) -> bool
    ensures step { MayDrop (unresolved ctx.now) result (param_tree expr_tree p.old) (param_tree expr_tree p.new) }
    ensures goes { result ≡ has_void_default (unresolved ctx.now) (param_tree expr_tree p.old) }
{
    match p {
        Pat::Ident(_) => false,
        Pat::Assign(n) => {
            if !is_void(ctx, &n.right) {
                return false;
            }
            let nameless = Ident {
                span: n.span,
                sym: Atom::new(),
                ctxt: SyntaxContext::empty(),
            };
            let name = mem::replace(&mut n.left, nameless);
            *p = Pat::Ident(name);
            true
        }
    }
}
