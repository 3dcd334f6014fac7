//! Assignments to names that nothing reads, before their values are walked.
ghost use Rattle.std.specs.Prelude.{◌≡◌, ◌<◌, ◌≤◌, true, IfOk, IfSome, IsNone, IsTrue, List};
ghost use Rattle.swc_ast.specs.Expressions.{assign_tree};
ghost use Rattle.swc_ast.specs.Views.{expr_tree};
ghost use Rattle.swc_ast.specs.declared.Span.{Span};
ghost use Rattle.swc_ast.specs.declared.expressions.Expr.{size-Expr};
ghost use Rattle.tree_walk.specs.Walks.{Fits, Opened};
ghost use Rattle.pass_rules.specs.Leaves.{guarded};
ghost use Rattle.swc_utils.specs.Pure.{pure};
ghost use Rattle.dce_rules.specs.Shakes.{Opens, shake_pass};
ghost use Rattle.dce_code.specs.Knowledge.{shaker};
ghost use Rattle.dce_code.specs.Assignments.{Unread};

use crate::known::Known;
use pass_places::shield;
use std::alloc::{AllocError, Global};
use swc_ast::{AssignExpr, AssignOp, AssignTarget, Expr};
use swc_utils::ExprExt;
use tree_nodes::take;
use tree_walk::{Place, fits};

impl<'a> Known<'a> {
    /// Whether an assignment is a plain one to a name that nothing reads.
    fn is_idle(&self, n: &AssignExpr) -> bool
        ensures { IsTrue result → Unread (shaker self.now) (expr_tree n.now.right.value) (assign_tree expr_tree n.now) }
    {
        match &n.left {
            AssignTarget::Ident(name) => match n.op {
                AssignOp::Assign => self.is_unread(name),
                _ => false,
            },
            AssignTarget::Member(_) => false,
        }
    }

    /// Moves the value out of an assignment that goes: a plain one to a name that nothing reads, of a pure value. None: it
    /// stays as it is.
    fn take_pure(&self, n: &mut AssignExpr) -> Option<Expr>
        ensures value { IfSome result (λ r. r ≡ n.old.right.value) }
        ensures idle { IfSome result (λ r. Unread (shaker self.now) (expr_tree n.old.right.value) (assign_tree expr_tree n.old)) }
        ensures pure { IfSome result (λ r. pure (shaker self.now).mark (expr_tree r) ≡ true) }
        ensures stays { IsNone result → n.new ≡ n.old }
    {
        if !self.is_idle(n) {
            return None;
        }
        if n.right.may_have_side_effects(&self.ctx) {
            return None;
        }
        Some(take(&mut n.right))
    }

    fn take_boxed(&self, n: &mut Box<AssignExpr>) -> Option<Expr>
        ensures value { IfSome result (λ r. r ≡ n.old.value.right.value) }
        ensures idle { IfSome result (λ r. Unread (shaker self.now) (expr_tree n.old.value.right.value) (assign_tree expr_tree n.old.value)) }
        ensures pure { IfSome result (λ r. pure (shaker self.now).mark (expr_tree r) ≡ true) }
        ensures stays { IsNone result → n.new ≡ n.old }
    {
        self.take_pure(n)
    }

    /// The same of an expression, where it is such an assignment.
    #[tactic(auto, using(swc_ast::proofs::Equations::forms, crate::proofs::Idle::gives_value, crate::proofs::Idle::gives_shielded))]
    fn take_value(&self, e: &mut Expr) -> Option<Expr>
        ensures opens { IfSome result (λ r. Opens (shaker self.now) (expr_tree e.old) (expr_tree r)) }
        ensures shielded { IfSome result (λ r. (rs zs : List Span) → Opens (shaker self.now) (expr_tree e.old) (guarded rs zs (expr_tree r))) }
        ensures shallower { IfSome result (λ r. size-Expr r < size-Expr e.old) }
        ensures stays { IsNone result → e.new ≡ e.old }
    {
        match e {
            Expr::Assign(n) => self.take_boxed(n),
            _ => None,
        }
    }

    /// Puts the value of an assignment that goes in the assignment's place: of a plain one to a name that nothing reads, of a
    /// pure value. Where the value would mean something else by itself, `(0, value)` stands
    /// there. False: the expression is as it was. Fails where memory is refused.
    #[tactic(auto, using(tree_walk::proofs::NodeKinds::alone_fits))]
    pub fn open_expr(&self, alloc: Global, place: Place, e: &mut Expr) -> Result<bool, AllocError>
        ensures opens { IfOk result (λ changed. Opened (shake_pass (shaker self.now)) changed (expr_tree e.old) (expr_tree e.new)) }
        ensures fits { IfOk result (λ changed. Fits place (expr_tree e.old) → Fits place (expr_tree e.new)) }
        ensures no_deeper { IfOk result (λ changed. size-Expr e.new ≤ size-Expr e.old) }
    {
        match self.take_value(e) {
            None => Ok(false),
            Some(value) => {
                if fits(place, &value) {
                    *e = value;
                    return Ok(true);
                }
                *e = shield(alloc, value)?;
                Ok(true)
            }
        }
    }
}
