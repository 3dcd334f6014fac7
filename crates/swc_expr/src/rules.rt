//! The rules of the pass at each node.
ghost use Rattle.std.specs.Prelude.{◌≡◌, not, IfOk, IsFalse, IsNone};
ghost use Rattle.swc_ast.specs.Expressions.{param_tree};
ghost use Rattle.swc_ast.specs.Redex as redex;
ghost use Rattle.swc_ast.specs.Views.{expr_tree};
ghost use Rattle.swc_ast.specs.Tree.{label_of};
ghost use Rattle.swc_utils.specs.Globals.{unresolved};
ghost use Rattle.tree_walk.specs.Walks.{Stepped};
ghost use Rattle.pass_places.specs.Dropped.{has_void_default};
ghost use Rattle.expr_rules.specs.Replaced.{Replaced};
ghost use Rattle.swc_expr.specs.Simplifies.{Rests, simplify_pass};

use expr_members::{fold_member, fold_sequence, spread_items, spread_properties};
use expr_operators::{fold_binary, fold_condition, fold_unary};
use pass_places::{drop_default, is_delete, is_shield, shielded};
use std::alloc::{AllocError, Global};
use swc_ast::{Expr, ModuleItem, PassError, Pat, Stmt};
use swc_utils::ExprCtx;
use tree_walk::{ListPlace, Place, Rules};

/// The rules, for a module whose unresolved names are those of a context.
#[derive(Drop)]
pub struct ExprRules {
    pub alloc: Global,
    pub ctx: ExprCtx,
}

/// Whether a rule may fit an expression of this kind.
#[inline(always)]
#[tactic(auto, using(swc_ast::proofs::Equations::forms))]
fn is_ruled(e: &Expr) -> bool
    ensures { IsFalse result → Rests (expr_tree e.now) }
{
    match e {
        Expr::Unary(_) => true,
        Expr::Bin(_) => true,
        Expr::Cond(_) => true,
        Expr::Seq(_) => true,
        Expr::Array(_) => true,
        Expr::Object(_) => true,
        Expr::Member(_) => true,
        Expr::Call(_) => false,
        Expr::This(_)
        | Expr::Fn(_)
        | Expr::Update(_)
        | Expr::Assign(_)
        | Expr::New(_)
        | Expr::Ident(_)
        | Expr::Lit(_)
        | Expr::Tpl(_)
        | Expr::Arrow(_)
        | Expr::Invalid(_) => false,
    }
}

/// Whether an expression is a callee.
fn is_callee(place: Place) -> bool {
    match place {
        Place::Callee => true,
        Place::Value | Place::Statement | Place::TypeOf | Place::Delete | Place::Part => false,
    }
}

/// Whether a member is read for its value alone: not in a callee, and not where it is written.
fn is_read(place: Place) -> bool {
    match place {
        Place::Value | Place::Statement | Place::TypeOf => true,
        Place::Callee | Place::Delete | Place::Part => false,
    }
}

impl ExprRules {
    /// What takes an expression's place, whose children are done. None: no rule fits, and it is as it was.
    #[tactic(auto, using(swc_ast::proofs::Equations::forms))]
    fn fold(&self, place: Place, e: &mut Expr) -> Result<Option<Expr>, PassError>
        ensures steps { IfOk result (λ o. Replaced (unresolved self.now.ctx) (expr_tree e.old) (expr_tree e.new) o) }
        ensures finished { IfOk result (λ o. IsNone o → Rests (expr_tree e.new)) }
    {
        match e {
            Expr::Unary(n) => fold_unary(self.alloc, &self.ctx, n),
            Expr::Bin(n) => fold_binary(self.alloc, &self.ctx, n),
            Expr::Cond(n) => fold_condition(self.alloc, &self.ctx, n),
            Expr::Seq(n) => Ok(fold_sequence(self.alloc, &self.ctx, is_callee(place), n)?),
            Expr::Array(n) => Ok(spread_items(self.alloc, n)?),
            Expr::Object(n) => Ok(spread_properties(self.alloc, n)?),
            Expr::Member(n) => {
                if !is_read(place) {
                    return Ok(None);
                }
                fold_member(self.alloc, &self.ctx, n)
            }
            Expr::Call(_) => Ok(None),
            Expr::This(_)
            | Expr::Fn(_)
            | Expr::Update(_)
            | Expr::Assign(_)
            | Expr::New(_)
            | Expr::Ident(_)
            | Expr::Lit(_)
            | Expr::Tpl(_)
            | Expr::Arrow(_)
            | Expr::Invalid(_) => Ok(None),
        }
    }
}

impl Rules for ExprRules {
    ghost pass = { λ r. simplify_pass (unresolved r.ctx) };

    fn enters_expr(&self, e: &Expr) -> bool
        ensures { result ≡ not (redex.is_delete (label_of (expr_tree e.now))) }
    {
        !is_delete(e)
    }

    #[inline(never)]
    fn leave_expr(&self, place: Place, e: &mut Expr) -> Result<bool, AllocError> {
        if !is_ruled(e) {
            return Ok(false);
        }
        if is_shield(place, e) {
            return Ok(false);
        }
        match self.fold(place, e) {
            Ok(Some(folded)) => {
                *e = shielded(self.alloc, place, folded)?;
                Ok(true)
            }
            Ok(None) => Ok(false),
            Err(_) => Err(AllocError),
        }
    }

    #[tactic(auto, using(crate::proofs::Shields::default_at))]
    fn leave_param(&self, p: &mut Pat) -> Result<bool, AllocError>
        ensures step { IfOk result (λ changed. Stepped (simplify_pass (unresolved self.now.ctx)) changed (param_tree expr_tree p.old) (param_tree expr_tree p.new)) }
        ensures goes { IfOk result (λ changed. changed ≡ has_void_default (unresolved self.now.ctx) (param_tree expr_tree p.old)) }
    {
        Ok(drop_default(&self.ctx, p))
    }

    fn leave_stmt(&self, _s: &mut Stmt) -> Result<bool, AllocError> {
        Ok(false)
    }

    fn leave_list(&self, _place: ListPlace, _stmts: &mut Vec<Stmt>) -> Result<bool, AllocError> {
        Ok(false)
    }

    fn leave_item(&self, _item: &mut ModuleItem) -> Result<bool, AllocError> {
        Ok(false)
    }

    fn leave_items(&self, _items: &mut Vec<ModuleItem>) -> Result<bool, AllocError> {
        Ok(false)
    }
}
