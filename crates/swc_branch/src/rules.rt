//! The rules of the pass at each node.
ghost use Rattle.std.specs.Prelude.{◌≡◌, ◌≤◌, false, not, IfOk};
ghost use Rattle.swc_ast.specs.Expressions.{param_tree};
ghost use Rattle.swc_ast.specs.Redex as redex;
ghost use Rattle.swc_ast.specs.Views.{expr_tree, stmt_tree};
ghost use Rattle.swc_ast.specs.Weight.{is_list};
ghost use Rattle.swc_ast.specs.Tree.{label_of};
ghost use Rattle.swc_utils.specs.Globals.{unresolved};
ghost use Rattle.swc_ast.specs.declared.statements.Stmt.{size-Stmt};
ghost use Rattle.tree_walk.specs.Walks.{Became, Opened, Stepped};
ghost use Rattle.pass_places.specs.Dropped.{has_void_default};
ghost use Rattle.branch_rules.specs.Removes.{remove_pass};

use crate::expressions::{fold_expr, is_ruled};
use crate::places::is_cramped;
use crate::statements::{finish_for, fold_stmt, is_loop, open_stmt};
use branch_lists::{tidy_items, tidy_statements};
use branch_loops::run_within;
use pass_places::{drop_default, is_delete, shielded};
use std::alloc::{AllocError, Global};
use swc_ast::{Expr, ModuleItem, Pat, Stmt};
use swc_utils::ExprCtx;
use tree_walk::{ListPlace, Place, Rules};

/// The rules, for a module whose unresolved names are those of a context.
#[derive(Drop)]
pub struct BranchRules {
    pub alloc: Global,
    pub ctx: ExprCtx,
}

impl BranchRules {
    /// A loop whose children are walked: each `do` in its body, and then its own rules; those of a `for` in one visit.
    #[inline(never)]
    fn leave_loop(&self, s: &mut Stmt) -> Result<bool, AllocError>
        requires { is_list (label_of (stmt_tree s.old)) ≡ false }
        ensures { IfOk result (λ changed. Became (remove_pass (unresolved self.now.ctx)) changed (stmt_tree s.old) (stmt_tree s.new)) }
    {
        let within = run_within(self.alloc, &self.ctx, s)?;
        match fold_stmt(self.alloc, &self.ctx, s)? {
            Some(turned) => {
                *s = turned;
                finish_for(self.alloc, &self.ctx, s)?;
                Ok(true)
            }
            None => Ok(within),
        }
    }
}

impl Rules for BranchRules {
    ghost pass = { λ r. remove_pass (unresolved r.ctx) };

    fn enters_expr(&self, e: &Expr) -> bool
        ensures { result ≡ not (redex.is_delete (label_of (expr_tree e.now))) }
    {
        !is_delete(e)
    }

    #[inline(never)]
    fn leave_expr(&self, place: Place, e: &mut Expr) -> Result<bool, AllocError> {
        if !is_ruled(e) {
            return Ok(false);
        }
        if is_cramped(place, e) {
            return Ok(false);
        }
        match fold_expr(self.alloc, &self.ctx, e)? {
            Some(folded) => {
                *e = shielded(self.alloc, place, folded)?;
                Ok(true)
            }
            None => Ok(false),
        }
    }

    fn enter_stmt(&self, s: &mut Stmt) -> Result<bool, AllocError>
        ensures opens { IfOk result (λ changed. Opened (remove_pass (unresolved self.now.ctx)) changed (stmt_tree s.old) (stmt_tree s.new)) }
        ensures no_deeper { IfOk result (λ changed. size-Stmt s.new ≤ size-Stmt s.old) }
    {
        open_stmt(self.alloc, &self.ctx, s)
    }

    #[tactic(auto, using(crate::proofs::Shields::default_at))]
    fn leave_param(&self, p: &mut Pat) -> Result<bool, AllocError>
        ensures step { IfOk result (λ changed. Stepped (remove_pass (unresolved self.now.ctx)) changed (param_tree expr_tree p.old) (param_tree expr_tree p.new)) }
        ensures goes { IfOk result (λ changed. changed ≡ has_void_default (unresolved self.now.ctx) (param_tree expr_tree p.old)) }
    {
        Ok(drop_default(&self.ctx, p))
    }

    fn leave_stmt(&self, s: &mut Stmt) -> Result<bool, AllocError> {
        if is_loop(s) {
            return self.leave_loop(s);
        }
        match fold_stmt(self.alloc, &self.ctx, s)? {
            Some(turned) => {
                *s = turned;
                Ok(true)
            }
            None => Ok(false),
        }
    }

    #[tactic(auto, using(crate::proofs::Becoming::list_becomes))]
    fn leave_list(&self, _place: ListPlace, stmts: &mut Vec<Stmt>) -> Result<bool, AllocError> {
        tidy_statements(self.alloc, stmts)
    }

    #[tactic(auto, using(crate::proofs::Resting::declaration_rests))]
    fn leave_item(&self, item: &mut ModuleItem) -> Result<bool, AllocError> {
        match item {
            ModuleItem::ModuleDecl(_) => Ok(false),
            ModuleItem::Stmt(n) => self.leave_stmt(n),
        }
    }

    fn leave_items(&self, items: &mut Vec<ModuleItem>) -> Result<bool, AllocError> {
        tidy_items(self.alloc, items)
    }
}
