//! The rules of the pass at each node.
ghost use Rattle.std.specs.Prelude.{◌≡◌, not, IsFalse};
ghost use Rattle.swc_ast.specs.Modules.{module_decl_tree};
ghost use Rattle.swc_ast.specs.Redex as redex;
ghost use Rattle.swc_ast.specs.Views.{expr_tree};
ghost use Rattle.swc_ast.specs.Tree.{label_of};
ghost use Rattle.tree_walk.specs.Walks.{Became};
ghost use Rattle.dce_rules.specs.Shakes.{shake_pass};
ghost use Rattle.dce_code.specs.Knowledge.{shaker};

use dce_code::{Known, begins_with_asm};
use pass_places::is_delete;
use std::alloc::{AllocError, Global};
use swc_ast::{Expr, ModuleDecl, ModuleItem, Stmt, VarDecl};
use tree_walk::{ListPlace, Place, Rules};

/// The rules, for a module of which something is known.
#[derive(Drop)]
pub struct ShakeRules<'a> {
    pub alloc: Global,
    pub known: Known<'a>,
}

impl<'a> ShakeRules<'a> {
    /// Drops the specifiers of an import that go. Nothing is to do at another declaration of a module.
    fn leave_declaration(&self, n: &mut ModuleDecl) -> bool
        ensures { Became (shake_pass (shaker self.now.known)) result (module_decl_tree n.old) (module_decl_tree n.new) }
    {
        match n {
            ModuleDecl::Import(n) => self.known.drop_specifiers(n),
            ModuleDecl::ExportDecl(_)
            | ModuleDecl::ExportNamed(_)
            | ModuleDecl::ExportDefaultDecl(_)
            | ModuleDecl::ExportDefaultExpr(_) => false,
        }
    }
}

impl<'a> Rules for ShakeRules<'a> {
    ghost pass = { λ r. shake_pass (shaker r.known) };

    #[tactic(auto, using(crate::proofs::Entering::delete_shut))]
    fn enters_expr(&self, e: &Expr) -> bool
        ensures exactly { result ≡ not (redex.is_delete (label_of (expr_tree e.now))) }
        ensures shut { IsFalse result → (shake_pass (shaker self.now.known)).skips (expr_tree e.now) }
    {
        !is_delete(e)
    }

    fn enters_stmt(&self, s: &Stmt) -> bool {
        match s {
            Stmt::Block(n) => !begins_with_asm(&n.stmts),
            _ => true,
        }
    }

    fn enters_list(&self, _place: ListPlace, stmts: &Vec<Stmt>) -> bool {
        !begins_with_asm(stmts)
    }

    fn enters_items(&self, items: &Vec<ModuleItem>) -> bool {
        !begins_with_asm(items)
    }

    fn enters_item(&self, item: &ModuleItem) -> bool {
        match item {
            ModuleItem::ModuleDecl(ModuleDecl::ExportDefaultDecl(_)) => false,
            _ => true,
        }
    }

    fn enters_head(&self, _n: &VarDecl) -> bool {
        false
    }

    fn enter_expr(&self, place: Place, e: &mut Expr) -> Result<bool, AllocError> {
        self.known.open_expr(self.alloc, place, e)
    }

    fn enter_stmt(&self, s: &mut Stmt) -> Result<bool, AllocError> {
        Ok(self.known.open_stmt(s))
    }

    fn leave_expr(&self, _place: Place, e: &mut Expr) -> Result<bool, AllocError> {
        Ok(self.known.give_object(e))
    }

    fn leave_stmt(&self, s: &mut Stmt) -> Result<bool, AllocError> {
        self.known.shake_stmt(self.alloc, s)
    }

    #[tactic(auto, using(crate::proofs::Entering::list_became))]
    fn leave_list(&self, _place: ListPlace, stmts: &mut Vec<Stmt>) -> Result<bool, AllocError> {
        Ok(self.known.drop_items(stmts))
    }

    fn leave_item(&self, item: &mut ModuleItem) -> Result<bool, AllocError> {
        match item {
            ModuleItem::ModuleDecl(n) => Ok(self.leave_declaration(n)),
            ModuleItem::Stmt(n) => self.leave_stmt(n),
        }
    }

    #[tactic(auto, using(crate::proofs::Entering::items_became))]
    fn leave_items(&self, items: &mut Vec<ModuleItem>) -> Result<bool, AllocError> {
        Ok(self.known.drop_items(items))
    }
}
