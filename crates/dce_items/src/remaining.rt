//! What is left of the body of a wrapper.
ghost use Rattle.std.specs.Prelude.{◌≡◌, IfOk, IsFalse, IsTrue, OnOk};
ghost use Rattle.swc_ast.specs.Expressions.{body_tree, call_tree, fn_expr_tree};
ghost use Rattle.swc_ast.specs.Modules.{item_tree};
ghost use Rattle.swc_ast.specs.Parts.{list_trees};
ghost use Rattle.swc_ast.specs.Statements.{expr_stmt_tree};
ghost use Rattle.swc_ast.specs.Views.{arrow_body_tree, arrow_tree, expr_tree, function_trees, stmt_tree};
ghost use Rattle.dce_layer_proofs.specs.Frames.{wrapped_call, wrapped_function, wrapped};
ghost use Rattle.dce_items.specs.Remaining.{Remains, RemainsIn, wrapped_body};

use crate::inside::Inside;
use dce_peel::what_stays;
use std::alloc::{AllocError, Global};
use std::mem;
use swc_ast::{
    ArrowExpr, BlockStmt, BlockStmtOrExpr, CallExpr, Expr, ExprStmt, FnExpr, ModuleItem, Stmt,
};

impl Inside {
    /// Leaves what stays of statements.
    fn leave_stmts(&self, alloc: Global, stmts: &mut Vec<Stmt>) -> Result<(), AllocError>
        ensures { OnOk result (Remains self.now (list_trees stmt_tree stmts.old.items) (list_trees stmt_tree stmts.new.items)) }
    {
        let items = mem::replace(stmts, Vec::new(alloc));
        *stmts = what_stays(alloc, items, &self.layers, self.rounds)?;
        Ok(())
    }

    /// The same in a function.
    fn leave_function(&self, alloc: Global, n: &mut FnExpr) -> Result<(), AllocError>
        ensures { OnOk result (RemainsIn wrapped_function self.now (fn_expr_tree function_trees n.old) (fn_expr_tree function_trees n.new)) }
    {
        self.leave_stmts(alloc, &mut n.function.body.stmts)?;
        Ok(())
    }

    /// The same in a block that is a body.
    fn leave_block(&self, alloc: Global, n: &mut BlockStmt) -> Result<(), AllocError>
        ensures { OnOk result (RemainsIn wrapped_body self.now (body_tree stmt_tree n.old) (body_tree stmt_tree n.new)) }
    {
        self.leave_stmts(alloc, &mut n.stmts)?;
        Ok(())
    }

    /// The same in the body of an arrow. False where that is no block.
    #[tactic(auto, using(swc_ast::proofs::Equations::forms))]
    fn leave_body(&self, alloc: Global, body: &mut BlockStmtOrExpr) -> Result<bool, AllocError>
        ensures remains { IfOk result (λ b. IsTrue b → RemainsIn wrapped_body self.now (arrow_body_tree body.old) (arrow_body_tree body.new)) }
        ensures same { IfOk result (λ b. IsFalse b → arrow_body_tree body.new ≡ arrow_body_tree body.old) }
    {
        match body {
            BlockStmtOrExpr::BlockStmt(n) => {
                self.leave_block(alloc, n)?;
                Ok(true)
            }
            BlockStmtOrExpr::Expr(_) => Ok(false),
        }
    }

    fn leave_boxed_arrow(&self, alloc: Global, n: &mut Box<ArrowExpr>) -> Result<bool, AllocError>
        ensures remains { IfOk result (λ b. IsTrue b → RemainsIn wrapped_function self.now (arrow_tree n.old.value) (arrow_tree n.new.value)) }
        ensures same { IfOk result (λ b. IsFalse b → arrow_tree n.new.value ≡ arrow_tree n.old.value) }
    {
        self.leave_arrow(alloc, n)
    }

    fn leave_arrow(&self, alloc: Global, n: &mut ArrowExpr) -> Result<bool, AllocError>
        ensures remains { IfOk result (λ b. IsTrue b → RemainsIn wrapped_function self.now (arrow_tree n.old) (arrow_tree n.new)) }
        ensures same { IfOk result (λ b. IsFalse b → arrow_tree n.new ≡ arrow_tree n.old) }
    {
        self.leave_body(alloc, &mut n.body)
    }

    /// The same in what is called. False where it is neither.
    #[tactic(auto, using(swc_ast::proofs::Equations::forms))]
    fn leave_callee(&self, alloc: Global, callee: &mut Expr) -> Result<bool, AllocError>
        ensures remains { IfOk result (λ b. IsTrue b → RemainsIn wrapped_function self.now (expr_tree callee.old) (expr_tree callee.new)) }
        ensures same { IfOk result (λ b. IsFalse b → expr_tree callee.new ≡ expr_tree callee.old) }
    {
        match callee {
            Expr::Fn(n) => {
                self.leave_function(alloc, n)?;
                Ok(true)
            }
            Expr::Arrow(n) => self.leave_boxed_arrow(alloc, n),
            _ => Ok(false),
        }
    }

    /// The same in a call.
    fn leave_call(&self, alloc: Global, n: &mut CallExpr) -> Result<bool, AllocError>
        ensures remains { IfOk result (λ b. IsTrue b → RemainsIn wrapped_call self.now (call_tree expr_tree n.old) (call_tree expr_tree n.new)) }
        ensures same { IfOk result (λ b. IsFalse b → call_tree expr_tree n.new ≡ call_tree expr_tree n.old) }
    {
        self.leave_callee(alloc, &mut n.callee)
    }

    #[tactic(auto, using(swc_ast::proofs::Equations::forms))]
    fn leave_expr(&self, alloc: Global, e: &mut Expr) -> Result<bool, AllocError>
        ensures remains { IfOk result (λ b. IsTrue b → RemainsIn wrapped_call self.now (expr_tree e.old) (expr_tree e.new)) }
        ensures same { IfOk result (λ b. IsFalse b → expr_tree e.new ≡ expr_tree e.old) }
    {
        match e {
            Expr::Call(n) => self.leave_call(alloc, n),
            _ => Ok(false),
        }
    }

    /// The same in an expression as a statement.
    fn leave_statement(&self, alloc: Global, n: &mut ExprStmt) -> Result<bool, AllocError>
        ensures remains { IfOk result (λ b. IsTrue b → RemainsIn wrapped self.now (expr_stmt_tree expr_tree n.old) (expr_stmt_tree expr_tree n.new)) }
        ensures same { IfOk result (λ b. IsFalse b → expr_stmt_tree expr_tree n.new ≡ expr_stmt_tree expr_tree n.old) }
    {
        self.leave_expr(alloc, &mut n.expr)
    }

    #[tactic(auto, using(swc_ast::proofs::Equations::forms))]
    fn leave_stmt(&self, alloc: Global, s: &mut Stmt) -> Result<bool, AllocError>
        ensures remains { IfOk result (λ b. IsTrue b → RemainsIn wrapped self.now (stmt_tree s.old) (stmt_tree s.new)) }
        ensures same { IfOk result (λ b. IsFalse b → stmt_tree s.new ≡ stmt_tree s.old) }
    {
        match s {
            Stmt::Expr(n) => self.leave_statement(alloc, n),
            _ => Ok(false),
        }
    }

    /// Leaves what stays of the body of a wrapper. False where the item is none, and is as it was.
    pub fn leave_item(&self, alloc: Global, item: &mut ModuleItem) -> Result<bool, AllocError>
        ensures remains { IfOk result (λ b. IsTrue b → RemainsIn wrapped self.now (item_tree item.old) (item_tree item.new)) }
        ensures same { IfOk result (λ b. IsFalse b → item_tree item.new ≡ item_tree item.old) }
    {
        match item {
            ModuleItem::Stmt(s) => self.leave_stmt(alloc, s),
            ModuleItem::ModuleDecl(_) => Ok(false),
        }
    }
}
