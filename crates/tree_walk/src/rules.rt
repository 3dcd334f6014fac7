//! What a pass does at a node: before the node's children are walked, and behind that.
ghost use Rattle.std.specs.Prelude.{◌≤◌, IfOk, IsFalse};
ghost use Rattle.swc_ast.specs.Expressions.{param_tree};
ghost use Rattle.swc_ast.specs.Modules.{item_tree};
ghost use Rattle.swc_ast.specs.Parts.{list_trees};
ghost use Rattle.swc_ast.specs.Statements.{var_tree};
ghost use Rattle.swc_ast.specs.Tree.{Module};
ghost use Rattle.swc_ast.specs.Views.{expr_tree, stmt_tree};
ghost use Rattle.swc_ast.specs.declared.expressions.Expr.{size-Expr};
ghost use Rattle.swc_ast.specs.declared.statements.Stmt.{size-Stmt};
ghost use Rattle.tree_walk.specs.Pass.{Pass, only_head};
ghost use Rattle.tree_walk.specs.Walks.{Became, Fits, Opened, Stepped};
ghost use Rattle.tree_walk.specs.Lists.{ItemsBecame, ListBecame, Shut, list_label};

use std::alloc::AllocError;
use swc_ast::{Expr, ModuleItem, Pat, Stmt, VarDecl};

/// Where an expression stands.
#[derive(Clone, Copy, Debug, PartialEq, Eq)]
pub enum Place {
    /// The value is used.
    Value,
    /// The value is not used: the expression is a statement.
    Statement,
    /// What a call calls.
    Callee,
    /// The operand of `typeof`.
    TypeOf,
    /// The operand of `delete`.
    Delete,
    /// A part of a callee, of a target, or of the operand of an update. Arguments, items of a sequence in front of the
    /// last, functions and operands of `typeof` in such a part are values like others.
    Part,
}

/// Where a list of statements stands.
#[derive(Clone, Copy, Debug, PartialEq, Eq)]
pub enum ListPlace {
    Block,
    Body,
    Case,
    Script,
}

/// The rules of a pass. Each method gets a node, may change it in place, and says whether it did. `enter_expr` and
/// `enter_stmt` come before the node's children are walked, the others behind that: where one of these changes nothing,
/// no rule fits the node.
pub trait Rules {
    ghost pass: { Self → Pass };

    /// A step at an expression in front of its children, as `x = r` to `r` where nothing reads `x`. What it makes is no
    /// deeper, and is walked in the expression's place.
    fn enter_expr(&self, _place: Place, _e: &mut Expr) -> Result<bool, AllocError>
        ensures opens { IfOk result (λ changed. Opened (pass self.now) changed (expr_tree _e.old) (expr_tree _e.new)) }
        ensures fits { IfOk result (λ changed. Fits _place (expr_tree _e.old) → Fits _place (expr_tree _e.new)) }
        ensures no_deeper { IfOk result (λ changed. size-Expr _e.new ≤ size-Expr _e.old) }
    {
        Ok(false)
    }

    /// The same at a statement.
    fn enter_stmt(&self, _s: &mut Stmt) -> Result<bool, AllocError>
        ensures opens { IfOk result (λ changed. Opened (pass self.now) changed (stmt_tree _s.old) (stmt_tree _s.new)) }
        ensures no_deeper { IfOk result (λ changed. size-Stmt _s.new ≤ size-Stmt _s.old) }
    {
        Ok(false)
    }

    /// Whether the walk goes into an expression: one that it doesn't enter stays as it is.
    fn enters_expr(&self, _e: &Expr) -> bool
        ensures { IsFalse result → (pass self.now).skips (expr_tree _e.now) }
    {
        true
    }

    /// Whether the walk goes into a statement.
    fn enters_stmt(&self, _s: &Stmt) -> bool
        ensures { IsFalse result → (pass self.now).skips (stmt_tree _s.now) }
    {
        true
    }

    /// Whether the walk goes into a list of statements: a body, a case, a script, or a block that is no statement.
    fn enters_list(&self, _place: ListPlace, _stmts: &Vec<Stmt>) -> bool
        ensures { IsFalse result → Shut (pass self.now) (list_label _place) (list_trees stmt_tree _stmts.now.items) }
    {
        true
    }

    /// Whether the walk goes into the items of a module.
    fn enters_items(&self, _items: &Vec<ModuleItem>) -> bool
        ensures { IsFalse result → Shut (pass self.now) Module (list_trees item_tree _items.now.items) }
    {
        true
    }

    /// Whether the walk goes into an item of a module.
    fn enters_item(&self, _item: &ModuleItem) -> bool
        ensures { IsFalse result → (pass self.now).skips (item_tree _item.now) }
    {
        true
    }

    /// Whether the walk goes into the declaration in the head of a `for`.
    fn enters_head(&self, _n: &VarDecl) -> bool
        ensures { IsFalse result → (pass self.now).skips (only_head (var_tree expr_tree _n.now)) }
    {
        true
    }

    /// An expression whose children are walked.
    fn leave_expr(&self, place: Place, e: &mut Expr) -> Result<bool, AllocError>
        ensures steps { IfOk result (λ changed. Became (pass self.now) changed (expr_tree e.old) (expr_tree e.new)) }
        ensures fits { IfOk result (λ changed. Fits place (expr_tree e.old) → Fits place (expr_tree e.new)) };

    /// A parameter whose default is walked: it may lose it.
    fn leave_param(&self, _p: &mut Pat) -> Result<bool, AllocError>
        ensures { IfOk result (λ changed. Stepped (pass self.now) changed (param_tree expr_tree _p.old) (param_tree expr_tree _p.new)) }
    {
        Ok(false)
    }

    /// A statement whose children are walked.
    fn leave_stmt(&self, s: &mut Stmt) -> Result<bool, AllocError>
        ensures { IfOk result (λ changed. Became (pass self.now) changed (stmt_tree s.old) (stmt_tree s.new)) };

    /// A list of statements, once each of them is walked: it may drop some, add some and flatten some.
    fn leave_list(&self, place: ListPlace, stmts: &mut Vec<Stmt>) -> Result<bool, AllocError>
        ensures { IfOk result (λ changed. ListBecame (pass self.now) place changed stmts.old.items stmts.new.items) };

    /// An item of a module that is no statement.
    fn leave_item(&self, item: &mut ModuleItem) -> Result<bool, AllocError>
        ensures { IfOk result (λ changed. Became (pass self.now) changed (item_tree item.old) (item_tree item.new)) };

    /// The items of a module, once each of them is walked.
    fn leave_items(&self, items: &mut Vec<ModuleItem>) -> Result<bool, AllocError>
        ensures { IfOk result (λ changed. ItemsBecame (pass self.now) changed items.old.items items.new.items) };
}
