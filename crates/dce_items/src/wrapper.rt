//! Wrappers: a function without a name or an arrow that is called where it stands.
ghost use Rattle.std.specs.Prelude.{◌≡◌, IfSome};
ghost use Rattle.swc_ast.specs.Expressions.{call_tree, fn_expr_tree};
ghost use Rattle.swc_ast.specs.Modules.{item_tree};
ghost use Rattle.swc_ast.specs.Parts.{list_trees};
ghost use Rattle.swc_ast.specs.Statements.{expr_stmt_tree};
ghost use Rattle.swc_ast.specs.Views.{arrow_tree, expr_tree, function_trees, stmt_tree};
ghost use Rattle.tree_visit.specs.Kinds.{kind_label};
ghost use Rattle.tree_visit.specs.Nodes.{children_forest};
ghost use Rattle.dce_rules.specs.Uses as uses;
ghost use Rattle.dce_layer_proofs.specs.Frames.{wrapped_call, wrapped_function, wrapped};
ghost use Rattle.dce_items.specs.Wrapped.{WrapperAt, Wraps};

use swc_ast::{ArrowExpr, BlockStmtOrExpr, CallExpr, Expr, ExprStmt, FnExpr, ModuleItem, Stmt};
use tree_visit::{Children, Kind};

fn body_of_function<'a>(n: &'a FnExpr) -> Option<&'a Vec<Stmt>>
    ensures { IfSome result (λ b. Wraps wrapped_function (fn_expr_tree function_trees n.now) (list_trees stmt_tree b.now.items)) }
{
    if n.ident.is_some() || !n.function.params.is_empty() {
        return None;
    }
    Some(&n.function.body.stmts)
}

fn body_of_arrow<'a>(n: &'a ArrowExpr) -> Option<&'a Vec<Stmt>>
    ensures { IfSome result (λ b. Wraps wrapped_function (arrow_tree n.now) (list_trees stmt_tree b.now.items)) }
{
    if !n.params.is_empty() {
        return None;
    }
    match &n.body {
        BlockStmtOrExpr::BlockStmt(body) => Some(&body.stmts),
        BlockStmtOrExpr::Expr(_) => None,
    }
}

#[tactic(auto, using(swc_ast::proofs::Equations::forms))]
fn body_of_callee<'a>(callee: &'a Expr) -> Option<&'a Vec<Stmt>>
    ensures { IfSome result (λ b. Wraps wrapped_function (expr_tree callee.now) (list_trees stmt_tree b.now.items)) }
{
    match callee {
        Expr::Fn(n) => body_of_function(n),
        Expr::Arrow(n) => body_of_arrow(n),
        _ => None,
    }
}

fn body_of_call<'a>(n: &'a CallExpr) -> Option<&'a Vec<Stmt>>
    ensures { IfSome result (λ b. Wraps wrapped_call (call_tree expr_tree n.now) (list_trees stmt_tree b.now.items)) }
{
    if !n.args.is_empty() {
        return None;
    }
    body_of_callee(&n.callee)
}

#[tactic(auto, using(swc_ast::proofs::Equations::forms))]
fn body_of_expr<'a>(e: &'a Expr) -> Option<&'a Vec<Stmt>>
    ensures { IfSome result (λ b. Wraps wrapped_call (expr_tree e.now) (list_trees stmt_tree b.now.items)) }
{
    match e {
        Expr::Call(n) => body_of_call(n),
        _ => None,
    }
}

fn body_of_statement<'a>(n: &'a ExprStmt) -> Option<&'a Vec<Stmt>>
    ensures { IfSome result (λ b. Wraps wrapped (expr_stmt_tree expr_tree n.now) (list_trees stmt_tree b.now.items)) }
{
    body_of_expr(&n.expr)
}

#[tactic(auto, using(swc_ast::proofs::Equations::forms))]
fn body_of_stmt<'a>(s: &'a Stmt) -> Option<&'a Vec<Stmt>>
    ensures { IfSome result (λ b. Wraps wrapped (stmt_tree s.now) (list_trees stmt_tree b.now.items)) }
{
    match s {
        Stmt::Expr(n) => body_of_statement(n),
        _ => None,
    }
}

/// The body of the function that an item calls, if the item is a wrapper: there are no parameters and no arguments.
fn body_of<'a>(item: &'a ModuleItem) -> Option<&'a Vec<Stmt>>
    ensures { IfSome result (λ b. Wraps wrapped (item_tree item.now) (list_trees stmt_tree b.now.items)) }
{
    match item {
        ModuleItem::Stmt(s) => body_of_stmt(s),
        ModuleItem::ModuleDecl(_) => None,
    }
}

/// The place of the first wrapper among a module's items, and its body.
pub(crate) fn wrapper_in<'a>(items: &'a [ModuleItem]) -> Option<(usize, &'a Vec<Stmt>)>
    ensures { IfSome result (λ p. WrapperAt items.now p.0 (list_trees stmt_tree p.1.now.items)) }
{
    for (at, item) in items.iter().enumerate() {
        if let Some(body) = body_of(item) {
            return Some((at, body));
        }
    }
    None
}

fn is_eval(kind: Kind<'_>) -> bool
    ensures { result ≡ uses.is_eval (kind_label kind.entry) }
{
    match kind {
        Kind::CallEval(_) => true,
        _ => false,
    }
}

/// Whether `eval` is called directly in trees.
#[cycle(calls_eval)]
#[tactic(auto, using(tree_visit::proofs::Caps::rest_falls, crate::proofs::Sizes::inner_falls, crate::proofs::Sizes::rest_within, crate::proofs::Wrapping::eval_here, crate::proofs::Wrapping::eval_behind, crate::proofs::Wrapping::no_eval))]
pub(crate) fn calls_eval(children: Children<'_>) -> bool
    ensures { result ≡ uses.any_eval (children_forest children.entry) }
{
    let mut left = children;
    while let Some((child, rest)) = left.next() {
        let opened = child.open();
        let inside = calls_eval(opened.children);
        if is_eval(opened.kind) || inside {
            return true;
        }
        left = rest;
    }
    false
}
