//! What a statement and a declaration are and what their children are.
#![tactic(auto, unfolding(crate::specs::Nodes::children_forest))]

ghost use Rattle.swc_ast.specs.Statements.{declarator_tree, var_tree, try_tree};
ghost use Rattle.swc_ast.specs.Views.{expr_tree, stmt_tree, decl_tree, if_tree, switch_tree, for_tree};
ghost use Rattle.tree_visit.specs.Nodes.{Opens};

use crate::children::Children;
use crate::kind::Kind;
use crate::lists::NodeList;
use crate::node::Node;
use crate::opened::Opened;
use swc_ast::{
    Decl, ForStmt, IfStmt, Stmt, SwitchStmt, TryStmt, VarDecl, VarDeclKind, VarDeclarator,
};

/// What a statement is, and its children.
#[tactic(auto, using(swc_ast::proofs::Equations::forms), unfolding(crate::specs::Nodes::children_forest))]
#[inline(always)]
pub fn open_stmt<'a>(s: &'a Stmt) -> Opened<'a>
    ensures { Opens (stmt_tree s.now) result }
{
    match s {
        Stmt::Block(n) => Opened::listed(Kind::Block, NodeList::Stmts(&n.stmts)),
        Stmt::Empty(_) => Opened::leaf(Kind::Empty),
        Stmt::Return(n) => match &n.arg {
            Some(e) => Opened::new(Kind::Return, Children::One(Node::Expr(e))),
            None => Opened::leaf(Kind::Return),
        },
        Stmt::Labeled(n) => Opened::new(
            Kind::Labeled(&n.label),
            Children::One(Node::Stmt(&n.body)),
        ),
        Stmt::Break(n) => Opened::leaf(Kind::Break(&n.label)),
        Stmt::Continue(n) => Opened::leaf(Kind::Continue(&n.label)),
        Stmt::If(n) => open_if(n),
        Stmt::Switch(n) => open_switch(n),
        Stmt::Throw(n) => Opened::new(Kind::Throw, Children::One(Node::Expr(&n.arg))),
        Stmt::Try(n) => open_try(n),
        Stmt::While(n) => Opened::new(Kind::While, Children::While(&n.test, &n.body)),
        Stmt::DoWhile(n) => Opened::new(Kind::DoWhile, Children::DoWhile(&n.body, &n.test)),
        Stmt::For(n) => open_for(n),
        Stmt::Decl(n) => open_decl(n),
        Stmt::Expr(n) => Opened::new(Kind::ExprStmt, Children::One(Node::Expr(&n.expr))),
    }
}

#[tactic(auto, using(swc_ast::proofs::Equations::forms), unfolding(crate::specs::Nodes::children_forest))]
fn open_if<'a>(n: &'a IfStmt) -> Opened<'a>
    ensures { Opens (if_tree n.now) result }
{
    match &n.alt {
        Some(alt) => Opened::new(Kind::If, Children::IfElse(&n.test, &n.cons, alt)),
        None => Opened::new(Kind::If, Children::While(&n.test, &n.cons)),
    }
}

#[tactic(auto, using(swc_ast::proofs::Equations::forms), unfolding(crate::specs::Nodes::children_forest))]
fn open_switch<'a>(n: &'a SwitchStmt) -> Opened<'a>
    ensures { Opens (switch_tree n.now) result }
{
    Opened::new(
        Kind::Switch(&n.cases),
        Children::Switch(&n.discriminant, &n.cases),
    )
}

fn open_try<'a>(n: &'a TryStmt) -> Opened<'a>
    ensures { Opens (try_tree stmt_tree n.now) result }
{
    Opened::new(
        Kind::Try(&n.handler),
        Children::Try(&n.block, &n.handler, &n.finalizer),
    )
}

#[tactic(auto, using(swc_ast::proofs::Equations::forms), unfolding(crate::specs::Nodes::children_forest))]
fn open_for<'a>(n: &'a ForStmt) -> Opened<'a>
    ensures { Opens (for_tree n.now) result }
{
    Opened::new(
        Kind::For,
        Children::For(&n.init, &n.test, &n.update, &n.body),
    )
}

#[tactic(auto, using(swc_ast::proofs::Equations::forms), unfolding(crate::specs::Nodes::children_forest))]
pub(crate) fn open_decl<'a>(d: &'a Decl) -> Opened<'a>
    ensures { Opens (decl_tree d.now) result }
{
    match d {
        Decl::Fn(n) => Opened::new(
            Kind::FnDecl(&n.ident),
            Children::Function(&n.function.params, &n.function.body),
        ),
        Decl::Var(n) => open_var(n),
    }
}

pub(crate) fn open_var<'a>(n: &'a VarDecl) -> Opened<'a>
    ensures { Opens (var_tree expr_tree n.now) result }
{
    Opened::listed(
        Kind::VarDecl(n.kind),
        NodeList::Declarators(n.kind, &n.decls),
    )
}

pub(crate) fn open_declarator<'a>(kind: VarDeclKind, n: &'a VarDeclarator) -> Opened<'a>
    ensures { Opens (declarator_tree expr_tree kind n.now) result }
{
    match &n.init {
        Some(e) => Opened::new(
            Kind::Declarator(kind, &n.name),
            Children::One(Node::Expr(e)),
        ),
        None => Opened::leaf(Kind::Declarator(kind, &n.name)),
    }
}
