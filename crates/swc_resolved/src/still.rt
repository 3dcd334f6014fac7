//! Nodes that give no names, told by a look at what they are.
ghost use Rattle.std.specs.Prelude.{◌≡◌, [], IsTrue, IfSome};
ghost use Rattle.swc_ast.specs.Resolved.{first_names};
ghost use Rattle.swc_ast.specs.Scope.{vars, declared_by};
ghost use Rattle.swc_ast.specs.Modules.{item_tree};
ghost use Rattle.swc_ast.specs.Views.{stmt_tree, decl_tree};
ghost use Rattle.tree_visit.specs.Nodes.{node_tree};
ghost use Rattle.swc_resolved.specs.Parts.{tree_names};

use crate::declared::Part;
use swc_ast::{Decl, ModuleItem, Stmt, VarDeclKind};
use tree_visit::{Node, NodeList};

/// Whether a node gives no names, by a look at what it is.
#[inline(always)]
#[tactic(auto, using(crate::proofs::Silent::expression_vars, crate::proofs::Silent::statement_vars, crate::proofs::Silent::statement_declares, crate::proofs::Silent::statement_imports))]
pub(crate) fn is_still(n: Node<'_>, part: Part) -> bool
    ensures { IsTrue result → tree_names part (node_tree n.entry) ≡ [] }
{
    match statement_of(n) {
        Some(s) => match part {
            Part::Vars => has_no_var(s),
            Part::Declarations => declares_nothing(s),
            Part::Imports => true,
            _ => false,
        },
        None => match n {
            Node::Expr(_) => match part {
                Part::Vars => true,
                _ => false,
            },
            _ => false,
        },
    }
}

/// The statement that a node is, if it is one by itself or of a list.
#[inline(always)]
fn statement_of<'a>(n: Node<'a>) -> Option<&'a Stmt>
    ensures { IfSome result (λ s. node_tree n.entry ≡ stmt_tree s.now) }
{
    match n {
        Node::Stmt(s) => Some(s),
        Node::At(NodeList::Stmts(xs), at) => { if at < xs.len() { Some(&xs[at]) } else { None } }
        Node::At(NodeList::ModuleItems(xs), at) => {
            if at < xs.len() {
                statement_in(&xs[at])
            } else {
                None
            }
        }
        _ => None,
    }
}

/// The statement that an item of a module is, if it is one.
#[inline(always)]
fn statement_in<'a>(n: &'a ModuleItem) -> Option<&'a Stmt>
    ensures { IfSome result (λ s. item_tree n.now ≡ stmt_tree s.now) }
{
    match n {
        ModuleItem::ModuleDecl(_) => None,
        ModuleItem::Stmt(s) => Some(s),
    }
}

/// Whether a statement holds no `var`.
#[inline(always)]
#[tactic(auto, using(swc_ast::proofs::Equations::forms))]
fn has_no_var(s: &Stmt) -> bool
    ensures { IsTrue result → vars (stmt_tree s.now) ≡ [] }
{
    match s {
        Stmt::Empty(_) | Stmt::Expr(_) | Stmt::Return(_) => true,
        Stmt::Throw(_) | Stmt::Break(_) | Stmt::Continue(_) => true,
        Stmt::Decl(d) => is_no_var(d),
        _ => false,
    }
}

/// Whether a declaration is none of `var`.
#[inline(always)]
#[tactic(auto, using(swc_ast::proofs::Equations::forms, crate::proofs::Silent::let_vars, crate::proofs::Silent::const_vars))]
fn is_no_var(d: &Decl) -> bool
    ensures { IsTrue result → vars (decl_tree d.now) ≡ [] }
{
    match d {
        Decl::Fn(_) => true,
        Decl::Var(n) => match n.kind {
            VarDeclKind::Var => false,
            VarDeclKind::Let | VarDeclKind::Const => true,
        },
    }
}

/// Whether a statement is no declaration.
#[inline(always)]
#[tactic(auto, using(swc_ast::proofs::Equations::forms))]
fn declares_nothing(s: &Stmt) -> bool
    ensures { IsTrue result → first_names (declared_by (stmt_tree s.now)) ≡ [] }
{
    match s {
        Stmt::Decl(_) => false,
        Stmt::Block(_) | Stmt::Empty(_) | Stmt::Expr(_) | Stmt::Return(_) => true,
        Stmt::Throw(_) | Stmt::Break(_) | Stmt::Continue(_) | Stmt::Labeled(_) => true,
        Stmt::If(_) | Stmt::Switch(_) | Stmt::Try(_) => true,
        Stmt::While(_) | Stmt::DoWhile(_) | Stmt::For(_) => true,
    }
}
