//! Declarations, and where they stand.
ghost use Rattle.std.specs.Prelude.{◌≡◌, ◌+◌, ◌&&◌, [], ◌∷◌, drop, IfSome, IsNone};
ghost use Rattle.swc_ast.specs.Tree.{label_of, spans_of};
ghost use Rattle.swc_ast.specs.Modules.{item_tree};
ghost use Rattle.swc_ast.specs.Redex as redex;
ghost use Rattle.swc_ast.specs.Views.{stmt_tree, decl_tree};
ghost use Rattle.carry_rules.specs.Carry as carry;
ghost use Rattle.tree_visit.specs.Nodes.{node_tree, node_at};
ghost use Rattle.carry_reads.specs.Declarations.{IsDeclared};

use swc_ast::{DUMMY_SP, Decl, ModuleDecl, ModuleItem, Span, Stmt, VarDeclKind, VarDeclarator};
use tree_visit::{Node, NodeList};

/// What a node declares.
#[derive(Clone, Copy)]
pub(crate) enum Declares<'a> {
    /// It is a declaration of variables, or `export` before a declaration, and has a span.
    Group(Span),
    /// It is a declarator.
    One(VarDeclKind, &'a VarDeclarator),
    /// It is anything else.
    Other,
}

/// What a node declares.
pub(crate) fn declaration<'a>(n: Node<'a>) -> Declares<'a>
    ensures { IsDeclared result (node_tree n.entry) }
{
    match n {
        Node::At(list, at) => in_list(list, at),
        Node::Decl(n) => of_decl(n),
        Node::VarDecl(n) => Declares::Group(n.span),
        Node::Stmt(n) => of_stmt(n),
        _ => Declares::Other,
    }
}

/// What the node at a place of a list declares.
fn in_list<'a>(list: NodeList<'a>, at: usize) -> Declares<'a>
    ensures { IsDeclared result (node_at list.entry at) }
{
    match list {
        NodeList::ModuleItems(items) => match item_at(items, at) {
            Some(n) => of_item(n),
            None => Declares::Other,
        },
        NodeList::Stmts(stmts) => match item_at(stmts, at) {
            Some(n) => of_stmt(n),
            None => Declares::Other,
        },
        NodeList::Declarators(kind, decls) => match item_at(decls, at) {
            Some(n) => Declares::One(kind, n),
            None => Declares::Other,
        },
        _ => Declares::Other,
    }
}

/// The item at a place of a list, if the list has that place.
fn item_at<'a, T>(xs: &'a Vec<T>, at: usize) -> Option<&'a T>
    ensures there { IfSome result (λ x. drop at xs.now.items ≡ x.now ∷ drop (at + 1) xs.now.items) }
    ensures behind { IsNone result → drop at xs.now.items ≡ [] }
{
    if at < xs.len() { Some(&xs[at]) } else { None }
}

fn of_item<'a>(n: &'a ModuleItem) -> Declares<'a>
    ensures { IsDeclared result (item_tree n.now) }
{
    match n {
        ModuleItem::ModuleDecl(n) => match n {
            ModuleDecl::ExportDecl(n) => Declares::Group(n.span),
            _ => Declares::Other,
        },
        ModuleItem::Stmt(n) => of_stmt(n),
    }
}

#[tactic(auto, using(swc_ast::proofs::Equations::forms))]
fn of_stmt<'a>(n: &'a Stmt) -> Declares<'a>
    ensures { IsDeclared result (stmt_tree n.now) }
{
    match n {
        Stmt::Decl(n) => of_decl(n),
        _ => Declares::Other,
    }
}

#[tactic(auto, using(swc_ast::proofs::Equations::forms))]
fn of_decl<'a>(n: &'a Decl) -> Declares<'a>
    ensures { IsDeclared result (decl_tree n.now) }
{
    match n {
        Decl::Var(n) => Declares::Group(n.span),
        Decl::Fn(_) => Declares::Other,
    }
}

/// Whether a span is of what stands nowhere.
pub(crate) fn is_dummy(span: Span) -> bool
    ensures { result ≡ redex.is_dummy span }
{
    span == DUMMY_SP
}

/// Whether a node is a declaration that stands nowhere.
pub(crate) fn is_nowhere(n: Node<'_>) -> bool
    ensures { result ≡ (carry.groups (label_of (node_tree n.entry)) && carry.is_nowhere (spans_of (node_tree n.entry))) }
{
    match declaration(n) {
        Declares::Group(span) => is_dummy(span),
        _ => false,
    }
}
