//! What a node is to the tree shaker.
ghost use Rattle.std.specs.Prelude.{◌≡◌, true, not, ◌&&◌, [], IsTrue};
ghost use Rattle.swc_ast.specs.Labels.{is_declaration};
ghost use Rattle.swc_ast.specs.Redex as redex;
ghost use Rattle.swc_ast.specs.Tree.{Unary, node};
ghost use Rattle.static_proofs.specs.Names.{is_some_tree};
ghost use Rattle.swc_ast.specs.Reach as reach;
ghost use Rattle.swc_ast.specs.Weight.{is_list as is_list_label};
ghost use Rattle.tree_visit.specs.Kinds.{kind_label};
ghost use Rattle.tree_visit.specs.Nodes.{children_forest};
ghost use Rattle.tree_walk.specs.Pass as pass;
ghost use Rattle.swc_names.specs.Ids.{optional};
ghost use Rattle.dce_layer_proofs.specs.Goers as goers;
ghost use Rattle.dce_items.specs.Gathered as gathered;

use swc_ast::{Ident, UnaryOp};
use tree_visit::{Children, Kind, Opened};

/// The name that a node declares, where the node may go with it.
pub(crate) fn own_goer<'a>(kind: Kind<'a>) -> Option<&'a Ident>
    ensures { optional result ≡ goers.own_goer (kind_label kind.entry) }
{
    match kind {
        Kind::Declarator(_, name)
        | Kind::FnDecl(name)
        | Kind::ImportDefault(name)
        | Kind::ImportStar(name) => Some(name),
        Kind::ImportNamed(n) => Some(&n.local),
        _ => None,
    }
}

fn is_delete(op: UnaryOp) -> bool
    ensures { result ≡ redex.is_delete (Unary op) }
{
    match op {
        UnaryOp::Delete => true,
        _ => false,
    }
}

/// Whether the children of a node aren't entered: it is a `delete`, or a function that is exported as default.
pub(crate) fn is_closed(kind: Kind<'_>) -> bool
    ensures { result ≡ goers.is_closed_label (kind_label kind.entry) }
{
    match kind {
        Kind::Unary(op) => is_delete(op),
        Kind::ExportDefaultFn(_) => true,
        _ => false,
    }
}

/// Whether a node is a declaration of variables in the head of a `for`.
pub(crate) fn is_head(head: bool, kind: Kind<'_>) -> bool
    ensures { result ≡ goers.is_head_label head (kind_label kind.entry) }
{
    if !head {
        return false;
    }
    match kind {
        Kind::VarDecl(_) => true,
        _ => false,
    }
}

pub(crate) fn is_for(kind: Kind<'_>) -> bool
    ensures { result ≡ reach.is_for (kind_label kind.entry) }
{
    match kind {
        Kind::For => true,
        _ => false,
    }
}

/// Whether the children of a node are a list of statements or items.
pub(crate) fn is_list(kind: Kind<'_>) -> bool
    ensures { result ≡ is_list_label (kind_label kind.entry) }
{
    match kind {
        Kind::Block | Kind::Body | Kind::CaseBody | Kind::Module | Kind::Script => true,
        _ => false,
    }
}

pub(crate) fn is_empty(children: Children<'_>) -> bool
    ensures { result ≡ not (is_some_tree (children_forest children.entry)) }
{
    children.next().is_none()
}

/// Whether a node is an empty statement or an empty block.
pub(crate) fn is_void(opened: Opened<'_>) -> bool
    ensures { result ≡ gathered.is_void (kind_label opened.entry.kind) (children_forest opened.entry.children) }
{
    match opened.kind {
        Kind::Empty | Kind::Block => is_empty(opened.children),
        _ => false,
    }
}

/// Whether a node goes in any case, where it stands in a list.
pub(crate) fn goes_anyway(listed: bool, opened: Opened<'_>) -> bool
    ensures { result ≡ (listed && gathered.is_void (kind_label opened.entry.kind) (children_forest opened.entry.children)) }
{
    listed && is_void(opened)
}

/// Whether a node is a specifier of an import, and no child stands in it.
fn is_specifier(opened: Opened<'_>) -> bool
    ensures { IsTrue result → pass.is_unvisited (node (kind_label opened.entry.kind) [] (children_forest opened.entry.children)) ≡ true }
{
    match opened.kind {
        Kind::ImportNamed(_) | Kind::ImportDefault(_) | Kind::ImportStar(_) => {
            is_empty(opened.children)
        }
        _ => false,
    }
}

/// Whether nodes are specifiers of an import.
fn are_specifiers(children: Children<'_>) -> bool
    ensures { IsTrue result → pass.are_unvisited (children_forest children.entry) ≡ true }
{
    let mut left = children;
    while let Some((child, rest)) = left.next() {
        if !is_specifier(child.open()) {
            return false;
        }
        left = rest;
    }
    true
}

/// Whether a node is a declaration of variables or of a function.
fn is_declaration(kind: Kind<'_>) -> bool
    ensures { result ≡ is_declaration (kind_label kind.entry) }
{
    match kind {
        Kind::VarDecl(_) | Kind::FnDecl(_) => true,
        _ => false,
    }
}

/// Whether there is one child, and it is a declaration.
fn is_one_declaration(children: Children<'_>) -> bool
    ensures { IsTrue result → goers.is_one_declaration (children_forest children.entry) ≡ true }
{
    let Some((child, rest)) = children.next() else {
        return false;
    };
    is_empty(rest) && is_declaration(child.open().kind)
}

/// Whether a node is one that is entered as the walk does: no module or script, and what stands in an import or behind `export`
/// is what may.
pub(crate) fn is_sound(opened: Opened<'_>) -> bool
    ensures { IsTrue result → goers.is_sound (kind_label opened.entry.kind) (children_forest opened.entry.children) ≡ true }
{
    match opened.kind {
        Kind::Module | Kind::Script => false,
        Kind::Import(_) => are_specifiers(opened.children),
        Kind::ExportDecl => is_one_declaration(opened.children),
        _ => true,
    }
}

/// Whether a node is the text `'use asm'` as a statement: once it is the first of its list, nothing goes from that any more.
pub(crate) fn is_asm(opened: Opened<'_>) -> bool {
    match opened.kind {
        Kind::ExprStmt => match opened.children.next() {
            Some((child, _)) => match child.open().kind {
                Kind::StrLit(text) => text.value.as_str() == "use asm",
                _ => false,
            },
            None => false,
        },
        _ => false,
    }
}
