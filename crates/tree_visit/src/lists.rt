//! Lists of nodes of one kind.
ghost use Rattle.std.specs.Prelude.{◌≡◌, [], ◌∷◌, drop, IfSome, IsNone};
ghost use Rattle.swc_ast.specs.Tree.{ε, ◌⊳◌};
ghost use Rattle.tree_visit.specs.Nodes.{node_at, list_forest};

use swc_ast::{
    ExportNamedSpecifier, Expr, ImportSpecifier, ModuleItem, Pat, PropOrSpread, Stmt, VarDeclKind,
    VarDeclarator,
};

/// A list whose items are nodes.
#[derive(Clone, Copy)]
pub enum NodeList<'a> {
    ModuleItems(&'a Vec<ModuleItem>),
    ImportSpecifiers(&'a Vec<ImportSpecifier>),
    ExportSpecifiers(&'a Vec<ExportNamedSpecifier>),
    Declarators(VarDeclKind, &'a Vec<VarDeclarator>),
    Stmts(&'a Vec<Stmt>),
    Exprs(&'a Vec<Expr>),
    Props(&'a Vec<PropOrSpread>),
    Params(&'a Vec<Pat>),
}

impl<'a> NodeList<'a> {
    /// The place behind the node at a place, if one stands there.
    pub(crate) fn behind(self, at: usize) -> Option<usize>
        ensures there { IfSome result (λ next. list_forest self.entry at ≡ (node_at self.entry at ⊳ list_forest self.entry next)) }
        ensures ends { IsNone result → list_forest self.entry at ≡ ε }
    {
        match self {
            NodeList::ModuleItems(xs) => Some(item_at(xs, at)?.1),
            NodeList::ImportSpecifiers(xs) => Some(item_at(xs, at)?.1),
            NodeList::ExportSpecifiers(xs) => Some(item_at(xs, at)?.1),
            NodeList::Declarators(_, xs) => Some(item_at(xs, at)?.1),
            NodeList::Stmts(xs) => Some(item_at(xs, at)?.1),
            NodeList::Exprs(xs) => Some(item_at(xs, at)?.1),
            NodeList::Props(xs) => Some(item_at(xs, at)?.1),
            NodeList::Params(xs) => Some(item_at(xs, at)?.1),
        }
    }
}

/// The item at a place of a list and the place behind it, if the list has that place.
pub(crate) fn item_at<'a, T>(xs: &'a Vec<T>, at: usize) -> Option<(&'a T, usize)>
    ensures there { IfSome result (λ p. drop at xs.now.items ≡ p.0.now ∷ drop p.1 xs.now.items) }
    ensures behind { IsNone result → drop at xs.now.items ≡ [] }
{
    if at < xs.len() {
        Some((&xs[at], at + 1))
    } else {
        None
    }
}
