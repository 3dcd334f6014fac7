//! What a node is and what its children are; modules and scripts.
#![tactic(auto, unfolding(crate::specs::Nodes::children_forest))]

ghost use Rattle.std.specs.Prelude.{◌≡◌, IfSome, IsNone};
ghost use Rattle.swc_ast.specs.Parts.{absent};
ghost use Rattle.swc_ast.specs.Modules.{import_specifier_tree, export_specifier_tree, module_decl_tree, item_tree};
ghost use Rattle.tree_visit.specs.Nodes.{node_tree, node_at, Opens};

use crate::children::Children;
use crate::expressions::{open_expr, open_key, open_param, open_prop_or_spread};
use crate::kind::Kind;
use crate::lists::{NodeList, item_at};
use crate::node::Node;
use crate::opened::Opened;
use crate::statements::{open_decl, open_declarator, open_stmt, open_var};
use swc_ast::{ExportNamedSpecifier, ImportSpecifier, ModuleDecl, ModuleItem};

impl<'a> Node<'a> {
    /// What the node is, and its children.
    #[tactic(auto, using(crate::proofs::Cases::case_body), unfolding(crate::specs::Nodes::children_forest))]
    #[inline(always)]
    pub fn open(self) -> Opened<'a>
        ensures { Opens (node_tree self.entry) result }
    {
        match self {
            Node::Module(n) => Opened::listed(Kind::Module, NodeList::ModuleItems(&n.body)),
            Node::Script(n) => Opened::listed(Kind::Script, NodeList::Stmts(&n.body)),
            Node::At(list, at) => match open_at(list, at) {
                Some(opened) => opened,
                None => Opened::leaf(Kind::Absent),
            },
            Node::Decl(n) => open_decl(n),
            Node::VarDecl(n) => open_var(n),
            Node::Stmt(n) => open_stmt(n),
            Node::Block(n) => Opened::listed(Kind::Block, NodeList::Stmts(&n.stmts)),
            Node::CaseBody(xs, at) => match item_at(xs, at) {
                Some((n, _)) => Opened::listed(Kind::CaseBody, NodeList::Stmts(&n.cons)),
                None => Opened::leaf(Kind::Absent),
            },
            Node::Expr(n) => open_expr(n),
            Node::Key(n) => open_key(n),
            Node::Params(n) => Opened::listed(Kind::Params, NodeList::Params(n)),
            Node::Body(n) => Opened::listed(Kind::Body, NodeList::Stmts(&n.stmts)),
            Node::Absent => Opened::leaf(Kind::Absent),
        }
    }

    /// The same as `open`, for a walk that should take little of the stack: it isn't inlined, and so takes more time.
    #[inline(never)]
    pub fn open_apart(self) -> Opened<'a>
        ensures { Opens (node_tree self.entry) result }
    {
        self.open()
    }
}

/// What the node at a place of a list is, if one stands there.
#[inline(always)]
fn open_at<'a>(list: NodeList<'a>, at: usize) -> Option<Opened<'a>>
    ensures there { IfSome result (λ o. Opens (node_at list.entry at) o) }
    ensures absent { IsNone result → node_at list.entry at ≡ absent }
{
    match list {
        NodeList::ModuleItems(xs) => Some(open_item(item_at(xs, at)?.0)),
        NodeList::ImportSpecifiers(xs) => Some(open_import_specifier(item_at(xs, at)?.0)),
        NodeList::ExportSpecifiers(xs) => Some(open_export_specifier(item_at(xs, at)?.0)),
        NodeList::Declarators(kind, xs) => Some(open_declarator(kind, item_at(xs, at)?.0)),
        NodeList::Stmts(xs) => Some(open_stmt(item_at(xs, at)?.0)),
        NodeList::Exprs(xs) => Some(open_expr(item_at(xs, at)?.0)),
        NodeList::Props(xs) => Some(open_prop_or_spread(item_at(xs, at)?.0)),
        NodeList::Params(xs) => Some(open_param(item_at(xs, at)?.0)),
    }
}

fn open_item<'a>(n: &'a ModuleItem) -> Opened<'a>
    ensures { Opens (item_tree n.now) result }
{
    match n {
        ModuleItem::ModuleDecl(n) => open_module_decl(n),
        ModuleItem::Stmt(n) => open_stmt(n),
    }
}

/// What a module declaration is, and its children.
#[tactic(auto, using(swc_ast::proofs::Equations::forms), unfolding(crate::specs::Nodes::children_forest))]
pub fn open_module_decl<'a>(n: &'a ModuleDecl) -> Opened<'a>
    ensures { Opens (module_decl_tree n.now) result }
{
    match n {
        ModuleDecl::Import(n) => Opened::listed(
            Kind::Import(&n.src),
            NodeList::ImportSpecifiers(&n.specifiers),
        ),
        ModuleDecl::ExportDecl(n) => Opened::new(
            Kind::ExportDecl,
            Children::One(Node::Decl(&n.decl)),
        ),
        ModuleDecl::ExportNamed(n) => Opened::listed(
            Kind::ExportNamed,
            NodeList::ExportSpecifiers(&n.specifiers),
        ),
        ModuleDecl::ExportDefaultDecl(n) => Opened::new(
            Kind::ExportDefaultFn(&n.decl.ident),
            Children::Function(&n.decl.function.params, &n.decl.function.body),
        ),
        ModuleDecl::ExportDefaultExpr(n) => Opened::new(
            Kind::ExportDefaultExpr,
            Children::One(Node::Expr(&n.expr)),
        ),
    }
}

fn open_import_specifier<'a>(n: &'a ImportSpecifier) -> Opened<'a>
    ensures { Opens (import_specifier_tree n.now) result }
{
    match n {
        ImportSpecifier::Named(n) => Opened::leaf(Kind::ImportNamed(n)),
        ImportSpecifier::Default(n) => Opened::leaf(Kind::ImportDefault(&n.local)),
        ImportSpecifier::Namespace(n) => Opened::leaf(Kind::ImportStar(&n.local)),
    }
}

fn open_export_specifier<'a>(n: &'a ExportNamedSpecifier) -> Opened<'a>
    ensures { Opens (export_specifier_tree n.now) result }
{
    Opened::leaf(Kind::ExportSpecifier(n))
}
