//! The children of a node, one by one.
#![tactic(auto, unfolding(crate::specs::Nodes::children_forest))]

ghost use Rattle.std.specs.Prelude.{◌≡◌, drop, map};
ghost use Rattle.swc_ast.specs.Parts.{tree_or_absent};
ghost use Rattle.swc_ast.specs.Expressions.{item_trees};
ghost use Rattle.swc_ast.specs.Statements.{case_children, handler_tree, option_block_tree, option_init_tree};
ghost use Rattle.swc_ast.specs.Views.{expr_tree, stmt_tree, arrow_body_tree, case_trees};
ghost use Rattle.tree_visit.specs.Nodes.{node_tree, behind_test, children_forest, next_forest};
ghost use Rattle.tree_visit.specs.declared.children.Children.TheVariants.{Listed};

use crate::lists::{NodeList, item_at};
use crate::node::Node;
use swc_ast::{
    BlockStmt, BlockStmtOrExpr, CatchClause, Expr, ExprOrSpread, Pat, PropName, Stmt, SwitchCase,
    VarDeclOrExpr,
};

/// Children that are still to be read, told by what holds them.
#[derive(Clone, Copy)]
pub enum Children<'a> {
    None,
    One(Node<'a>),
    /// The nodes of a list from a place on.
    Listed(NodeList<'a>, usize),
    /// The items of an array that are no holes, from a place on.
    Items(&'a Vec<Option<ExprOrSpread>>, usize),
    /// The cases of a `switch` from a place on: of each its test and its statements.
    Cases(&'a Vec<SwitchCase>, usize),
    /// The statements of the case at a place, and the cases behind it.
    CaseBody(&'a Vec<SwitchCase>, usize),
    Switch(&'a Box<Expr>, &'a Vec<SwitchCase>),
    Call(&'a Box<Expr>, &'a Vec<Expr>),
    CallIndex(&'a Box<Expr>, &'a Box<Expr>, &'a Vec<Expr>),
    Two(&'a Box<Expr>, &'a Box<Expr>),
    Three(&'a Box<Expr>, &'a Box<Expr>, &'a Box<Expr>),
    Function(&'a Vec<Pat>, &'a BlockStmt),
    Arrow(&'a Vec<Pat>, &'a BlockStmtOrExpr),
    KeyValue(&'a PropName, &'a Box<Expr>),
    Method(&'a PropName, &'a Vec<Pat>, &'a BlockStmt),
    While(&'a Box<Expr>, &'a Box<Stmt>),
    DoWhile(&'a Box<Stmt>, &'a Box<Expr>),
    IfElse(&'a Box<Expr>, &'a Box<Stmt>, &'a Box<Stmt>),
    Branches(&'a Box<Stmt>, &'a Box<Stmt>),
    For(&'a Option<VarDeclOrExpr>, &'a Option<Box<Expr>>, &'a Option<Box<Expr>>, &'a Box<Stmt>),
    ForTest(&'a Option<Box<Expr>>, &'a Option<Box<Expr>>, &'a Box<Stmt>),
    ForUpdate(&'a Option<Box<Expr>>, &'a Box<Stmt>),
    Try(&'a BlockStmt, &'a Option<CatchClause>, &'a Option<BlockStmt>),
    Handler(&'a Option<CatchClause>, &'a Option<BlockStmt>),
}

impl<'a> Children<'a> {
    /// The first child and those behind it, if any child is left.
    #[inline(always)]
    pub fn next(self) -> Option<(Node<'a>, Children<'a>)>
        ensures { children_forest self.entry ≡ next_forest result }
    {
        match self {
            Children::None => None,
            Children::One(n) => Some((n, Children::None)),
            Children::Listed(list, at) => next_listed(list, at),
            Children::Items(xs, at) => next_item(xs, at),
            Children::Cases(xs, at) => next_case(xs, at),
            Children::CaseBody(xs, at) => next_case_body(xs, at),
            Children::Switch(e, xs) => Some((Node::Expr(e), Children::Cases(xs, 0))),
            Children::Call(e, xs) => {
                Some((Node::Expr(e), Children::Listed(NodeList::Exprs(xs), 0)))
            }
            Children::CallIndex(e, k, xs) => Some((Node::Expr(e), Children::Call(k, xs))),
            Children::Two(a, b) => Some((Node::Expr(a), Children::One(Node::Expr(b)))),
            Children::Three(a, b, c) => Some((Node::Expr(a), Children::Two(b, c))),
            Children::Function(xs, b) => Some((Node::Params(xs), Children::One(Node::Body(b)))),
            Children::Arrow(xs, b) => Some((Node::Params(xs), Children::One(arrow_body(b)))),
            Children::KeyValue(k, e) => Some((Node::Key(k), Children::One(Node::Expr(e)))),
            Children::Method(k, xs, b) => Some((Node::Key(k), Children::Function(xs, b))),
            Children::While(e, s) => Some((Node::Expr(e), Children::One(Node::Stmt(s)))),
            Children::DoWhile(s, e) => Some((Node::Stmt(s), Children::One(Node::Expr(e)))),
            Children::IfElse(e, s, t) => Some((Node::Expr(e), Children::Branches(s, t))),
            Children::Branches(s, t) => Some((Node::Stmt(s), Children::One(Node::Stmt(t)))),
            Children::For(i, t, u, s) => Some((initial(i), Children::ForTest(t, u, s))),
            Children::ForTest(t, u, s) => Some((optional(t), Children::ForUpdate(u, s))),
            Children::ForUpdate(u, s) => Some((optional(u), Children::One(Node::Stmt(s)))),
            Children::Try(b, h, f) => Some((Node::Block(b), Children::Handler(h, f))),
            Children::Handler(h, f) => Some((handler(h), Children::One(finalizer(f)))),
        }
    }
}

#[inline(always)]
fn next_listed<'a>(list: NodeList<'a>, at: usize) -> Option<(Node<'a>, Children<'a>)>
    ensures { children_forest (Listed list.entry at) ≡ next_forest result }
{
    let next = list.behind(at)?;
    Some((Node::At(list, at), Children::Listed(list, next)))
}

fn next_item<'a>(xs: &'a Vec<Option<ExprOrSpread>>, at: usize) -> Option<(Node<'a>, Children<'a>)>
    ensures { item_trees expr_tree (drop at xs.now.items) ≡ next_forest result }
{
    let mut left = at;
    while let Some((x, next)) = item_at(xs, left) {
        if let Some(item) = x {
            return Some((Node::Expr(&item.expr), Children::Items(xs, next)));
        }
        left = next;
    }
    None
}

#[tactic(auto, using(crate::proofs::Cases::case_test), unfolding(crate::specs::Nodes::children_forest))]
fn next_case<'a>(xs: &'a Vec<SwitchCase>, at: usize) -> Option<(Node<'a>, Children<'a>)>
    ensures { case_children (map case_trees (drop at xs.now.items)) ≡ next_forest result }
{
    let (x, _) = item_at(xs, at)?;
    Some((optional(&x.test), Children::CaseBody(xs, at)))
}

fn next_case_body<'a>(xs: &'a Vec<SwitchCase>, at: usize) -> Option<(Node<'a>, Children<'a>)>
    ensures { behind_test (map case_trees (drop at xs.now.items)) ≡ next_forest result }
{
    let (_, next) = item_at(xs, at)?;
    Some((Node::CaseBody(xs, at), Children::Cases(xs, next)))
}

/// An expression that may be left out.
fn optional<'a>(e: &'a Option<Box<Expr>>) -> Node<'a>
    ensures { node_tree result ≡ tree_or_absent expr_tree e.now }
{
    match e {
        Some(e) => Node::Expr(e),
        None => Node::Absent,
    }
}

#[tactic(auto, using(swc_ast::proofs::Equations::forms))]
fn arrow_body<'a>(n: &'a BlockStmtOrExpr) -> Node<'a>
    ensures { node_tree result ≡ arrow_body_tree n.now }
{
    match n {
        BlockStmtOrExpr::BlockStmt(n) => Node::Body(n),
        BlockStmtOrExpr::Expr(n) => Node::Expr(n),
    }
}

fn initial<'a>(i: &'a Option<VarDeclOrExpr>) -> Node<'a>
    ensures { node_tree result ≡ option_init_tree expr_tree i.now }
{
    match i {
        None => Node::Absent,
        Some(VarDeclOrExpr::VarDecl(n)) => Node::VarDecl(n),
        Some(VarDeclOrExpr::Expr(n)) => Node::Expr(n),
    }
}

fn handler<'a>(h: &'a Option<CatchClause>) -> Node<'a>
    ensures { node_tree result ≡ handler_tree stmt_tree h.now }
{
    match h {
        Some(n) => Node::Block(&n.body),
        None => Node::Absent,
    }
}

fn finalizer<'a>(f: &'a Option<BlockStmt>) -> Node<'a>
    ensures { node_tree result ≡ option_block_tree stmt_tree f.now }
{
    match f {
        Some(n) => Node::Block(n),
        None => Node::Absent,
    }
}
