//! Names and literals among the nodes of a tree, told without taking a node apart: most nodes are one of these.
#![tactic(auto)]

ghost use Rattle.std.specs.Prelude.{◌≡◌, IfSome};
ghost use Rattle.swc_ast.specs.Views.{expr_tree};
ghost use Rattle.tree_visit.specs.Nodes.{node_tree};
ghost use Rattle.tree_leaves.specs.Leaves.{leaf_tree};

use swc_ast::{Expr, Ident, Lit};
use tree_visit::{Node, NodeList};

/// An expression without children.
#[derive(Clone, Copy)]
pub enum Leaf<'a> {
    /// a name that is read
    Name(&'a Ident),
    Literal(&'a Lit),
}

/// The name or the literal that a node is, if it is one.
#[inline(always)]
pub fn leaf_of<'a>(n: Node<'a>) -> Option<Leaf<'a>>
    ensures { IfSome result (λ leaf. node_tree n.entry ≡ leaf_tree leaf) }
{
    match n {
        Node::Expr(e) => leaf_in(e),
        Node::At(NodeList::Exprs(xs), at) => {
            if at < xs.len() {
                leaf_in(&xs[at])
            } else {
                None
            }
        }
        _ => None,
    }
}

/// The name or the literal that an expression is, if it is one.
#[inline(always)]
#[tactic(auto, using(swc_ast::proofs::Equations::forms))]
fn leaf_in<'a>(e: &'a Expr) -> Option<Leaf<'a>>
    ensures { IfSome result (λ leaf. expr_tree e.now ≡ leaf_tree leaf) }
{
    match e {
        Expr::Ident(n) => Some(Leaf::Name(n)),
        Expr::Lit(n) => Some(Leaf::Literal(n)),
        _ => None,
    }
}
