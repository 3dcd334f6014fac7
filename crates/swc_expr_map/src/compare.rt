//! The order of expressions.
ghost use Rattle.std.specs.Prelude.{◌≡◌};
ghost use Rattle.std.specs.Ordering.{ordering_then};
ghost use Rattle.swc_ast.specs.Views.{expr_tree};
ghost use Rattle.tree_visit.specs.Kinds.{kind_label};
ghost use Rattle.tree_visit.specs.Nodes.{children_forest};
ghost use Rattle.swc_expr_map.specs.Order.{key_cmp, label_cmp, children_cmp};

use crate::code::Code;
use std::cmp::Ordering;
use swc_ast::Expr;
use tree_visit::{Opened, open_expr};

/// The order of two expressions without spans and contexts. It ends at the first node that differs.
pub(crate) fn compare(a: &Expr, b: &Expr) -> Ordering
    ensures { result ≡ key_cmp (expr_tree a.now) (expr_tree b.now) }
{
    compare_opened(open_expr(a), open_expr(b))
}

fn compare_opened(a: Opened<'_>, b: Opened<'_>) -> Ordering
    ensures { result ≡ ordering_then (label_cmp (kind_label a.entry.kind) (kind_label b.entry.kind)) (children_cmp (children_forest a.entry.children) (children_forest b.entry.children)) }
{
    let order = Code::of(a.kind).compare(Code::of(b.kind));
    if order.is_ne() {
        return order;
    }
    let mut left = a.children;
    let mut right = b.children;
    while let Some((x, rest)) = left.next() {
        let Some((y, others)) = right.next() else {
            return Ordering::Greater;
        };
        let order = compare_opened(x.open(), y.open());
        if order.is_ne() {
            return order;
        }
        left = rest;
        right = others;
    }
    match right.next() {
        Some(_) => Ordering::Less,
        None => Ordering::Equal,
    }
}
