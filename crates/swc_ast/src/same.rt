//! Comparison of nodes, with their spans and without them.
ghost use Rattle.std.specs.Prelude.{◌≡◌, ◌↔◌, IsTrue, []};
ghost use Rattle.swc_ast.specs.Tree.{Tree, node, Block, bare};
ghost use Rattle.swc_ast.specs.Parts.{list_trees, optional_trees};
ghost use Rattle.swc_ast.specs.Same.{same, same_spans};

use crate::Span;

/// Comparison of nodes with their spans or without them.
pub trait Compare: Drop {
    ghost tree: { Self → Tree };

    /// Whether two nodes are the same; their spans count where `spans` says so.
    fn is_same(&self, other: &Self, spans: bool) -> bool
        ensures { result ≡ same spans (tree self.now) (tree other.now) };
}

/// Comparison of nodes without their spans.
pub trait EqIgnoreSpan: Compare {
    /// Whether two nodes are the same but for their spans.
    fn eq_ignore_span(&self, other: &Self) -> bool
        ensures up_to_spans { IsTrue result ↔ (bare (Self.tree self.now) ≡ bare (Self.tree other.now)) };
}

impl<T: Compare> EqIgnoreSpan for T {
    fn eq_ignore_span(&self, other: &T) -> bool {
        self.is_same(other, false)
    }
}

/// Whether the spans of two nodes are the same, where they count.
pub(crate) fn spans_agree(spans: bool, a: &[Span], b: &[Span]) -> bool
    ensures { result ≡ same_spans spans a.now b.now }
{
    a == b || !spans
}

impl<T: Compare> Compare for Box<T> {
    ghost tree = { λ b. T.tree b.value };

    fn is_same(&self, other: &Box<T>, spans: bool) -> bool {
        (**self).is_same(&**other, spans)
    }
}

impl<T: Compare> Compare for Option<Box<T>> {
    ghost tree = { λ o. node Block [] (optional_trees T.tree o) };

    fn is_same(&self, other: &Option<Box<T>>, spans: bool) -> bool {
        match (self, other) {
            (Some(a), Some(b)) => a.is_same(b, spans),
            (None, None) => true,
            _ => false,
        }
    }
}

impl<T: Compare> Compare for Vec<T> {
    ghost tree = { λ v. node Block [] (list_trees T.tree v.items) };

    fn is_same(&self, other: &Vec<T>, spans: bool) -> bool {
        if self.len() != other.len() {
            return false;
        }
        for i in 0..self.len() {
            if !self[i].is_same(&other[i], spans) {
                return false;
            }
        }
        true
    }
}
