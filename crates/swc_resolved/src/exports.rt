//! Exports by name.
ghost use Rattle.std.specs.Prelude.{◌≡◌};
ghost use Rattle.swc_ast.specs.Marks.{mark_number};
ghost use Rattle.swc_ast.specs.Resolved.{specifier_bound, exports_bound};
ghost use Rattle.tree_visit.specs.Kinds.{kind_label};
ghost use Rattle.tree_visit.specs.Nodes.{node_tree, children_forest};
ghost use Rattle.swc_resolved.specs.Names.{name};
ghost use Rattle.swc_resolved.specs.Exports.{is_bound as is_bound_name, label_bound, item_bound, own_exports, is_export_named as is_export_named_label};

use crate::names::{Name, Taken};
use swc_ast::Mark;
use tree_visit::{Children, Kind, Node};

impl<'a> Taken<'a> {
    /// Whether each name that a module exports is bound; other nodes export none.
    pub(crate) fn own_exports_bound(
        &self,
        kind: Kind<'a>,
        children: Children<'a>,
        unresolved_mark: Mark,
    ) -> bool
        ensures { result ≡ own_exports (is_bound_name self.now (mark_number unresolved_mark)) (kind_label kind.entry) (children_forest children.entry) }
    {
        match kind {
            Kind::Module => self.exports_bound(children, unresolved_mark),
            _ => true,
        }
    }

    #[tactic(auto, using(tree_visit::proofs::Caps::rest_falls))]
    fn exports_bound(&self, items: Children<'a>, unresolved_mark: Mark) -> bool
        ensures { result ≡ exports_bound (is_bound_name self.now (mark_number unresolved_mark)) (children_forest items.entry) }
    {
        let mut left = items;
        while let Some((child, rest)) = left.next() {
            if !self.item_bound(child, unresolved_mark) {
                return false;
            }
            left = rest;
        }
        true
    }

    fn item_bound(&self, item: Node<'a>, unresolved_mark: Mark) -> bool
        ensures { result ≡ item_bound (is_bound_name self.now (mark_number unresolved_mark)) (node_tree item.entry) }
    {
        let opened = item.open();
        if !is_export_named(opened.kind) {
            return true;
        }
        self.specifiers_bound(opened.children, unresolved_mark)
    }

    #[tactic(auto, using(tree_visit::proofs::Caps::rest_falls))]
    fn specifiers_bound(&self, specifiers: Children<'a>, unresolved_mark: Mark) -> bool
        ensures { result ≡ specifier_bound (is_bound_name self.now (mark_number unresolved_mark)) (children_forest specifiers.entry) }
    {
        let mut left = specifiers;
        while let Some((child, rest)) = left.next() {
            let opened = child.open();
            if !self.kind_bound(opened.kind, unresolved_mark) {
                return false;
            }
            left = rest;
        }
        true
    }

    fn kind_bound(&self, kind: Kind<'a>, unresolved_mark: Mark) -> bool
        ensures { result ≡ label_bound (is_bound_name self.now (mark_number unresolved_mark)) (kind_label kind.entry) }
    {
        match kind {
            Kind::ExportSpecifier(n) => self.is_bound(Name::of(&n.orig), unresolved_mark),
            _ => true,
        }
    }

    /// Whether a scope binds a name.
    fn is_bound(&self, x: Name<'a>, unresolved_mark: Mark) -> bool
        ensures { result ≡ is_bound_name self.now (mark_number unresolved_mark) (name x.entry) }
    {
        self.contains(x) && !x.is_free(unresolved_mark)
    }
}

fn is_export_named(kind: Kind<'_>) -> bool
    ensures { result ≡ is_export_named_label (kind_label kind.entry) }
{
    match kind {
        Kind::ExportNamed => true,
        _ => false,
    }
}
