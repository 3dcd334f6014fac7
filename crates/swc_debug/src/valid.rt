//! Whether a tree is valid.
ghost use Rattle.std.specs.Prelude.{◌≡◌, ◌↔◌, IsTrue, true};
ghost use Rattle.swc_ast.specs.Modules.{module_tree, script_tree};
ghost use Rattle.swc_ast.specs.Valid.{valid};
ghost use Rattle.tree_visit.specs.Nodes.{node_tree};

use crate::names::has_good_names;
use crate::shapes::has_good_shape;
use swc_ast::{Module, Script};
use tree_visit::Node;

/// Returns whether a module is valid: no `Invalid` node, at least one declarator in each declaration and
/// two items in each sequence, a handler or a final block in each `try`, names that are
/// identifiers, lexical and function declarations only in lists, and one text more than
/// expressions in each template, the last one alone marked as the tail.
pub fn is_valid(m: &Module) -> bool
    ensures { IsTrue result ↔ valid (module_tree m.now) ≡ true }
{
    is_node_valid(Node::Module(m))
}

/// The same for a script.
pub fn is_script_valid(s: &Script) -> bool
    ensures { IsTrue result ↔ valid (script_tree s.now) ≡ true }
{
    is_node_valid(Node::Script(s))
}

#[tactic(auto, using(tree_visit::proofs::Caps::opened_smaller, tree_visit::proofs::Caps::child_smaller, tree_visit::proofs::Caps::rest_smaller, tree_visit::proofs::Caps::rest_falls, crate::proofs::Whole::names_refuse, crate::proofs::Whole::shape_refuses, crate::proofs::Whole::children_decide))]
fn is_node_valid(n: Node<'_>) -> bool
    ensures { result ≡ valid (node_tree n.entry) }
{
    let opened = n.open();
    if !has_good_names(opened.kind) {
        return false;
    }
    if !has_good_shape(opened.kind, opened.children) {
        return false;
    }
    let mut left = opened.children;
    while let Some((child, rest)) = left.next() {
        if !is_node_valid(child) {
            return false;
        }
        left = rest;
    }
    true
}
