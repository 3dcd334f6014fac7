//! The parameters of a function.
ghost use Rattle.std.specs.Prelude.{◌≡◌};
ghost use Rattle.swc_ast.specs.Resolved as resolved;
ghost use Rattle.tree_visit.specs.Nodes.{children_forest};

use crate::labels::is_params;
use tree_visit::Children;

/// The parameters among a function's children.
#[tactic(auto, using(tree_visit::proofs::Caps::rest_falls, crate::proofs::Searches::params_here, crate::proofs::Searches::params_behind, crate::proofs::Searches::no_params))]
pub(crate) fn params_of<'a>(children: Children<'a>) -> Children<'a>
    ensures { children_forest result ≡ resolved.params_of (children_forest children.entry) }
{
    let mut left = children;
    while let Some((child, rest)) = left.next() {
        let opened = child.open();
        if is_params(opened.kind) {
            return opened.children;
        }
        left = rest;
    }
    left
}
