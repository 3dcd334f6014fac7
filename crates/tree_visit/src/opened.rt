//! What a node is and what its children are.
#![tactic(auto, unfolding(crate::specs::Nodes::children_forest))]

ghost use Rattle.std.specs.Prelude.{◌≡◌};
ghost use Rattle.swc_ast.specs.Tree.{ε};
ghost use Rattle.tree_visit.specs.Nodes.{list_forest, children_forest};

use crate::children::Children;
use crate::kind::Kind;
use crate::lists::NodeList;

/// A node that was looked into: what it is, and its children.
#[derive(Clone, Copy)]
pub struct Opened<'a> {
    pub kind: Kind<'a>,
    pub children: Children<'a>,
}

impl<'a> Opened<'a> {
    /// A node with its children.
    pub(crate) fn new(kind: Kind<'a>, children: Children<'a>) -> Opened<'a>
        ensures kind { result.kind ≡ kind.entry }
        ensures children { result.children ≡ children.entry }
    {
        Opened { kind, children }
    }

    /// A node without children.
    pub(crate) fn leaf(kind: Kind<'a>) -> Opened<'a>
        ensures kind { result.kind ≡ kind.entry }
        ensures children { children_forest result.children ≡ ε }
    {
        Opened::new(kind, Children::None)
    }

    /// A node whose children are a list.
    pub(crate) fn listed(kind: Kind<'a>, list: NodeList<'a>) -> Opened<'a>
        ensures kind { result.kind ≡ kind.entry }
        ensures children { children_forest result.children ≡ list_forest list.entry 0 }
    {
        Opened::new(kind, Children::Listed(list, 0))
    }
}
