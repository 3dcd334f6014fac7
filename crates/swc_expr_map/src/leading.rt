//! The names that chains of members begin with.
ghost use Rattle.std.specs.Prelude.{◌≡◌, [], option_map};
ghost use Rattle.swc_ast.specs.Tree.{node};
ghost use Rattle.tree_visit.specs.Kinds.{kind_label};
ghost use Rattle.tree_visit.specs.Nodes.{children_forest};
ghost use Rattle.swc_expr_map.specs.Entries.{leading_name as chain_name, object_name as name_of_object};

use tree_visit::{Children, Kind, Opened};

/// The text of the name that a chain of members begins with.
#[cycle(leading_name)]
pub(crate) fn leading_name<'a>(chain: Opened<'a>) -> Option<&'a str>
    ensures { option_map (λ s. s.now) result ≡ chain_name (node (kind_label chain.entry.kind) [] (children_forest chain.entry.children)) }
{
    match chain.kind {
        Kind::Read(n) => Some(&n.sym),
        Kind::Dot(_) => object_name(chain.children),
        Kind::Index => object_name(chain.children),
        _ => None,
    }
}

/// The same of the object of a member, which is the first of its children.
#[cycle(leading_name)]
fn object_name<'a>(children: Children<'a>) -> Option<&'a str>
    ensures { option_map (λ s. s.now) result ≡ name_of_object (children_forest children.entry) }
{
    match children.next() {
        Some((object, _)) => leading_name(object.open()),
        None => None,
    }
}
