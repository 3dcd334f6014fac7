//! Items as nodes, in a row.
ghost use Rattle.std.specs.Prelude.{◌≡◌, ◌+◌, ◌-◌, ◌<◌, length, take, drop, IfOk, OnOk};
ghost use Rattle.swc_ast.specs.Modules.{item_tree};
ghost use Rattle.swc_ast.specs.Parts.{list_trees};
ghost use Rattle.swc_ast.specs.Scope.{joined};
ghost use Rattle.swc_ast.specs.Views.{stmt_tree};
ghost use Rattle.tree_visit.specs.Nodes.{node_tree};
ghost use Rattle.dce_items.specs.Wrapped.{row};

use std::alloc::{AllocError, Global};
use swc_ast::{ModuleItem, Stmt};
use tree_visit::{Node, NodeList};

/// Adds the nodes of a list from a place on up to another.
#[tactic(auto, using(crate::proofs::Rows::goes_on, crate::proofs::Rows::done))]
fn add_nodes<'a>(
    list: NodeList<'a>,
    from: usize,
    to: usize,
    nodes: &mut Vec<Node<'a>>,
) -> Result<(), AllocError>
    ensures { OnOk result (list_trees node_tree nodes.new.items ≡ joined (list_trees node_tree nodes.old.items) (row list.entry from (to - from))) }
{
    for at in from..to {
        nodes.push(Node::At(list, at))?;
    }
    Ok(())
}

/// The items of a module.
pub(crate) fn own_nodes<'a>(
    alloc: Global,
    items: &'a Vec<ModuleItem>,
) -> Result<Vec<Node<'a>>, AllocError>
    ensures { IfOk result (λ r. list_trees node_tree r.items ≡ list_trees item_tree items.now.items) }
{
    let mut nodes = Vec::new(alloc);
    add_nodes(NodeList::ModuleItems(items), 0, items.len(), &mut nodes)?;
    Ok(nodes)
}

/// The items of a module but the one at a place, and behind them the items of that one's body.
pub(crate) fn nodes_around<'a>(
    alloc: Global,
    items: &'a Vec<ModuleItem>,
    at: usize,
    body: &'a Vec<Stmt>,
) -> Result<Vec<Node<'a>>, AllocError>
    requires { at < length items.now.items }
    ensures { IfOk result (λ r. list_trees node_tree r.items ≡ joined (joined (list_trees item_tree (take at items.now.items)) (list_trees item_tree (drop (at + 1) items.now.items))) (list_trees stmt_tree body.now.items)) }
{
    let mut nodes = Vec::new(alloc);
    add_nodes(NodeList::ModuleItems(items), 0, at, &mut nodes)?;
    add_nodes(
        NodeList::ModuleItems(items),
        at + 1,
        items.len(),
        &mut nodes,
    )?;
    add_nodes(NodeList::Stmts(body), 0, body.len(), &mut nodes)?;
    Ok(nodes)
}
