//! Empty statements and blocks that declare nothing.
ghost use Rattle.std.specs.Prelude.{◌≡◌, ◌∷◌, [], IfOk, OnOk};
ghost use Rattle.swc_ast.specs.Modules.{item_tree};
ghost use Rattle.swc_ast.specs.Parts.{list_trees};
ghost use Rattle.swc_ast.specs.Scope.{joined};
ghost use Rattle.swc_ast.specs.Views.{stmt_tree};
ghost use Rattle.stmt_like.specs.Kept.{Kept};
ghost use Rattle.branch_lists.specs.Onto.{Onto};
ghost use Rattle.branch_lists.specs.Swept.{trees, contents, swept_item, swept};

use crate::looks::is_loose;
use std::alloc::{AllocError, Global};
use std::mem;
use stmt_like::StmtLike;
use swc_ast::Stmt;

/// The statements of a block; another statement has none.
#[tactic(auto, using(swc_ast::proofs::Equations::forms, crate::proofs::Shapes::no_contents))]
fn contents_of(alloc: Global, s: Stmt) -> Vec<Stmt>
    ensures { list_trees stmt_tree result.items ≡ contents (stmt_tree s) }
{
    let mut s = s;
    match &mut s {
        Stmt::Block(n) => mem::replace(&mut n.stmts, Vec::new(alloc)),
        _ => Vec::new(alloc),
    }
}

/// Adds statements to items.
fn push_stmts<T: StmtLike + Drop>(stmts: Vec<Stmt>, out: &mut Vec<T>) -> Result<(), AllocError>
    ensures pushed { OnOk result (trees T.item out.new.items ≡ joined (trees T.item out.old.items) (list_trees stmt_tree stmts.items)) }
    ensures made { OnOk result (Onto T.made [] out.old.items out.new.items) }
{
    for s in stmts {
        out.push(T::from(s))?;
    }
    Ok(())
}

/// Adds an item, or what is left of it.
fn push_swept<T: StmtLike + Drop>(
    alloc: Global,
    item: T,
    out: &mut Vec<T>,
) -> Result<(), AllocError>
    ensures swept { OnOk result (trees T.item out.new.items ≡ joined (trees T.item out.old.items) (swept_item (item_tree (T.item item)))) }
    ensures kept { OnOk result (Onto T.made (item ∷ []) out.old.items out.new.items) }
{
    if !is_loose(&item) {
        out.push(item)?;
        return Ok(());
    }
    match item.try_into_stmt() {
        Ok(s) => push_stmts(contents_of(alloc, s), out),
        Err(_) => Ok(()),
    }
}

/// A list without empty statements, and with the statements of each block that declares nothing in the block's place.
pub(crate) fn sweep<T: StmtLike + Drop>(alloc: Global, items: Vec<T>) -> Result<Vec<T>, AllocError>
    ensures swept { IfOk result (λ r. trees T.item r.items ≡ swept (trees T.item items.items)) }
    ensures kept { IfOk result (λ r. Kept T.made items.items r.items) }
{
    let mut out = Vec::with_capacity(alloc, items.len())?;
    for item in items {
        push_swept(alloc, item, &mut out)?;
    }
    Ok(out)
}
