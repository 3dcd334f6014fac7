//! Items by numbers of names.
ghost use Rattle.std.specs.Prelude.{◌≡◌, IfOk, IfErr, IfSome};
ghost use Rattle.swc_ast.specs.Parts.{list_trees};
ghost use Rattle.swc_ast.specs.declared.errors.PassError.TheVariants.{OutOfMemory};
ghost use Rattle.swc_utils.specs.Globals.{unresolved};
ghost use Rattle.tree_visit.specs.Nodes.{node_tree};
ghost use Rattle.dce_items.specs.Described.{AllDescribed, Describes};

use crate::kinds::{is_asm, is_void};
use crate::known::Known;
use crate::parts::parts_of;
use dce_peel::Item;
use dce_uses::{Retained, Uses};
use std::alloc::Global;
use swc_ast::PassError;
use swc_names::Names;
use swc_utils::ExprCtx;
use tree_visit::Node;

/// An item by numbers of names. Nothing where something else than a name goes in it in any case, and where it is `'use asm'`.
fn describe(
    alloc: Global,
    names: &Names,
    retained: &Retained<'_>,
    ctx: &ExprCtx,
    item: Node<'_>,
) -> Result<Option<Item>, PassError>
    ensures described { IfOk result (λ o. IfSome o (Describes (unresolved ctx.now) retained.now names.now (node_tree item.entry))) }
    ensures memory { IfErr result (λ e. e ≡ OutOfMemory) }
{
    let uses = Uses::of_item(alloc, item)?;
    let known = Known {
        names,
        retained,
        uses: &uses,
    };
    let opened = item.open();
    if is_asm(opened) {
        return Ok(None);
    }
    if is_void(opened) {
        return Ok(None);
    }
    let Some(parts) = parts_of(ctx, opened) else {
        return Ok(None);
    };
    let Some(name) = known.goer(parts.name) else {
        return Ok(None);
    };
    let mut goers = Vec::new(alloc);
    if !known.gather_inside(parts.inner, &mut goers)? {
        return Ok(None);
    }
    let mut notes = Vec::new(alloc);
    known.note(opened, &mut notes)?;
    Ok(Some(Item { name, goers, notes }))
}

/// Items by numbers of names. Nothing where something else than a name goes in one in any case.
#[tactic(auto, using(crate::proofs::Describing::begins, crate::proofs::Describing::goes_on, crate::proofs::Describing::done))]
pub(crate) fn describe_all(
    alloc: Global,
    names: &Names,
    retained: &Retained<'_>,
    ctx: &ExprCtx,
    items: &[Node<'_>],
) -> Result<Option<Vec<Item>>, PassError>
    ensures described { IfOk result (λ o. IfSome o (λ v. AllDescribed (unresolved ctx.now) retained.now names.now (list_trees node_tree items.now) v.items)) }
    ensures memory { IfErr result (λ e. e ≡ OutOfMemory) }
{
    let mut described = Vec::new(alloc);
    let mut left = items;
    while let [item, rest @ ..] = left {
        let Some(found) = describe(alloc, names, retained, ctx, *item)? else {
            return Ok(None);
        };
        described.push(found)?;
        left = rest;
    }
    Ok(Some(described))
}
