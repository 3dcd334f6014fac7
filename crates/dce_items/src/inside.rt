//! Rounds in the body of a wrapper that are known beforehand.
ghost use Rattle.std.specs.Prelude.{◌≡◌, ◌≤◌, ◌<◌, map, string_bytes, drop, take, All, IfOk, IfErr, IfSome, IsTrue};
ghost use Rattle.swc_ast.specs.declared.errors.PassError.TheVariants.{OutOfMemory};
ghost use Rattle.swc_utils.specs.Globals.{unresolved};
ghost use Rattle.dce_peel.specs.Rounds.{AreLayers};
ghost use Rattle.dce_items.specs.Wrapped.{LayeredInside};

use crate::access::accesses_of;
use crate::describe::describe_all;
use crate::nodes::nodes_around;
use crate::wrapper::{calls_eval, wrapper_in};
use dce_peel::{Access, Item, Layering, layers_of};
use dce_uses::Retained;
use std::alloc::{AllocError, Global};
use swc_ast::{Module, PassError};
use swc_names::Names;
use swc_utils::ExprCtx;
use tree_visit::{Children, NodeList};

/// The body of a wrapper in layers.
#[derive(Drop)]
pub struct Inside {
    /// The place of the wrapper among the module's items.
    pub at: usize,
    /// For each item of the body the round in which it goes; greater than the number of rounds where it stays.
    pub layers: Vec<usize>,
    pub rounds: usize,
}

/// The layers of so many items in front, and of those behind them.
fn part<'a>(layers: &'a [usize], outside: usize) -> (&'a [usize], &'a [usize])
    ensures front { result.0.now ≡ take outside layers.now }
    ensures behind { result.1.now ≡ drop outside layers.now }
{
    layers.split_at(outside.min(layers.len()))
}

/// How many rounds leave each of some items, and one of others.
fn most_beside(others: &[usize], layers: &[usize]) -> usize {
    let first = others.iter().copied().min().unwrap_or(usize::MAX);
    let last = layers.iter().copied().max().unwrap_or(0);
    first.min(last).saturating_sub(1)
}

/// Whether each of some items stays for so many rounds.
fn all_stay(layers: &[usize], rounds: usize) -> bool
    ensures { IsTrue result → All (λ r. rounds < r) layers.now }
{
    layers.iter().all(|layer| rounds < *layer)
}

fn copy(alloc: Global, layers: &[usize]) -> Result<Vec<usize>, AllocError>
    ensures { IfOk result (λ r. r.items ≡ layers.now) }
{
    let mut copied = Vec::new(alloc);
    copied.extend_from_slice(layers)?;
    Ok(copied)
}

/// Layers of items in as many rounds as leave each of so many items in front, and one of those behind them: a call of a function
/// that does nothing would go.
fn layers_beside(
    alloc: Global,
    names: usize,
    outside: usize,
    items: &[Item],
    accesses: &[Access],
    most: usize,
) -> Result<Layering, AllocError>
    ensures few { IfOk result (λ l. l.rounds ≤ most) }
    ensures layers { IfOk result (λ l. 0 < l.rounds → AreLayers items.now l.rounds l.layers.items) }
{
    let found = layers_of(alloc, names, items, accesses, most)?;
    let (others, layers) = part(&found.layers, outside);
    let fewer = most_beside(others, layers);
    if found.rounds <= fewer {
        return Ok(found);
    }
    layers_of(alloc, names, items, accesses, fewer)
}

/// In which rounds of the tree shaker the items of the body of a wrapper go, the first of the module: as many rounds as are known
/// beforehand, `most` at most, in which nothing but functions and variables of that body goes. Nothing where none are. Refuses
/// where memory is refused.
pub fn rounds_inside(
    alloc: Global,
    module: &Module,
    retained: &[String],
    ctx: &ExprCtx,
    most: usize,
) -> Result<Option<Inside>, PassError>
    ensures few { IfOk result (λ o. IfSome o (λ i. i.rounds ≤ most)) }
    ensures layered { IfOk result (λ o. IfSome o (LayeredInside (unresolved ctx.now) (map string_bytes retained.now) «module».now)) }
    ensures memory { IfErr result (λ e. e ≡ OutOfMemory) }
{
    let Some((at, body)) = wrapper_in(&module.body) else {
        return Ok(None);
    };
    if calls_eval(Children::Listed(NodeList::Stmts(body), 0)) {
        return Ok(None);
    }
    let names = Names::new(alloc, &module.body)?;
    let retained = Retained::of(alloc, retained)?;
    let nodes = nodes_around(alloc, &module.body, at, body)?;
    let Some(described) = describe_all(alloc, &names, &retained, ctx, &nodes)? else {
        return Ok(None);
    };
    let accesses = accesses_of(alloc, &names, &nodes)?;
    let outside = module.body.len() - 1;
    let found = layers_beside(alloc, names.len(), outside, &described, &accesses, most)?;
    let (others, layers) = part(&found.layers, outside);
    if found.rounds == 0 || !all_stay(others, found.rounds) {
        return Ok(None);
    }
    Ok(Some(Inside {
        at,
        layers: copy(alloc, layers)?,
        rounds: found.rounds,
    }))
}
