//! Rounds that are known beforehand.
ghost use Rattle.std.specs.Prelude.{◌≡◌, ◌≤◌, ◌<◌, [], ◌∷◌, map, string_bytes, IfOk, IfErr};
ghost use Rattle.swc_ast.specs.Modules.{item_tree};
ghost use Rattle.swc_ast.specs.Parts.{list_trees};
ghost use Rattle.swc_ast.specs.declared.errors.PassError.TheVariants.{OutOfMemory};
ghost use Rattle.swc_utils.specs.Globals.{unresolved};
ghost use Rattle.dce_layer_proofs.specs.Frames.{own};
ghost use Rattle.dce_items.specs.Described.{IsLayered};

use crate::access::accesses_of;
use crate::describe::describe_all;
use crate::nodes::own_nodes;
use dce_peel::{Layering, layers_of};
use dce_uses::Retained;
use std::alloc::Global;
use swc_ast::{Module, PassError};
use swc_names::Names;
use swc_utils::ExprCtx;

/// In which rounds of the tree shaker the items of a module go, where names of the top level go too and the texts of some stay:
/// as many rounds as are known beforehand, `most` at most, in which nothing but functions and variables of the module's list
/// goes. `ctx` tells which names are the host's. Refuses where memory is refused.
pub fn rounds_of(
    alloc: Global,
    module: &Module,
    retained: &[String],
    ctx: &ExprCtx,
    most: usize,
) -> Result<Layering, PassError>
    ensures few { IfOk result (λ l. l.rounds ≤ most) }
    ensures layered { IfOk result (λ l. 0 < l.rounds → IsLayered (unresolved ctx.now) (map string_bytes retained.now) l.rounds (own («module».now.span ∷ [])) (list_trees item_tree «module».now.body.items) l.layers.items) }
    ensures memory { IfErr result (λ e. e ≡ OutOfMemory) }
{
    let names = Names::new(alloc, &module.body)?;
    let retained = Retained::of(alloc, retained)?;
    let nodes = own_nodes(alloc, &module.body)?;
    let Some(described) = describe_all(alloc, &names, &retained, ctx, &nodes)? else {
        return Ok(Layering {
            layers: Vec::new(alloc),
            rounds: 0,
        });
    };
    let accesses = accesses_of(alloc, &names, &nodes)?;
    Ok(layers_of(alloc, names.len(), &described, &accesses, most)?)
}
