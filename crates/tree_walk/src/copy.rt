//! A walk over a copy.
ghost use Rattle.std.specs.Prelude.{IfOk};
ghost use Rattle.swc_ast.specs.Modules.{module_tree};
ghost use Rattle.tree_walk.specs.Walks.{WholeMade};

use crate::rules::Rules;
use crate::walk::walk_module;
use std::alloc::AllocError;
use swc_ast::Module;

/// The result of a walk over a copy of a module, and whether it differs from that module.
#[derive(Drop)]
pub struct Rewritten {
    pub module: Module,
    pub changed: bool,
}

/// Walks a copy of a module.
pub fn rewrite<R: Rules>(rules: &R, n: &Module) -> Result<Rewritten, AllocError>
    ensures { IfOk result (λ r. WholeMade (R.pass rules.now) (module_tree n.now) (module_tree r.module) r.changed) }
{
    let mut module = n.clone()?;
    let changed = walk_module(rules, &mut module)?;
    Ok(Rewritten { module, changed })
}
