//! A module without the imports of given modules.
ghost use Rattle.std.specs.Prelude.{◌≡◌, IfOk, OnOk};
ghost use Rattle.swc_ast.specs.Modules.{item_tree, module_tree};
ghost use Rattle.swc_ast.specs.Parts.{list_trees};
ghost use Rattle.swc_ast.specs.Scope.{joined};
ghost use Rattle.swc_ast.specs.Tree.{Forest, ◌⊳◌};
ghost use Rattle.swc_pass.specs.Constants.{Constants, without_given, unloaded as unloaded_tree};
ghost use Rattle.const_imports.specs.Views.{is_given};

use crate::given::GivenModules;
use crate::imports::is_given_import;
use std::alloc::{AllocError, Global};
use swc_ast::{Module, ModuleItem};

/// Adds a copy of an item, unless it is an import of a given module. Fails where memory is refused.
#[tactic(auto, using(crate::proofs::Unloading::kept, crate::proofs::Unloading::gone))]
fn push_kept<V: Drop>(
    body: &mut Vec<ModuleItem>,
    item: &ModuleItem,
    given: &GivenModules<V>,
) -> Result<(), AllocError>
    ensures { OnOk result ((k : Constants) → k.is_given ≡ is_given given.now → (ts : Forest) → joined (list_trees item_tree body.new.items) (without_given k ts) ≡ joined (list_trees item_tree body.old.items) (without_given k (item_tree item.now ⊳ ts))) }
{
    if is_given_import(item, given) {
        return Ok(());
    }
    body.push(item.clone()?)?;
    Ok(())
}

/// A copy of a module without the imports of given modules. Fails where memory is refused.
pub fn unloaded<V: Drop>(
    alloc: Global,
    module: &Module,
    given: &GivenModules<V>,
) -> Result<Module, AllocError>
    ensures { IfOk result (λ r. (k : Constants) → k.is_given ≡ is_given given.now → module_tree r ≡ unloaded_tree k (module_tree «module».now)) }
{
    let mut body = Vec::new(alloc);
    let items: &[ModuleItem] = &module.body;
    let mut left = items;
    while let [item, rest @ ..] = left {
        push_kept(&mut body, item, given)?;
        left = rest;
    }
    Ok(Module {
        span: module.span,
        body,
    })
}
