//! What names of a module stand for, unless it is refused.
ghost use Rattle.std.specs.Prelude.{◌≡◌, ◌⊎◌, [], IfOk, IfErr};
ghost use Rattle.swc_ast.specs.Modules.{item_tree};
ghost use Rattle.swc_ast.specs.Parts.{list_trees};
ghost use Rattle.swc_ast.specs.Tree.{Text};
ghost use Rattle.swc_ast.specs.declared.errors.PassError.TheVariants as error;
ghost use Rattle.const_imports.specs.Faults.{faults};
ghost use Rattle.const_imports.specs.Locals.{locals};
ghost use Rattle.const_imports.specs.Views.{is_given, has_value, of_text, group_of, IsFirst};

use crate::faults::first_fault;
use crate::given::GivenModules;
use crate::imports::locals_among;
use crate::table::Locals;
use std::alloc::Global;
use swc_ast::{Module, PassError};

/// What names of a module stand for, by the imports of given modules. It refuses a module in which something is wrong: the
/// refusal tells what is wrong first, imports in front of the rest, each in the order of the text. It refuses where memory
/// runs out, too.
pub fn resolve_locals<'a, V: Drop>(
    alloc: Global,
    module: &'a Module,
    given: &GivenModules<V>,
) -> Result<Locals<'a>, PassError>
    ensures locals { IfOk result (λ r. (t : Text) → group_of r t ≡ of_text t (locals (is_given given.now) (list_trees item_tree «module».now.body.items))) }
    ensures faultless { IfOk result (λ r. faults (is_given given.now) (has_value given.now) (list_trees item_tree «module».now.body.items) ≡ []) }
    ensures told { IfErr result (λ e. (e ≡ error.OutOfMemory) ⊎ IsFirst (faults (is_given given.now) (has_value given.now) (list_trees item_tree «module».now.body.items)) e) }
{
    let imported = locals_among(alloc, &module.body, given)?;
    let locals = Locals::of(alloc, &imported)?;
    match first_fault(module, &imported, &locals, given) {
        Some(fault) => Err(fault.refusal(alloc)),
        None => Ok(locals),
    }
}
