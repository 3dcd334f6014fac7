//! What flags give, put into a module.
ghost use Rattle.std.specs.Prelude.{◌≡◌, ◌≢◌, ◌≤◌, [], Some, map, max, IfOk, IfErr};
ghost use Rattle.swc_ast.specs.Modules.{module_tree};
ghost use Rattle.swc_levels.specs.Levels.{levels};
ghost use Rattle.shake_options.specs.Flags.{flag_texts};
ghost use Rattle.shake_given.specs.Deep.{Within};
ghost use Rattle.shake_given.specs.Prepared.{Prepared, Stays};
ghost use Rattle.shake_given.specs.Refused.{Refused};
ghost use Rattle.shake_given.specs.Told.{error_text};

use shake_given::GivenError;
use shake_options::Flag;
use std::alloc::Global;
use std::fmt;
use swc_ast::{Mark, Module};

/// `shake_given::prepare`
pub fn prepare(
    alloc: Global,
    flags: &[Flag<'_>],
    mark: Mark,
    module: Module,
) -> Result<Module, GivenError>
    ensures prepared { IfOk result (λ r. Prepared (map flag_texts flags.now) mark (module_tree «module») (module_tree r)) }
    ensures stays { IfOk result (λ r. Stays (module_tree «module») (module_tree r)) }
    ensures unflagged { IfOk result (λ r. flags.now ≡ [] → module_tree r ≡ module_tree «module») }
    ensures levels { IfOk result (λ r. levels (module_tree r) ≤ max 1000 (levels (module_tree «module»))) }
    ensures within { IfOk result (λ r. Within (map flag_texts flags.now) mark (module_tree «module»)) }
    ensures told { IfErr result (Refused (map flag_texts flags.now) mark (module_tree «module»)) }
    ensures refused { IfErr result (λ _. flags.now ≢ []) }
{
    shake_given::prepare(alloc, flags, mark, module)
}

/// `shake_given::prepare`, of which the levels are asked
pub fn prepare_levels(
    alloc: Global,
    given: &[Flag<'_>],
    mark: Mark,
    module: Module,
) -> Result<Module, GivenError>
    ensures levels { IfOk result (λ r. levels (module_tree r) ≤ max 1000 (levels (module_tree «module»))) }
{
    shake_given::prepare(alloc, given, mark, module)
}

/// `Display` of `GivenError`
#[derive(Clone, Copy)]
pub struct Told<'a>(pub &'a GivenError);

impl fmt::Display for Told<'_> {
    ghost output = { λ t. Some (error_text t.0.now) };

    fn fmt<W: fmt::Write>(&self, f: &mut fmt::Formatter<W>) -> fmt::Result {
        let error = self.0;
        write!(f, "{error}")
    }
}
