//! What is carried to reads.
ghost use Rattle.std.specs.Prelude.{◌≡◌, map, IfOk, IfErr, OnOk};
ghost use Rattle.swc_ast.specs.Modules.{module_tree};
ghost use Rattle.swc_ast.specs.Parts.{ident_name};
ghost use Rattle.swc_ast.specs.declared.errors.PassError.TheVariants.{OutOfMemory};
ghost use Rattle.swc_pass.specs.Pass.{TellsChange};
ghost use Rattle.carry_proofs.specs.Propagation.{Propagates};
ghost use Rattle.carry_parts.specs.Carries.{pass_of, puts_of};
ghost use Rattle.carry_vars.specs.Facts.{steady_of};
ghost use Rattle.carry_puts.specs.Values.{IsPut};

use carry_parts::{Carry, Pass};
use carry_puts::Walked;
use carry_vars::Vars;
use std::alloc::{AllocError, Global};
use swc_ast::{Ident, Module, PassError};
use swc_pass::Made;

/// `Vars::is_steady`
pub fn is_steady(vars: &Vars<'_>, name: &Ident) -> bool
    ensures { result ≡ steady_of vars.now (ident_name name.now) }
{
    vars.is_steady(name)
}

/// `Walked::put` of a module
pub fn put(
    module: &mut Module,
    alloc: Global,
    pass: Pass,
    reads: &Vec<Option<Carry<'_>>>,
) -> Result<(), AllocError>
    ensures { OnOk result (IsPut (pass_of pass) (map puts_of reads.now.items) (module_tree «module».old) (module_tree «module».new)) }
{
    module.put(alloc, pass, reads)
}

/// `propagate` of a module
pub fn propagate(alloc: Global, pass: Pass, module: Module) -> Result<Made<Module>, PassError>
    ensures answer { IfOk result (λ m. Propagates (pass_of pass) (module_tree «module») (module_tree m.whole)) }
    ensures changed { IfOk result (λ m. TellsChange m.changed (module_tree «module») (module_tree m.whole)) }
    ensures memory { IfErr result (λ e. e ≡ OutOfMemory) }
{
    carry_pass::propagate(alloc, pass, module)
}
