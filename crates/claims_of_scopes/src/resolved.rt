//! Resolved and core modules.
ghost use Rattle.std.specs.Prelude.{◌≡◌, ◌↔◌, true, IsTrue, IfOk, IfErr};
ghost use Rattle.swc_ast.specs.declared.errors.PassError.TheVariants.{OutOfMemory};
ghost use Rattle.swc_ast.specs.Core.{IsCore};
ghost use Rattle.swc_ast.specs.Marks.{mark_number};
ghost use Rattle.swc_ast.specs.Modules.{module_tree, script_tree};
ghost use Rattle.swc_ast.specs.Resolved.{IsResolved};
ghost use Rattle.swc_ast.specs.Valid.{valid};

use std::alloc::Global;
use swc_ast::{Mark, Module, PassError, Script};

/// `core_trees::is_core`
pub fn is_core(alloc: Global, m: &Module) -> Result<bool, PassError>
    ensures answer { IfOk result (λ b. valid (module_tree m.now) ≡ true → (IsTrue b ↔ IsCore (module_tree m.now))) }
    ensures error { IfErr result (λ e. e ≡ OutOfMemory) }
{
    core_trees::is_core(alloc, m)
}

/// `swc_resolved::is_resolved`
pub fn is_resolved(alloc: Global, m: &Module, unresolved_mark: Mark) -> Result<bool, PassError>
    ensures answer { IfOk result (λ b. IsTrue b ↔ IsResolved (mark_number unresolved_mark) (module_tree m.now)) }
    ensures error { IfErr result (λ e. e ≡ OutOfMemory) }
{
    swc_resolved::is_resolved(alloc, m, unresolved_mark)
}

/// `swc_resolved::is_core_and_resolved`
pub fn is_core_and_resolved(
    alloc: Global,
    m: &Module,
    unresolved_mark: Mark,
) -> Result<bool, PassError>
    ensures answer { IfOk result (λ b. IsTrue b ↔ IsCore (module_tree m.now) × IsResolved (mark_number unresolved_mark) (module_tree m.now)) }
    ensures error { IfErr result (λ e. e ≡ OutOfMemory) }
{
    swc_resolved::is_core_and_resolved(alloc, m, unresolved_mark)
}

/// `core_trees::is_script_core`
pub fn is_script_core(alloc: Global, s: &Script) -> Result<bool, PassError>
    ensures answer { IfOk result (λ b. valid (script_tree s.now) ≡ true → (IsTrue b ↔ IsCore (script_tree s.now))) }
    ensures error { IfErr result (λ e. e ≡ OutOfMemory) }
{
    core_trees::is_script_core(alloc, s)
}

/// `swc_resolved::is_script_resolved`
pub fn is_script_resolved(
    alloc: Global,
    s: &Script,
    unresolved_mark: Mark,
) -> Result<bool, PassError>
    ensures answer { IfOk result (λ b. IsTrue b ↔ IsResolved (mark_number unresolved_mark) (script_tree s.now)) }
    ensures error { IfErr result (λ e. e ≡ OutOfMemory) }
{
    swc_resolved::is_script_resolved(alloc, s, unresolved_mark)
}

/// `swc_debug::is_valid`
pub fn is_valid(m: &Module) -> bool
    ensures { IsTrue result ↔ valid (module_tree m.now) ≡ true }
{
    swc_debug::is_valid(m)
}
