//! Whether a module or a script is core.
ghost use Rattle.std.specs.Prelude.{◌≡◌, ◌↔◌, true, IsTrue, IfOk, IfErr};
ghost use Rattle.swc_ast.specs.declared.errors.PassError.TheVariants.{OutOfMemory};
ghost use Rattle.swc_ast.specs.Core.{IsCore};
ghost use Rattle.swc_ast.specs.Modules.{module_tree, script_tree};
ghost use Rattle.swc_ast.specs.Valid.{valid};

use crate::walk::is_fit;
use std::alloc::Global;
use swc_ast::{Module, PassError, Script};
use tree_visit::Node;

/// Returns whether a valid module is core: its numbers are of at most 2^53 - 1 in size, and no scope
/// declares a name twice but for `var`s and parameters. Fails if memory runs out.
pub fn is_core(alloc: Global, m: &Module) -> Result<bool, PassError>
    ensures answer { IfOk result (λ b. valid (module_tree m.now) ≡ true → (IsTrue b ↔ IsCore (module_tree m.now))) }
    ensures error { IfErr result (λ e. e ≡ OutOfMemory) }
{
    let answer = is_fit(Node::Module(m), alloc)?;
    Ok(answer)
}

/// The same for a script.
pub fn is_script_core(alloc: Global, s: &Script) -> Result<bool, PassError>
    ensures answer { IfOk result (λ b. valid (script_tree s.now) ≡ true → (IsTrue b ↔ IsCore (script_tree s.now))) }
    ensures error { IfErr result (λ e. e ≡ OutOfMemory) }
{
    let answer = is_fit(Node::Script(s), alloc)?;
    Ok(answer)
}
