//! The pass.
ghost use Rattle.std.specs.Prelude.{◌≡◌, false, refl};
ghost use Rattle.carry_rules.specs.Carry.{constants};
ghost use Rattle.carry_proofs.specs.Propagation.{propagation_spec};
ghost use Rattle.carry_proofs.proofs.Lawful.{propagation_lawful};

use carry_parts::Pass as Carried;
use carry_pass::propagate;
use std::alloc::Global;
use swc_ast::{Mark, Module, PassError, Script};
use swc_pass::{Pass, Repeated};

/// A pass that replaces names of `const` by the number, boolean or `null` that they are declared with, and aliases by the names
/// that they stand for, where one of the two has a dummy span.
#[derive(Drop)]
pub struct ConstPropagation {
    changed: bool,
}

/// Returns the pass. It is for programs with any mark.
pub fn constant_propagation() -> ConstPropagation
    ensures { ⟦<ConstPropagation as Repeated>⟧.is_changed result ≡ false }
{
    ConstPropagation { changed: false }
}

impl Repeated for ConstPropagation {
    ghost is_changed = { λ p. p.changed };

    ghost resets_to = { λ p q. Unit {0} };

    fn changed(&self) -> bool {
        self.changed
    }

    fn reset(&mut self) {
        self.changed = false;
    }
}

impl Pass for ConstPropagation {
    ghost Settings = { Unit {0} };

    ghost settings = { λ p. tt };

    ghost spec = { λ s. propagation_spec constants };

    fn mark(&self) -> Option<Mark> {
        None
    }

    fn lowers(&self) -> bool {
        false
    }

    fn rewrite(&mut self, alloc: Global, module: Module) -> Result<Module, PassError> {
        self.changed = false;
        let made = propagate(alloc, Carried::Constants, module)?;
        self.changed = made.changed;
        Ok(made.whole)
    }

    fn rewrite_script(&mut self, alloc: Global, script: Script) -> Result<Script, PassError> {
        self.changed = false;
        let made = propagate(alloc, Carried::Constants, script)?;
        self.changed = made.changed;
        Ok(made.whole)
    }

    ghost reset_keeps = { λ p q h. refl };

    ghost lawful = { λ p. propagation_lawful constants };
}
