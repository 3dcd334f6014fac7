//! The pass.
ghost use Rattle.std.specs.Prelude.{◌≡◌, false, codes, refl};
ghost use Rattle.carry_rules.specs.Carry.{inlines};
ghost use Rattle.carry_proofs.specs.Propagation.{propagation_spec};
ghost use Rattle.carry_proofs.proofs.Lawful.{propagation_lawful};

use carry_parts::Pass as Carried;
use carry_pass::propagate;
use std::alloc::Global;
use swc_ast::{Mark, Module, PassError, Script};
use swc_pass::{CompilerPass, Pass, Repeated};

/// A pass that replaces names by the values and names that they stand for: those of `let` and `const` that nothing writes, those
/// of `var` among the statements that follow, and names that are never set by `void 0`.
#[derive(Drop)]
pub struct Inlining {
    changed: bool,
}

impl Inlining {
    pub(crate) fn new() -> Inlining
        ensures { ⟦<Inlining as Repeated>⟧.is_changed result ≡ false }
    {
        Inlining { changed: false }
    }
}

impl Repeated for Inlining {
    ghost is_changed = { λ p. p.changed };

    ghost resets_to = { λ p q. Unit {0} };

    fn changed(&self) -> bool {
        self.changed
    }

    fn reset(&mut self) {
        self.changed = false;
    }
}

impl CompilerPass for Inlining {
    ghost its_name = { codes "inlining" };

    /// `inlining`
    fn name(&self) -> &'static str {
        "inlining"
    }
}

impl Pass for Inlining {
    ghost Settings = { Unit {0} };

    ghost settings = { λ p. tt };

    ghost spec = { λ s. propagation_spec inlines };

    fn mark(&self) -> Option<Mark> {
        None
    }

    fn lowers(&self) -> bool {
        false
    }

    fn rewrite(&mut self, alloc: Global, module: Module) -> Result<Module, PassError> {
        self.changed = false;
        let made = propagate(alloc, Carried::Inlines, module)?;
        self.changed = made.changed;
        Ok(made.whole)
    }

    fn rewrite_script(&mut self, alloc: Global, script: Script) -> Result<Script, PassError> {
        self.changed = false;
        let made = propagate(alloc, Carried::Inlines, script)?;
        self.changed = made.changed;
        Ok(made.whole)
    }

    ghost reset_keeps = { λ p q h. refl };

    ghost lawful = { λ p. propagation_lawful inlines };
}
