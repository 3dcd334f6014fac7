//! The pass.
ghost use Rattle.std.specs.Prelude.{◌≡◌, ◌⊎◌, false, IfOk, IfErr, OnErr};
ghost use Rattle.swc_ast.specs.Modules.{module_tree, script_tree};
ghost use Rattle.swc_ast.specs.declared.errors.PassError.TheVariants.{OutOfMemory};
ghost use Rattle.swc_pass.specs.Pass.{TellsChange};
ghost use Rattle.const_imports.specs.Views.{IsFirst};
ghost use Rattle.const_pass.specs.Replaced.{constants_in, faults_in, IsPut, Replaced, SameInScript};

use crate::rules::Constants;
use const_imports::{GivenModules, resolve_locals, unloaded};
use std::alloc::Global;
use swc_ast::{Expr, Module, PassError, Script};
use swc_pass::{Repeated, settle};
use tree_put::put_module;

/// A pass that replaces imports of given modules: reads of what they bind become the exports' values.
#[derive(Drop)]
pub struct ConstModules {
    given: GivenModules<Expr>,
    changed: bool,
}

impl Repeated for ConstModules {
    ghost is_changed = { λ p. p.changed };

    ghost resets_to = { λ p q. q.given ≡ p.given };

    fn changed(&self) -> bool {
        self.changed
    }

    fn reset(&mut self) {
        self.changed = false;
    }
}

impl ConstModules {
    /// The pass with given modules.
    pub fn new(given: GivenModules<Expr>) -> ConstModules
        ensures given { result.given ≡ given }
        ensures changed { result.changed ≡ false }
    {
        ConstModules {
            given,
            changed: false,
        }
    }

    /// What is put in the places of a module.
    #[tactic(auto, using(crate::proofs::Answered::told_same))]
    fn answer(&self, alloc: Global, module: &Module) -> Result<Module, PassError>
        ensures put { IfOk result (λ r. IsPut (constants_in self.now.given) (module_tree «module».now) (module_tree r)) }
        ensures told { IfErr result (λ e. (e ≡ OutOfMemory) ⊎ IsFirst (faults_in self.now.given (module_tree «module».now)) e) }
    {
        let locals = resolve_locals(alloc, module, &self.given)?;
        let mut copy = unloaded(alloc, module, &self.given)?;
        let mut rules = Constants {
            alloc,
            locals,
            given: &self.given,
        };
        put_module(alloc, &mut rules, &mut copy)?;
        Ok(copy)
    }

    /// What the pass makes of a module that it takes: the module itself where it changes nothing but spans. It refuses an import
    /// of what a given module hasn't, a namespace that is used otherwise than to name an export, and an import that is exported
    /// again, the first of these in the order of the imports and then of the text, and where memory runs out; the pass may run
    /// again then.
    pub fn fold_module(&mut self, alloc: Global, module: Module) -> Result<Module, PassError>
        ensures given { self.new.given ≡ self.old.given }
        ensures answer { IfOk result (λ r. Replaced (constants_in self.old.given) (module_tree «module») (module_tree r)) }
        ensures told { IfErr result (λ e. (e ≡ OutOfMemory) ⊎ IsFirst (faults_in self.old.given (module_tree «module»)) e) }
        ensures changed { IfOk result (λ r. TellsChange (⟦<ConstModules as Repeated>⟧.is_changed self.new) (module_tree «module») (module_tree r)) }
        ensures refused { OnErr result (⟦<ConstModules as Repeated>⟧.is_changed self.new ≡ false) }
    {
        self.changed = false;
        let answer = self.answer(alloc, &module)?;
        let made = settle(module, answer);
        self.changed = made.changed;
        Ok(made.whole)
    }

    /// A script imports nothing: it is given back as it is.
    pub fn fold_script(&mut self, _alloc: Global, script: Script) -> Result<Script, PassError>
        ensures given { self.new.given ≡ self.old.given }
        ensures answer { IfOk result (λ r. script_tree r ≡ script_tree script) }
        ensures same { IfOk result (λ r. SameInScript (constants_in self.old.given) (script_tree script) (script_tree r)) }
        ensures changed { ⟦<ConstModules as Repeated>⟧.is_changed self.new ≡ false }
        ensures memory { IfErr result (λ e. e ≡ OutOfMemory) }
    {
        self.changed = false;
        Ok(script)
    }

    /// What the pass makes of a copy of a module. It refuses as `fold_module` does.
    pub fn run(&mut self, alloc: Global, module: &Module) -> Result<Module, PassError>
        ensures given { self.new.given ≡ self.old.given }
        ensures answer { IfOk result (λ r. Replaced (constants_in self.old.given) (module_tree «module».now) (module_tree r)) }
        ensures told { IfErr result (λ e. (e ≡ OutOfMemory) ⊎ IsFirst (faults_in self.old.given (module_tree «module».now)) e) }
        ensures changed { IfOk result (λ r. TellsChange (⟦<ConstModules as Repeated>⟧.is_changed self.new) (module_tree «module».now) (module_tree r)) }
        ensures refused { OnErr result (⟦<ConstModules as Repeated>⟧.is_changed self.new ≡ false) }
    {
        self.changed = false;
        let copy = module.clone()?;
        self.fold_module(alloc, copy)
    }

    /// A copy of a script. It refuses where memory runs out.
    pub fn run_script(&mut self, _alloc: Global, script: &Script) -> Result<Script, PassError>
        ensures given { self.new.given ≡ self.old.given }
        ensures answer { IfOk result (λ r. script_tree r ≡ script_tree script.now) }
        ensures same { IfOk result (λ r. SameInScript (constants_in self.old.given) (script_tree script.now) (script_tree r)) }
        ensures changed { ⟦<ConstModules as Repeated>⟧.is_changed self.new ≡ false }
        ensures memory { IfErr result (λ e. e ≡ OutOfMemory) }
    {
        self.changed = false;
        Ok(script.clone()?)
    }
}
