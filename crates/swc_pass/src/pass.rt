//! What a pass is.
ghost use Rattle.std.specs.Prelude.{◌≡◌, ℕ, Bool, false, List, IfOk, IfErr, OnErr};
ghost use Rattle.swc_ast.specs.Modules.{module_tree, script_tree};
ghost use Rattle.swc_ast.specs.declared.errors.PassError.TheVariants.{OutOfMemory};
ghost use Rattle.swc_pass.specs.Pass.{PassSpec, IsLawful, TellsChange, Folds, NothingTold};

use std::alloc::Global;
use swc_ast::{Mark, Module, PassError, Script};

/// A pass that records whether its last run changed something.
pub trait Repeated {
    ghost is_changed: { Self → Bool };

    /// How many rounds the last run had, where it runs again and again.
    ghost rounds_run: { Self → ℕ } = { λ _. 0 };

    /// Whether a round of the last run changed nothing, where it runs again and again.
    ghost is_reached: { Self → Bool } = { λ _. false };

    /// What a reset may make of it.
    ghost resets_to: { Self → Self → Type 0 };

    /// Returns whether the last run changed more than spans: false before the first run and after an error.
    fn changed(&self) -> bool
        ensures { result ≡ is_changed self.now };

    /// Sets the pass back to its state before the first run.
    fn reset(&mut self)
        ensures kept { resets_to self.old self.new }
        ensures changed { is_changed self.new ≡ false }
        ensures reached { is_reached self.new ≡ false }
        ensures rounds { rounds_run self.new ≡ 0 };
}

/// A pass that has a name.
pub trait CompilerPass {
    /// The bytes of the pass's name.
    ghost its_name: { List ℕ };

    /// The pass's name.
    fn name(&self) -> &'static str
        ensures { result.now ≡ its_name };
}

/// A pass over modules and scripts. Its `spec` says which results are possible, and its laws say what holds of each of them.
pub trait Pass: Repeated {
    /// What it was made with, which no run changes.
    ghost Settings: { Type 0 };

    ghost settings: { Self → Settings };

    ghost spec: { Settings → PassSpec };

    /// Returns the mark that the pass was made with, if any.
    fn mark(&self) -> Option<Mark>
        ensures { result ≡ (spec (settings self.now)).mark };

    /// Returns whether each change of the pass makes the module lighter.
    fn lowers(&self) -> bool
        ensures { result ≡ (spec (settings self.now)).lowers };

    /// Rewrites a module in place. Fails if memory runs out; the pass can run again after that.
    fn rewrite(&mut self, alloc: Global, module: Module) -> Result<Module, PassError>
        ensures settings { settings self.new ≡ settings self.old }
        ensures answer { IfOk result (λ r. (spec (settings self.old)).answers (module_tree «module») (module_tree r)) }
        ensures changed { IfOk result (λ r. TellsChange (Self.is_changed self.new) (module_tree «module») (module_tree r)) }
        ensures refused { OnErr result (NothingTold (Self.is_changed self.new) (Self.is_reached self.new) (Self.rounds_run self.new)) }
        ensures memory { IfErr result (λ e. e ≡ OutOfMemory) };

    /// Rewrites a script in place. Fails if memory runs out; the pass can run again after that.
    fn rewrite_script(&mut self, alloc: Global, script: Script) -> Result<Script, PassError>
        ensures settings { settings self.new ≡ settings self.old }
        ensures answer { IfOk result (λ r. (spec (settings self.old)).answers (script_tree script) (script_tree r)) }
        ensures changed { IfOk result (λ r. TellsChange (Self.is_changed self.new) (script_tree script) (script_tree r)) }
        ensures refused { OnErr result (NothingTold (Self.is_changed self.new) (Self.is_reached self.new) (Self.rounds_run self.new)) }
        ensures memory { IfErr result (λ e. e ≡ OutOfMemory) };

    /// Runs the pass over a module and returns the result, for which its laws hold. Fails if memory runs out; the pass can run
    /// again after that.
    fn fold_module(&mut self, alloc: Global, module: Module) -> Result<Module, PassError>
        ensures settings { settings self.new ≡ settings self.old }
        ensures folded { IfOk result (λ r. Folds (spec (settings self.old)) (Self.is_changed self.new) (module_tree «module») (module_tree r)) }
        ensures refused { OnErr result (NothingTold (Self.is_changed self.new) (Self.is_reached self.new) (Self.rounds_run self.new)) }
        ensures memory { IfErr result (λ e. e ≡ OutOfMemory) }
    {
        self.rewrite(alloc, module)
    }

    /// Runs the pass over a script and returns the result, for which its laws hold. Fails if memory runs out; the pass can run
    /// again after that.
    fn fold_script(&mut self, alloc: Global, script: Script) -> Result<Script, PassError>
        ensures settings { settings self.new ≡ settings self.old }
        ensures folded { IfOk result (λ r. Folds (spec (settings self.old)) (Self.is_changed self.new) (script_tree script) (script_tree r)) }
        ensures refused { OnErr result (NothingTold (Self.is_changed self.new) (Self.is_reached self.new) (Self.rounds_run self.new)) }
        ensures memory { IfErr result (λ e. e ≡ OutOfMemory) }
    {
        self.rewrite_script(alloc, script)
    }

    /// Runs the pass over a copy of a module and returns the result, for which its laws hold. Fails if memory runs out; the pass can
    /// run again after that.
    fn run(&mut self, alloc: Global, module: &Module) -> Result<Module, PassError>
        ensures settings { settings self.new ≡ settings self.old }
        ensures folded { IfOk result (λ r. Folds (spec (settings self.old)) (Self.is_changed self.new) (module_tree «module».now) (module_tree r)) }
        ensures refused { OnErr result (NothingTold (Self.is_changed self.new) (Self.is_reached self.new) (Self.rounds_run self.new)) }
        ensures memory { IfErr result (λ e. e ≡ OutOfMemory) }
    {
        self.reset();
        let copy = module.clone()?;
        self.fold_module(alloc, copy)
    }

    /// Runs the pass over a copy of a script and returns the result, for which its laws hold. Fails if memory runs out; the pass can
    /// run again after that.
    fn run_script(&mut self, alloc: Global, script: &Script) -> Result<Script, PassError>
        ensures settings { settings self.new ≡ settings self.old }
        ensures folded { IfOk result (λ r. Folds (spec (settings self.old)) (Self.is_changed self.new) (script_tree script.now) (script_tree r)) }
        ensures refused { OnErr result (NothingTold (Self.is_changed self.new) (Self.is_reached self.new) (Self.rounds_run self.new)) }
        ensures memory { IfErr result (λ e. e ≡ OutOfMemory) }
    {
        self.reset();
        let copy = script.clone()?;
        self.fold_script(alloc, copy)
    }

    ghost reset_keeps: { (p q : Self) → Self.resets_to p q → settings q ≡ settings p };

    ghost lawful: { (p : Self) → IsLawful (spec (settings p)) };
}
