//! The simplifier, as rounds of its passes.
ghost use Rattle.std.specs.Prelude.{◌≡◌, ◌<◌, ◌↔◌, ℕ, true, false, if◌then◌else◌, IfOk, IfErr, IsTrue, OnErr};
ghost use Rattle.std.proofs.Common.{ap₂};
ghost use Rattle.swc_ast.specs.Modules.{module_tree, script_tree};
ghost use Rattle.swc_ast.specs.declared.errors.PassError.TheVariants.{OutOfMemory};
ghost use Rattle.swc_pass.specs.Repeat.{Rounded};
ghost use Rattle.swc_dce.specs.Configured.{told};
ghost use Rattle.swc_dce.specs.Shaken.{Told};
ghost use Rattle.swc_optimization.specs.Simplifier.{round_spec, rounds_spec, Simplifies};
ghost use Rattle.swc_optimization.specs.RoundLaws.{rounds_lawful};

use crate::config::Config;
use crate::rounds::{Passes, Program};
use std::alloc::Global;
use std::marker::Model;
use swc_ast::{Mark, Module, PassError, Script};
use swc_inlining::Inlining;
use swc_pass::{Chain, Pass, Repeat, Repeated};

/// Runs the expression simplifier, the remover of dead branches and the tree shaker, in this order, until a round of them
/// changes nothing or the limit is reached.
#[derive(Drop)]
pub struct Simplifier {
    passes: Passes,
    max_rounds: usize,
    rounds: usize,
    reached: bool,
    changed: bool,
}

impl Model for Simplifier {
    ghost use Rattle.swc_optimization.specs.Simplifier.{Simplifying};

    ghost Value = { Simplifying };

    ghost view = { λ s. record { told = s.passes; most = s.max_rounds; rounds = s.rounds; reached = s.reached; changed = s.changed } };
}

/// Inlines names and simplifies what that makes, until a round of both changes nothing or the limit is reached.
pub type Optimizer = Repeat<Chain<Inlining, Simplifier>>;

/// Returns whether one of the rounds changed something.
fn is_some_changing(rounds: usize, reached: bool) -> bool
    ensures { IsTrue result ↔ ((if reached then 1 else 0) < rounds) }
{
    if reached { rounds > 1 } else { rounds > 0 }
}

impl Simplifier {
    pub(crate) fn new(unresolved_mark: Mark, config: Config) -> Simplifier
        ensures told { result.told ≡ told unresolved_mark config.dce }
        ensures most { result.most ≡ config.max_rounds }
        ensures rounds { result.rounds ≡ 0 }
        ensures reached { result.reached ≡ false }
        ensures changed { result.changed ≡ false }
    {
        let max_rounds = config.max_rounds;
        Simplifier {
            passes: Passes::new(unresolved_mark, config),
            max_rounds,
            rounds: 0,
            reached: false,
            changed: false,
        }
    }

    /// Returns the number of rounds of the last run, the one that changed nothing included: 0 before the first run and after an error.
    pub fn rounds(&self) -> usize
        ensures { result ≡ self.now.rounds }
    {
        self.rounds
    }

    /// Returns whether the last round of the last run changed nothing: false before the first run and after an error.
    pub fn reached(&self) -> bool
        ensures { result ≡ self.now.reached }
    {
        self.reached
    }

    /// Returns whether the last run changed more than spans: false before the first run and after an error.
    pub fn changed(&self) -> bool
        ensures { result ≡ self.now.changed }
    {
        self.changed
    }

    /// Runs rounds over a copy of a module and returns the result. Fails if memory runs out; the simplifier can run again after that.
    pub fn run(&mut self, alloc: Global, module: &Module) -> Result<Module, PassError>
        ensures told { self.new.told ≡ self.old.told }
        ensures most { self.new.most ≡ self.old.most }
        ensures simplified { IfOk result (λ r. Simplifies self.old.told self.old.most self.new (module_tree «module».now) (module_tree r)) }
        ensures refused { OnErr result ((self.new.changed ≡ false) × (self.new.reached ≡ false) × (self.new.rounds ≡ 0)) }
        ensures memory { IfErr result (λ e. e ≡ OutOfMemory) }
    {
        self.reset();
        let copy = module.clone()?;
        self.run_whole(alloc, copy)
    }

    /// Runs rounds over a copy of a script and returns the result. Fails if memory runs out; the simplifier can run again after that.
    pub fn run_script(&mut self, alloc: Global, script: &Script) -> Result<Script, PassError>
        ensures told { self.new.told ≡ self.old.told }
        ensures most { self.new.most ≡ self.old.most }
        ensures simplified { IfOk result (λ r. Simplifies self.old.told self.old.most self.new (script_tree script.now) (script_tree r)) }
        ensures refused { OnErr result ((self.new.changed ≡ false) × (self.new.reached ≡ false) × (self.new.rounds ≡ 0)) }
        ensures memory { IfErr result (λ e. e ≡ OutOfMemory) }
    {
        self.reset();
        let copy = script.clone()?;
        self.run_whole(alloc, copy)
    }

    /// Runs rounds over a module and returns the result. Fails if memory runs out; the simplifier can run again after that.
    pub fn fold_module(&mut self, alloc: Global, module: Module) -> Result<Module, PassError>
        ensures told { self.new.told ≡ self.old.told }
        ensures most { self.new.most ≡ self.old.most }
        ensures simplified { IfOk result (λ r. Simplifies self.old.told self.old.most self.new (module_tree «module») (module_tree r)) }
        ensures refused { OnErr result ((self.new.changed ≡ false) × (self.new.reached ≡ false) × (self.new.rounds ≡ 0)) }
        ensures memory { IfErr result (λ e. e ≡ OutOfMemory) }
    {
        self.run_whole(alloc, module)
    }

    /// Runs rounds over a script and returns the result. Fails if memory runs out; the simplifier can run again after that.
    pub fn fold_script(&mut self, alloc: Global, script: Script) -> Result<Script, PassError>
        ensures told { self.new.told ≡ self.old.told }
        ensures most { self.new.most ≡ self.old.most }
        ensures simplified { IfOk result (λ r. Simplifies self.old.told self.old.most self.new (script_tree script) (script_tree r)) }
        ensures refused { OnErr result ((self.new.changed ≡ false) × (self.new.reached ≡ false) × (self.new.rounds ≡ 0)) }
        ensures memory { IfErr result (λ e. e ≡ OutOfMemory) }
    {
        self.run_whole(alloc, script)
    }

    /// Runs rounds over a module or a script, and keeps how many they were and what they told.
    fn run_passes<W: Program>(&mut self, alloc: Global, whole: W) -> Result<W, PassError>
        ensures told { self.new.told ≡ self.old.told }
        ensures most { self.new.most ≡ self.old.most }
        ensures changed { IfOk result (λ r. IsTrue self.new.changed ↔ ((if self.new.reached then 1 else 0) < self.new.rounds)) }
        ensures rounds { IfOk result (λ r. Rounded (round_spec self.old.told) self.old.most (W.tree whole) self.new.rounds self.new.reached (W.tree r)) }
        ensures refused { OnErr result ((self.new.changed ≡ false) × (self.new.reached ≡ false) × (self.new.rounds ≡ 0)) }
        ensures memory { IfErr result (λ e. e ≡ OutOfMemory) }
    {
        self.reset();
        let ran = whole.in_rounds(&mut self.passes, alloc, self.max_rounds)?;
        self.rounds = ran.rounds;
        self.reached = ran.reached;
        self.changed = is_some_changing(ran.rounds, ran.reached);
        Ok(ran.whole)
    }

    /// Runs rounds over a module or a script and returns the result. Fails if memory runs out; the simplifier can run again after that.
    fn run_whole<W: Program>(&mut self, alloc: Global, whole: W) -> Result<W, PassError>
        ensures told { self.new.told ≡ self.old.told }
        ensures most { self.new.most ≡ self.old.most }
        ensures simplified { IfOk result (λ r. Simplifies self.old.told self.old.most self.new (W.tree whole) (W.tree r)) }
        ensures refused { OnErr result ((self.new.changed ≡ false) × (self.new.reached ≡ false) × (self.new.rounds ≡ 0)) }
        ensures memory { IfErr result (λ e. e ≡ OutOfMemory) }
    {
        let answer = self.run_passes(alloc, whole)?;
        Ok(answer)
    }
}

impl Repeated for Simplifier {
    ghost is_changed = { λ s. s.changed };

    ghost rounds_run = { λ s. s.rounds };

    ghost is_reached = { λ s. s.reached };

    ghost resets_to = { λ s r. (r.told ≡ s.told) × (r.most ≡ s.most) };

    fn changed(&self) -> bool {
        self.changed
    }

    fn reset(&mut self) {
        self.rounds = 0;
        self.reached = false;
        self.changed = false;
    }
}

impl Pass for Simplifier {
    ghost Settings = { Told × ℕ };

    ghost settings = { λ s. (s.told, s.most) };

    ghost spec = { λ s. rounds_spec s.0 s.1 };

    fn mark(&self) -> Option<Mark> {
        self.passes.mark()
    }

    fn lowers(&self) -> bool {
        true
    }

    fn rewrite(&mut self, alloc: Global, module: Module) -> Result<Module, PassError> {
        self.fold_module(alloc, module)
    }

    fn rewrite_script(&mut self, alloc: Global, script: Script) -> Result<Script, PassError> {
        self.fold_script(alloc, script)
    }

    ghost reset_keeps = { λ s r h. ap₂ (λ x y. (x, y)) h.0 h.1 };

    ghost lawful = { λ s. rounds_lawful s.told s.most };
}
