//! A pass that runs until it changes nothing.
ghost use Rattle.std.specs.Prelude.{◌≡◌, ◌<◌, ◌+◌, ◌↔◌, ℕ, true, false, if◌then◌else◌, IfOk, IfErr, IsTrue, OnErr};
ghost use Rattle.swc_ast.specs.Modules.{module_tree, script_tree};
ghost use Rattle.swc_ast.specs.declared.errors.PassError.TheVariants.{OutOfMemory};
ghost use Rattle.std.proofs.Common.{ap₂};
ghost use Rattle.swc_pass.specs.Pass.{TellsChange, Folds, NothingTold};
ghost use Rattle.swc_pass.specs.Repeat.{Rounded, Repeats, FoldsAgain, repeated};
ghost use Rattle.swc_pass.specs.RepeatLaws.{repeated_lawful};

use crate::pass::{Pass, Repeated};
use crate::whole::{Made, Whole, settle};
use std::alloc::Global;
use swc_ast::{Mark, Module, PassError, Script};

/// A pass that runs again and again until a round changes nothing or a limit is reached. Where the result equals the input
/// up to spans, the input is returned.
#[derive(Drop)]
pub struct Repeat<P: Pass> {
    pass: P,
    max_rounds: usize,
    rounds: usize,
    reached: bool,
    changed: bool,
}

/// What rounds made, how many they were, and whether the last one changed nothing.
#[derive(Drop)]
struct Ran<W> {
    whole: W,
    rounds: usize,
    reached: bool,
}

/// What a run made.
#[derive(Drop)]
struct Run<W> {
    made: Made<W>,
    rounds: usize,
    reached: bool,
}

fn run_rounds<P: Pass, W: Whole>(
    pass: &mut P,
    alloc: Global,
    max_rounds: usize,
    whole: W,
) -> Result<Ran<W>, PassError>
    ensures settings { P.settings pass.new ≡ P.settings pass.old }
    ensures rounds { IfOk result (λ r. Rounded (P.spec (P.settings pass.old)) max_rounds (W.tree whole) r.rounds r.reached (W.tree r.whole)) }
    ensures memory { IfErr result (λ e. e ≡ OutOfMemory) }
{
    let mut whole = whole;
    for done in 0..max_rounds {
        whole = whole.rewritten(pass, alloc)?;
        if !pass.changed() {
            return Ok(Ran {
                whole,
                rounds: done + 1,
                reached: true,
            });
        }
    }
    Ok(Ran {
        whole,
        rounds: max_rounds,
        reached: false,
    })
}

/// Whether one of the rounds changed something.
fn is_some_changing(rounds: usize, reached: bool) -> bool
    ensures { IsTrue result ↔ ((if reached then 1 else 0) < rounds) }
{
    if reached { rounds > 1 } else { rounds > 0 }
}

fn run_repeat<P: Pass, W: Whole>(
    pass: &mut P,
    alloc: Global,
    max_rounds: usize,
    whole: W,
) -> Result<Run<W>, PassError>
    ensures settings { P.settings pass.new ≡ P.settings pass.old }
    ensures rounds { IfOk result (λ r. Repeats (P.spec (P.settings pass.old)) max_rounds (W.tree whole) r.rounds r.reached (W.tree r.made.whole)) }
    ensures changed { IfOk result (λ r. TellsChange r.made.changed (W.tree whole) (W.tree r.made.whole)) }
    ensures memory { IfErr result (λ e. e ≡ OutOfMemory) }
{
    if pass.lowers() {
        let ran = run_rounds(pass, alloc, max_rounds, whole)?;
        let changed = is_some_changing(ran.rounds, ran.reached);
        let made = Made {
            whole: ran.whole,
            changed,
        };
        return Ok(Run {
            made,
            rounds: ran.rounds,
            reached: ran.reached,
        });
    }
    let input = whole.copy()?;
    let ran = run_rounds(pass, alloc, max_rounds, whole)?;
    let made = settle(input, ran.whole);
    Ok(Run {
        made,
        rounds: ran.rounds,
        reached: ran.reached,
    })
}

impl<P: Pass> Repeat<P> {
    /// Returns a pass that runs at most `max_rounds` times. With 0 it returns its input.
    pub fn new(pass: P, max_rounds: usize) -> Repeat<P>
        ensures settings { ⟦<Repeat<P> as Pass>⟧.settings result ≡ (P.settings pass, max_rounds) }
        ensures changed { ⟦<Repeat<P> as Repeated>⟧.is_changed result ≡ false }
        ensures reached { ⟦<Repeat<P> as Repeated>⟧.is_reached result ≡ false }
        ensures rounds { ⟦<Repeat<P> as Repeated>⟧.rounds_run result ≡ 0 }
    {
        Repeat {
            pass,
            max_rounds,
            rounds: 0,
            reached: false,
            changed: false,
        }
    }

    /// Returns the number of rounds of the last run, the one that changed nothing included.
    pub fn rounds(&self) -> usize
        ensures { result ≡ ⟦<Repeat<P> as Repeated>⟧.rounds_run self.now }
    {
        self.rounds
    }

    /// Returns whether the last round of the last run changed nothing.
    pub fn reached(&self) -> bool
        ensures { result ≡ ⟦<Repeat<P> as Repeated>⟧.is_reached self.now }
    {
        self.reached
    }

    fn run_whole<W: Whole>(&mut self, alloc: Global, whole: W) -> Result<W, PassError>
        ensures settings { ⟦<Repeat<P> as Pass>⟧.settings self.new ≡ ⟦<Repeat<P> as Pass>⟧.settings self.old }
        ensures answer { IfOk result (λ r. (⟦<Repeat<P> as Pass>⟧.spec (⟦<Repeat<P> as Pass>⟧.settings self.old)).answers (W.tree whole) (W.tree r)) }
        ensures changed { IfOk result (λ r. TellsChange (⟦<Repeat<P> as Repeated>⟧.is_changed self.new) (W.tree whole) (W.tree r)) }
        ensures rounds { IfOk result (λ r. FoldsAgain (P.spec (⟦<Repeat<P> as Pass>⟧.settings self.old).0) (⟦<Repeat<P> as Pass>⟧.settings self.old).1 (W.tree whole) (⟦<Repeat<P> as Repeated>⟧.rounds_run self.new) (⟦<Repeat<P> as Repeated>⟧.is_reached self.new) (W.tree r)) }
        ensures refused { OnErr result (NothingTold (⟦<Repeat<P> as Repeated>⟧.is_changed self.new) (⟦<Repeat<P> as Repeated>⟧.is_reached self.new) (⟦<Repeat<P> as Repeated>⟧.rounds_run self.new)) }
        ensures memory { IfErr result (λ e. e ≡ OutOfMemory) }
    {
        self.rounds = 0;
        self.reached = false;
        self.changed = false;
        let run = run_repeat(&mut self.pass, alloc, self.max_rounds, whole)?;
        self.rounds = run.rounds;
        self.reached = run.reached;
        self.changed = run.made.changed;
        Ok(run.made.whole)
    }
}

impl<P: Pass> Repeated for Repeat<P> {
    ghost is_changed = { λ r. r.changed };

    ghost rounds_run = { λ r. r.rounds };

    ghost is_reached = { λ r. r.reached };

    ghost resets_to = { λ r s. (P.settings s.pass ≡ P.settings r.pass) × (s.max_rounds ≡ r.max_rounds) };

    fn changed(&self) -> bool {
        self.changed
    }

    fn reset(&mut self) {
        self.rounds = 0;
        self.reached = false;
        self.changed = false;
    }
}

impl<P: Pass> Pass for Repeat<P> {
    ghost Settings = { P.Settings × ℕ };

    ghost settings = { λ r. (P.settings r.pass, r.max_rounds) };

    ghost spec = { λ s. repeated (P.spec s.0) s.1 };

    fn mark(&self) -> Option<Mark> {
        self.pass.mark()
    }

    fn lowers(&self) -> bool {
        self.pass.lowers()
    }

    fn rewrite(&mut self, alloc: Global, module: Module) -> Result<Module, PassError>
        ensures settings { ⟦<Repeat<P> as Pass>⟧.settings self.new ≡ ⟦<Repeat<P> as Pass>⟧.settings self.old }
        ensures answer { IfOk result (λ r. (⟦<Repeat<P> as Pass>⟧.spec (⟦<Repeat<P> as Pass>⟧.settings self.old)).answers (module_tree «module») (module_tree r)) }
        ensures changed { IfOk result (λ r. TellsChange (⟦<Repeat<P> as Repeated>⟧.is_changed self.new) (module_tree «module») (module_tree r)) }
        ensures rounds { IfOk result (λ r. FoldsAgain (P.spec (⟦<Repeat<P> as Pass>⟧.settings self.old).0) (⟦<Repeat<P> as Pass>⟧.settings self.old).1 (module_tree «module») (⟦<Repeat<P> as Repeated>⟧.rounds_run self.new) (⟦<Repeat<P> as Repeated>⟧.is_reached self.new) (module_tree r)) }
        ensures refused { OnErr result (NothingTold (⟦<Repeat<P> as Repeated>⟧.is_changed self.new) (⟦<Repeat<P> as Repeated>⟧.is_reached self.new) (⟦<Repeat<P> as Repeated>⟧.rounds_run self.new)) }
        ensures memory { IfErr result (λ e. e ≡ OutOfMemory) }
    {
        self.run_whole(alloc, module)
    }

    fn rewrite_script(&mut self, alloc: Global, script: Script) -> Result<Script, PassError>
        ensures settings { ⟦<Repeat<P> as Pass>⟧.settings self.new ≡ ⟦<Repeat<P> as Pass>⟧.settings self.old }
        ensures answer { IfOk result (λ r. (⟦<Repeat<P> as Pass>⟧.spec (⟦<Repeat<P> as Pass>⟧.settings self.old)).answers (script_tree script) (script_tree r)) }
        ensures changed { IfOk result (λ r. TellsChange (⟦<Repeat<P> as Repeated>⟧.is_changed self.new) (script_tree script) (script_tree r)) }
        ensures rounds { IfOk result (λ r. FoldsAgain (P.spec (⟦<Repeat<P> as Pass>⟧.settings self.old).0) (⟦<Repeat<P> as Pass>⟧.settings self.old).1 (script_tree script) (⟦<Repeat<P> as Repeated>⟧.rounds_run self.new) (⟦<Repeat<P> as Repeated>⟧.is_reached self.new) (script_tree r)) }
        ensures refused { OnErr result (NothingTold (⟦<Repeat<P> as Repeated>⟧.is_changed self.new) (⟦<Repeat<P> as Repeated>⟧.is_reached self.new) (⟦<Repeat<P> as Repeated>⟧.rounds_run self.new)) }
        ensures memory { IfErr result (λ e. e ≡ OutOfMemory) }
    {
        self.run_whole(alloc, script)
    }

    fn run(&mut self, alloc: Global, module: &Module) -> Result<Module, PassError>
        ensures settings { ⟦<Repeat<P> as Pass>⟧.settings self.new ≡ ⟦<Repeat<P> as Pass>⟧.settings self.old }
        ensures folded { IfOk result (λ r. Folds (⟦<Repeat<P> as Pass>⟧.spec (⟦<Repeat<P> as Pass>⟧.settings self.old)) (⟦<Repeat<P> as Repeated>⟧.is_changed self.new) (module_tree «module».now) (module_tree r)) }
        ensures rounds { IfOk result (λ r. FoldsAgain (P.spec (⟦<Repeat<P> as Pass>⟧.settings self.old).0) (⟦<Repeat<P> as Pass>⟧.settings self.old).1 (module_tree «module».now) (⟦<Repeat<P> as Repeated>⟧.rounds_run self.new) (⟦<Repeat<P> as Repeated>⟧.is_reached self.new) (module_tree r)) }
        ensures refused { OnErr result (NothingTold (⟦<Repeat<P> as Repeated>⟧.is_changed self.new) (⟦<Repeat<P> as Repeated>⟧.is_reached self.new) (⟦<Repeat<P> as Repeated>⟧.rounds_run self.new)) }
        ensures memory { IfErr result (λ e. e ≡ OutOfMemory) }
    {
        self.rounds = 0;
        self.reached = false;
        self.changed = false;
        let copy = module.clone()?;
        self.rewrite(alloc, copy)
    }

    fn run_script(&mut self, alloc: Global, script: &Script) -> Result<Script, PassError>
        ensures settings { ⟦<Repeat<P> as Pass>⟧.settings self.new ≡ ⟦<Repeat<P> as Pass>⟧.settings self.old }
        ensures folded { IfOk result (λ r. Folds (⟦<Repeat<P> as Pass>⟧.spec (⟦<Repeat<P> as Pass>⟧.settings self.old)) (⟦<Repeat<P> as Repeated>⟧.is_changed self.new) (script_tree script.now) (script_tree r)) }
        ensures rounds { IfOk result (λ r. FoldsAgain (P.spec (⟦<Repeat<P> as Pass>⟧.settings self.old).0) (⟦<Repeat<P> as Pass>⟧.settings self.old).1 (script_tree script.now) (⟦<Repeat<P> as Repeated>⟧.rounds_run self.new) (⟦<Repeat<P> as Repeated>⟧.is_reached self.new) (script_tree r)) }
        ensures refused { OnErr result (NothingTold (⟦<Repeat<P> as Repeated>⟧.is_changed self.new) (⟦<Repeat<P> as Repeated>⟧.is_reached self.new) (⟦<Repeat<P> as Repeated>⟧.rounds_run self.new)) }
        ensures memory { IfErr result (λ e. e ≡ OutOfMemory) }
    {
        self.rounds = 0;
        self.reached = false;
        self.changed = false;
        let copy = script.clone()?;
        self.rewrite_script(alloc, copy)
    }

    ghost reset_keeps = { λ r s h. ap₂ (λ x y. (x, y)) h.0 h.1 };

    ghost lawful = { λ r. repeated_lawful (P.lawful r.pass) r.max_rounds };
}
