//! Rounds of the three passes. Rounds in which nothing but functions and variables of one list goes are done at once.
ghost use Rattle.std.specs.Prelude.{◌≡◌, ◌<◌, ◌≤◌, ◌||◌, false, Some, IfOk, IfErr};
ghost use Rattle.swc_ast.specs.Modules.{script_tree};
ghost use Rattle.swc_ast.specs.Tree.{Tree};
ghost use Rattle.swc_ast.specs.declared.errors.PassError.TheVariants.{OutOfMemory};
ghost use Rattle.swc_pass.specs.Pass.{TellsChange};
ghost use Rattle.swc_pass.specs.Repeat.{Rounds, Rounded};
ghost use Rattle.swc_dce.specs.Configured.{told};
ghost use Rattle.swc_dce.specs.Shaken.{Shaken};
ghost use Rattle.round_units.specs.Trees.{units_tree};
ghost use Rattle.round_proofs.specs.Rested.{AtRest, Rested};
ghost use Rattle.swc_optimization.specs.Simplifier.{round_spec};
ghost use Rattle.swc_optimization.specs.Turns.{Cleared, Turned};

use crate::config::Config;
use round_units::Units;
use std::alloc::Global;
use std::marker::Model;
use swc_ast::{Mark, Module, PassError, Script};
use swc_branch::{Remover, dead_branch_remover};
use swc_dce::{TreeShaker, dce};
use swc_expr::{SimplifyExpr, expr_simplifier};
use swc_pass::{Made, Pass, Repeated, Whole};

/// The passes of a round, made with one mark.
#[derive(Drop)]
pub(crate) struct Passes {
    expressions: SimplifyExpr,
    branches: Remover,
    names: TreeShaker,
}

impl Model for Passes {
    ghost use Rattle.std.specs.Prelude.{◌≡◌};
    ghost use Rattle.swc_dce.specs.Shaken.{Told};

    ghost Value = { Told };

    ghost view = { λ p. ⟦<TreeShaker as Pass>⟧.settings p.names };

    ghost invariant = { λ p. (⟦<SimplifyExpr as Pass>⟧.settings p.expressions ≡ (⟦<TreeShaker as Pass>⟧.settings p.names).mark) × (⟦<Remover as Pass>⟧.settings p.branches ≡ (⟦<TreeShaker as Pass>⟧.settings p.names).mark) };
}

/// What rounds left, and how many they were.
#[derive(Drop)]
pub(crate) struct Left<W> {
    whole: W,
    rounds: usize,
}

/// What rounds made, how many they were, and whether the last one changed nothing.
#[derive(Drop)]
pub(crate) struct Ran<W> {
    pub(crate) whole: W,
    pub(crate) rounds: usize,
    pub(crate) reached: bool,
}

/// The same of a turn of the loop, and how many rounds it ends with in which all but the tree shaker changed nothing.
#[derive(Drop)]
struct Turn<W> {
    ran: Ran<W>,
    quiet: usize,
}

/// What rounds go over: a module as its items, or a script. Of these, modules can have rounds at once.
pub(crate) trait InRounds: Drop {
    ghost tree: { Self → Tree };

    /// What the expression simplifier and then the remover of dead branches make of it.
    fn cleared(
        self,
        expressions: &mut SimplifyExpr,
        branches: &mut Remover,
        alloc: Global,
    ) -> Result<Made<Self>, PassError>
        ensures expressions { ⟦<SimplifyExpr as Pass>⟧.settings expressions.new ≡ ⟦<SimplifyExpr as Pass>⟧.settings expressions.old }
        ensures branches { ⟦<Remover as Pass>⟧.settings branches.new ≡ ⟦<Remover as Pass>⟧.settings branches.old }
        ensures answer { IfOk result (λ r. Cleared (⟦<SimplifyExpr as Pass>⟧.settings expressions.old) (⟦<Remover as Pass>⟧.settings branches.old) (tree self) (tree r.whole)) }
        ensures changed { IfOk result (λ r. TellsChange r.changed (tree self) (tree r.whole)) }
        ensures memory { IfErr result (λ e. e ≡ OutOfMemory) };

    /// What the tree shaker makes of it.
    fn shaken(self, pass: &mut TreeShaker, alloc: Global) -> Result<Made<Self>, PassError>
        ensures settings { ⟦<TreeShaker as Pass>⟧.settings pass.new ≡ ⟦<TreeShaker as Pass>⟧.settings pass.old }
        ensures answer { IfOk result (λ r. Shaken (⟦<TreeShaker as Pass>⟧.settings pass.old) (tree self) (tree r.whole)) }
        ensures changed { IfOk result (λ r. TellsChange r.changed (tree self) (tree r.whole)) }
        ensures memory { IfErr result (λ e. e ≡ OutOfMemory) };

    /// What rounds leave in which nothing but functions and variables of one list of a module goes: so many at most, and maybe none.
    fn peeled(self, names: &TreeShaker, alloc: Global, most: usize) -> Result<Left<Self>, PassError>
        requires { AtRest (⟦<TreeShaker as Pass>⟧.settings names.now) (tree self) }
        ensures within { IfOk result (λ r. r.rounds ≤ most) }
        ensures rounds { IfOk result (λ r. Rounds (Rested (⟦<TreeShaker as Pass>⟧.settings names.now)) (tree self) r.rounds false (tree r.whole)) }
        ensures rests { IfOk result (λ r. AtRest (⟦<TreeShaker as Pass>⟧.settings names.now) (tree r.whole)) }
        ensures memory { IfErr result (λ e. e ≡ OutOfMemory) };
}

impl InRounds for Units {
    ghost tree = { units_tree };

    fn cleared(
        self,
        expressions: &mut SimplifyExpr,
        branches: &mut Remover,
        alloc: Global,
    ) -> Result<Made<Units>, PassError> {
        let simplifying = expressions.rules(alloc);
        let removing = branches.rules(alloc);
        let made = self.clear(&simplifying, &removing)?;
        Ok(made)
    }

    fn shaken(self, pass: &mut TreeShaker, alloc: Global) -> Result<Made<Units>, PassError> {
        self.shake(alloc, pass)
    }

    fn peeled(
        self,
        names: &TreeShaker,
        alloc: Global,
        most: usize,
    ) -> Result<Left<Units>, PassError> {
        let module = self.into_module(alloc)?;
        let peeled = names.peel(alloc, module, most)?;
        let whole = Units::of(alloc, peeled.module)?;
        Ok(Left {
            whole,
            rounds: peeled.rounds,
        })
    }
}

/// What a pass makes of a module or a script.
fn made_by<P: Pass, W: Whole>(pass: &mut P, alloc: Global, whole: W) -> Result<Made<W>, PassError>
    ensures settings { P.settings pass.new ≡ P.settings pass.old }
    ensures answer { IfOk result (λ r. (P.spec (P.settings pass.old)).answers (W.tree whole) (W.tree r.whole)) }
    ensures changed { IfOk result (λ r. TellsChange r.changed (W.tree whole) (W.tree r.whole)) }
    ensures memory { IfErr result (λ e. e ≡ OutOfMemory) }
{
    let whole = whole.rewritten(pass, alloc)?;
    let changed = pass.changed();
    Ok(Made { whole, changed })
}

impl InRounds for Script {
    ghost tree = { script_tree };

    fn cleared(
        self,
        expressions: &mut SimplifyExpr,
        branches: &mut Remover,
        alloc: Global,
    ) -> Result<Made<Script>, PassError> {
        let simplified = made_by(expressions, alloc, self)?;
        let removed = made_by(branches, alloc, simplified.whole)?;
        let changed = either(simplified.changed, removed.changed);
        Ok(Made {
            whole: removed.whole,
            changed,
        })
    }

    fn shaken(self, pass: &mut TreeShaker, alloc: Global) -> Result<Made<Script>, PassError> {
        made_by(pass, alloc, self)
    }

    fn peeled(
        self,
        _names: &TreeShaker,
        _alloc: Global,
        _most: usize,
    ) -> Result<Left<Script>, PassError> {
        Ok(Left {
            whole: self,
            rounds: 0,
        })
    }
}

/// A module or a script.
pub(crate) trait Program: Whole {
    /// Runs rounds of the passes over it, so many at most.
    fn in_rounds(
        self,
        passes: &mut Passes,
        alloc: Global,
        max_rounds: usize,
    ) -> Result<Ran<Self>, PassError>
        ensures told { passes.new ≡ passes.old }
        ensures rounds { IfOk result (λ r. Rounded (round_spec passes.old) max_rounds (Self.tree self) r.rounds r.reached (Self.tree r.whole)) }
        ensures memory { IfErr result (λ e. e ≡ OutOfMemory) };
}

impl Program for Module {
    fn in_rounds(
        self,
        passes: &mut Passes,
        alloc: Global,
        max_rounds: usize,
    ) -> Result<Ran<Module>, PassError> {
        let units = Units::of(alloc, self)?;
        let ran = run_rounds(passes, alloc, max_rounds, units)?;
        let whole = ran.whole.into_module(alloc)?;
        Ok(Ran {
            whole,
            rounds: ran.rounds,
            reached: ran.reached,
        })
    }
}

impl Program for Script {
    fn in_rounds(
        self,
        passes: &mut Passes,
        alloc: Global,
        max_rounds: usize,
    ) -> Result<Ran<Script>, PassError> {
        run_rounds(passes, alloc, max_rounds, self)
    }
}

fn either(first: bool, second: bool) -> bool
    ensures { result ≡ (first || second) }
{
    first || second
}

impl Passes {
    /// The passes as they are told by a configuration.
    pub(crate) fn new(unresolved_mark: Mark, config: Config) -> Passes
        ensures { result ≡ told unresolved_mark config.dce }
    {
        Passes {
            expressions: expr_simplifier(unresolved_mark, config.expr),
            branches: dead_branch_remover(unresolved_mark),
            names: dce(config.dce, unresolved_mark),
        }
    }

    /// The mark of all of them.
    pub(crate) fn mark(&self) -> Option<Mark>
        ensures { result ≡ Some self.now.mark }
    {
        self.names.mark()
    }

    /// What the expression simplifier and then the remover make of it.
    fn clear<W: InRounds>(&mut self, alloc: Global, whole: W) -> Result<Made<W>, PassError>
        ensures told { self.new ≡ self.old }
        ensures answer { IfOk result (λ r. Cleared self.old.mark self.old.mark (W.tree whole) (W.tree r.whole)) }
        ensures changed { IfOk result (λ r. TellsChange r.changed (W.tree whole) (W.tree r.whole)) }
        ensures memory { IfErr result (λ e. e ≡ OutOfMemory) }
    {
        whole.cleared(&mut self.expressions, &mut self.branches, alloc)
    }

    /// What the tree shaker makes of it.
    fn shake<W: InRounds>(&mut self, alloc: Global, whole: W) -> Result<Made<W>, PassError>
        ensures told { self.new ≡ self.old }
        ensures answer { IfOk result (λ r. Shaken self.old (W.tree whole) (W.tree r.whole)) }
        ensures changed { IfOk result (λ r. TellsChange r.changed (W.tree whole) (W.tree r.whole)) }
        ensures memory { IfErr result (λ e. e ≡ OutOfMemory) }
    {
        whole.shaken(&mut self.names, alloc)
    }

    /// Rounds of what the other passes leave as it is: those that can be done at once, and then one of the tree shaker.
    fn shake_at_rest<W: InRounds>(
        &mut self,
        alloc: Global,
        most: usize,
        whole: W,
    ) -> Result<Ran<W>, PassError>
        requires some { 0 < most }
        requires rests { AtRest self.old (W.tree whole) }
        ensures told { self.new ≡ self.old }
        ensures turned { IfOk result (λ r. Turned self.old most (W.tree whole) r.rounds r.reached (W.tree r.whole)) }
        ensures memory { IfErr result (λ e. e ≡ OutOfMemory) }
    {
        let left = whole.peeled(&self.names, alloc, most)?;
        if left.rounds == most {
            return Ok(Ran {
                whole: left.whole,
                rounds: most,
                reached: false,
            });
        }
        let shaken = self.shake(alloc, left.whole)?;
        Ok(Ran {
            whole: shaken.whole,
            rounds: left.rounds + 1,
            reached: !shaken.changed,
        })
    }

    /// A round, or several: behind two rounds in which all but the tree shaker changed nothing, those that can be done at once.
    fn turn<W: InRounds>(
        &mut self,
        alloc: Global,
        most: usize,
        quiet: usize,
        whole: W,
    ) -> Result<Turn<W>, PassError>
        requires { 0 < most }
        ensures told { self.new ≡ self.old }
        ensures turned { IfOk result (λ r. Turned self.old most (W.tree whole) r.ran.rounds r.ran.reached (W.tree r.ran.whole)) }
        ensures memory { IfErr result (λ e. e ≡ OutOfMemory) }
    {
        let made = self.clear(alloc, whole)?;
        if quiet > 1 && !made.changed {
            let ran = self.shake_at_rest(alloc, most, made.whole)?;
            return Ok(Turn { ran, quiet });
        }
        let shaken = self.shake(alloc, made.whole)?;
        let changed = either(made.changed, shaken.changed);
        let ran = Ran {
            whole: shaken.whole,
            rounds: 1,
            reached: !changed,
        };
        let quiet = if made.changed {
            0
        } else {
            quiet.saturating_add(1)
        };
        Ok(Turn { ran, quiet })
    }
}

/// Rounds of the passes, until one of them changes nothing or there are so many.
pub(crate) fn run_rounds<W: InRounds>(
    passes: &mut Passes,
    alloc: Global,
    max_rounds: usize,
    whole: W,
) -> Result<Ran<W>, PassError>
    ensures told { passes.new ≡ passes.old }
    ensures rounds { IfOk result (λ r. Rounded (round_spec passes.old) max_rounds (W.tree whole) r.rounds r.reached (W.tree r.whole)) }
    ensures memory { IfErr result (λ e. e ≡ OutOfMemory) }
{
    let mut whole = whole;
    let mut quiet = 0;
    let mut done = 0;
    while done < max_rounds {
        let turn = passes.turn(alloc, max_rounds - done, quiet, whole)?;
        let ran = turn.ran;
        quiet = turn.quiet;
        whole = ran.whole;
        done += ran.rounds;
        if ran.reached {
            return Ok(Ran {
                whole,
                rounds: done,
                reached: true,
            });
        }
    }
    Ok(Ran {
        whole,
        rounds: done,
        reached: false,
    })
}
