//! Two passes, one after the other.
ghost use Rattle.std.specs.Prelude.{◌≡◌, ◌||◌, false, IfOk, IfErr};
ghost use Rattle.swc_ast.specs.declared.errors.PassError.TheVariants.{OutOfMemory};
ghost use Rattle.swc_pass.specs.Pass.{TellsChange};
ghost use Rattle.std.proofs.Common.{ap₂};
ghost use Rattle.swc_pass.specs.ChainLaws.{chained_lawful};
ghost use Rattle.swc_pass.specs.Chain.{MarksAgree, Chained, InRow, chained};

use crate::pass::{Pass, Repeated};
use crate::whole::{Made, Whole, settle};
use std::alloc::Global;
use swc_ast::{Mark, Module, PassError, Script};

/// Two passes, one after the other. Where the result equals the input up to spans, the input is returned.
#[derive(Drop)]
pub struct Chain<A: Pass, B: Pass> {
    first: A,
    second: B,
    changed: bool,
    pub ghost agree: { MarksAgree (A.spec (A.settings first)).mark (B.spec (B.settings second)).mark },
}

impl<A: Pass, B: Pass> Chain<A, B> {
    /// Returns the two passes in this order. They have no different marks.
    pub fn new(first: A, second: B) -> Chain<A, B>
        requires { MarksAgree (A.spec (A.settings first)).mark (B.spec (B.settings second)).mark }
        ensures settings { ⟦<Chain<A, B> as Pass>⟧.settings result ≡ (A.settings first, B.settings second) }
        ensures changed { ⟦<Chain<A, B> as Repeated>⟧.is_changed result ≡ false }
    {
        Chain {
            first,
            second,
            changed: false,
        }
    }
}

impl<A: Pass, B: Pass> Repeated for Chain<A, B> {
    ghost is_changed = { λ c. c.changed };

    ghost resets_to = { λ c d. (A.settings d.first ≡ A.settings c.first) × (B.settings d.second ≡ B.settings c.second) };

    fn changed(&self) -> bool {
        self.changed
    }

    fn reset(&mut self) {
        self.changed = false;
    }
}

fn is_either_changed<A: Repeated, B: Repeated>(first: &A, second: &B) -> bool
    ensures { result ≡ (A.is_changed first.now || B.is_changed second.now) }
{
    first.changed() || second.changed()
}

/// One pass, and then the other on what it answered.
fn run_in_row<A: Pass, B: Pass, W: Whole>(
    first: &mut A,
    second: &mut B,
    alloc: Global,
    whole: W,
) -> Result<W, PassError>
    ensures first { A.settings first.new ≡ A.settings first.old }
    ensures second { B.settings second.new ≡ B.settings second.old }
    ensures answer { IfOk result (λ r. InRow (A.spec (A.settings first.old)) (B.spec (B.settings second.old)) (A.is_changed first.new) (B.is_changed second.new) (W.tree whole) (W.tree r)) }
    ensures memory { IfErr result (λ e. e ≡ OutOfMemory) }
{
    let between = whole.rewritten(first, alloc)?;
    between.rewritten(second, alloc)
}

/// One pass, and then the other on what it answered: the input, where that is the same up to spans.
fn run_chain<A: Pass, B: Pass, W: Whole>(
    first: &mut A,
    second: &mut B,
    alloc: Global,
    whole: W,
) -> Result<Made<W>, PassError>
    ensures first { A.settings first.new ≡ A.settings first.old }
    ensures second { B.settings second.new ≡ B.settings second.old }
    ensures answer { IfOk result (λ r. Chained (A.spec (A.settings first.old)) (B.spec (B.settings second.old)) (W.tree whole) (W.tree r.whole)) }
    ensures changed { IfOk result (λ r. TellsChange r.changed (W.tree whole) (W.tree r.whole)) }
    ensures memory { IfErr result (λ e. e ≡ OutOfMemory) }
{
    if first.lowers() && second.lowers() {
        let whole = run_in_row(first, second, alloc, whole)?;
        let changed = is_either_changed(first, second);
        return Ok(Made { whole, changed });
    }
    let input = whole.copy()?;
    let answer = run_in_row(first, second, alloc, whole)?;
    Ok(settle(input, answer))
}

impl<A: Pass, B: Pass> Pass for Chain<A, B> {
    ghost Settings = { A.Settings × B.Settings };

    ghost settings = { λ c. (A.settings c.first, B.settings c.second) };

    ghost spec = { λ s. chained (A.spec s.0) (B.spec s.1) };

    fn mark(&self) -> Option<Mark> {
        self.first.mark().or(self.second.mark())
    }

    fn lowers(&self) -> bool {
        self.first.lowers() && self.second.lowers()
    }

    fn rewrite(&mut self, alloc: Global, module: Module) -> Result<Module, PassError> {
        self.changed = false;
        let made = run_chain(&mut self.first, &mut self.second, alloc, module)?;
        self.changed = made.changed;
        Ok(made.whole)
    }

    fn rewrite_script(&mut self, alloc: Global, script: Script) -> Result<Script, PassError> {
        self.changed = false;
        let made = run_chain(&mut self.first, &mut self.second, alloc, script)?;
        self.changed = made.changed;
        Ok(made.whole)
    }

    ghost reset_keeps = { λ p q h. ap₂ (λ x y. (x, y)) h.0 h.1 };

    ghost lawful = { λ p. chained_lawful p.agree (A.lawful p.first) (B.lawful p.second) };
}
