//! Modules and scripts alike.
ghost use Rattle.swc_pass.specs.Chain.{GivesBack};
ghost use Rattle.std.specs.Prelude.{◌≡◌, ◌↔◌, false, IfOk, IfErr, IsTrue, OnErr};
ghost use Rattle.swc_ast.specs.Modules.{module_tree, script_tree};
ghost use Rattle.swc_ast.specs.Tree.{Tree};
ghost use Rattle.swc_ast.specs.declared.errors.PassError.TheVariants.{OutOfMemory};
ghost use Rattle.swc_pass.specs.Pass.{SameBare, TellsChange, NothingTold};

use crate::pass::Pass;
use std::alloc::{AllocError, Global};
use swc_ast::{EqIgnoreSpan, Module, PassError, Script};

/// A program that a pass rewrites: a module or a script.
pub trait Whole: Drop {
    ghost tree: { Self → Tree };

    /// Returns a copy, spans included. Fails if memory runs out.
    fn copy(&self) -> Result<Self, AllocError>
        ensures { IfOk result (λ r. tree r ≡ tree self.now) };

    /// Returns whether the two are equal up to spans.
    fn is_same(&self, other: &Self) -> bool
        ensures { IsTrue result ↔ SameBare (tree other.now) (tree self.now) };

    /// Returns the result of a pass over it.
    fn rewritten<P: Pass>(self, pass: &mut P, alloc: Global) -> Result<Self, PassError>
        ensures settings { P.settings pass.new ≡ P.settings pass.old }
        ensures answer { IfOk result (λ r. (P.spec (P.settings pass.old)).answers (tree self) (tree r)) }
        ensures changed { IfOk result (λ r. TellsChange (P.is_changed pass.new) (tree self) (tree r)) }
        ensures refused { OnErr result (NothingTold (P.is_changed pass.new) (P.is_reached pass.new) (P.rounds_run pass.new)) }
        ensures memory { IfErr result (λ e. e ≡ OutOfMemory) };
}

impl Whole for Module {
    ghost tree = { module_tree };

    fn copy(&self) -> Result<Module, AllocError> {
        self.clone()
    }

    fn is_same(&self, other: &Module) -> bool {
        self.eq_ignore_span(other)
    }

    fn rewritten<P: Pass>(self, pass: &mut P, alloc: Global) -> Result<Module, PassError> {
        pass.rewrite(alloc, self)
    }
}

impl Whole for Script {
    ghost tree = { script_tree };

    fn copy(&self) -> Result<Script, AllocError> {
        self.clone()
    }

    fn is_same(&self, other: &Script) -> bool {
        self.eq_ignore_span(other)
    }

    fn rewritten<P: Pass>(self, pass: &mut P, alloc: Global) -> Result<Script, PassError> {
        pass.rewrite_script(alloc, self)
    }
}

/// The result of a run, and whether it differs from the run's input.
#[derive(Drop)]
pub struct Made<W> {
    pub whole: W,
    pub changed: bool,
}

/// Returns the result, or the input where they are equal up to spans.
pub fn settle<W: Whole>(input: W, answer: W) -> Made<W>
    ensures gives { GivesBack (W.tree input) (W.tree answer) (W.tree result.whole) }
    ensures changed { TellsChange result.changed (W.tree input) (W.tree result.whole) }
{
    if answer.is_same(&input) {
        Made {
            whole: input,
            changed: false,
        }
    } else {
        Made {
            whole: answer,
            changed: true,
        }
    }
}
