//! Two passes that undo one another, and one that refuses.
ghost use Rattle.std.specs.Prelude.{◌≡◌, Bool, true, false, IfOk, ⊤};
ghost use Rattle.swc_ast.specs.Modules.{item_tree, module_tree};
ghost use Rattle.tests.specs.Turns.{break_tree, empty_tree, long_tree, short_tree, turns, leaves};
ghost use Rattle.std.proofs.Common.{rules};
ghost use Rattle.tests.specs.TurnsLaws.{turns_lawful, leaves_lawful};

use std::alloc::{AllocError, Global};
use swc_ast::{
    BreakStmt, EmptyStmt, EqIgnoreSpan, Mark, Module, ModuleItem, PassError, Script, Span, Stmt,
};
use swc_pass::{Pass, Repeated};

#[tactic(auto, using(swc_ast::proofs::Equations::forms))]
fn break_item() -> ModuleItem
    ensures { item_tree result ≡ break_tree }
{
    ModuleItem::Stmt(Stmt::Break(BreakStmt {
        span: Span { lo: 0, hi: 0 },
        label: None,
    }))
}

#[tactic(auto, using(swc_ast::proofs::Equations::forms))]
fn empty_item() -> ModuleItem
    ensures { item_tree result ≡ empty_tree }
{
    ModuleItem::Stmt(Stmt::Empty(EmptyStmt {
        span: Span { lo: 0, hi: 0 },
    }))
}

/// `break; ;`
pub fn long_module(alloc: Global) -> Result<Module, AllocError>
    ensures { IfOk result (λ m. module_tree m ≡ long_tree) }
{
    let mut body = Vec::new(alloc);
    body.push(break_item())?;
    body.push(empty_item())?;
    Ok(Module {
        span: Span { lo: 0, hi: 0 },
        body,
    })
}

/// `break;`
pub fn short_module(alloc: Global) -> Result<Module, AllocError>
    ensures { IfOk result (λ m. module_tree m ≡ short_tree) }
{
    let mut body = Vec::new(alloc);
    body.push(break_item())?;
    Ok(Module {
        span: Span { lo: 0, hi: 0 },
        body,
    })
}

/// Turns `break; ;` into `break;` where it folds, and back where it does not.
#[derive(Drop)]
pub struct Turn {
    folds: bool,
    changed: bool,
}

impl Turn {
    /// The pass that folds, or the one that turns back.
    pub fn new(folds: bool) -> Turn
        ensures { ⟦<Turn as Pass>⟧.settings result ≡ folds }
    {
        Turn {
            folds,
            changed: false,
        }
    }
}

impl Repeated for Turn {
    ghost is_changed = { λ p. p.changed };

    ghost resets_to = { λ p q. q.folds ≡ p.folds };

    fn changed(&self) -> bool {
        self.changed
    }

    fn reset(&mut self) {
        self.changed = false;
    }
}

impl Pass for Turn {
    ghost Settings = { Bool };

    ghost settings = { λ p. p.folds };

    ghost spec = { turns };

    fn mark(&self) -> Option<Mark> {
        None
    }

    fn lowers(&self) -> bool {
        self.folds
    }

    fn rewrite(&mut self, alloc: Global, module: Module) -> Result<Module, PassError> {
        self.changed = false;
        let long = long_module(alloc)?;
        let short = short_module(alloc)?;
        if self.folds {
            if module.eq_ignore_span(&long) {
                self.changed = true;
                return Ok(short);
            }
        } else if module.eq_ignore_span(&short) {
            self.changed = true;
            return Ok(long);
        }
        Ok(module)
    }

    fn rewrite_script(&mut self, _alloc: Global, script: Script) -> Result<Script, PassError> {
        self.changed = false;
        Ok(script)
    }

    ghost reset_keeps = { λ p q h. h };

    ghost lawful = { λ p. turns_lawful p.folds };
}

/// Refuses so many runs, and then answers what it is given.
#[derive(Drop)]
pub struct Refuse {
    times: usize,
}

impl Refuse {
    /// The pass that refuses so many runs.
    pub fn new(times: usize) -> Refuse {
        Refuse { times }
    }

    fn is_refused(&mut self) -> bool {
        let refuses = self.times > 0;
        if refuses {
            self.times = self.times - 1;
        }
        refuses
    }
}

impl Repeated for Refuse {
    ghost is_changed = { λ p. false };

    ghost resets_to = { λ p q. ⊤ };

    fn changed(&self) -> bool {
        false
    }

    fn reset(&mut self) {}
}

impl Pass for Refuse {
    ghost Settings = { ⊤ };

    ghost settings = { λ p. tt };

    ghost spec = { λ s. leaves };

    fn mark(&self) -> Option<Mark> {
        None
    }

    fn lowers(&self) -> bool {
        true
    }

    fn rewrite(&mut self, _alloc: Global, module: Module) -> Result<Module, PassError> {
        if self.is_refused() {
            return Err(PassError::OutOfMemory);
        }
        Ok(module)
    }

    fn rewrite_script(&mut self, _alloc: Global, script: Script) -> Result<Script, PassError> {
        if self.is_refused() {
            return Err(PassError::OutOfMemory);
        }
        Ok(script)
    }

    ghost reset_keeps = { λ p q h. Prim.search rules };

    ghost lawful = { λ p. leaves_lawful };
}
