//! The pass.
ghost use Rattle.std.specs.Prelude.{◌≡◌, false, codes};
ghost use Rattle.swc_ast.specs.declared.names.Mark.{Mark};
ghost use Rattle.swc_ast.specs.Marks.{mark_number};
ghost use Rattle.swc_utils.specs.Globals.{unresolved};
ghost use Rattle.swc_branch.specs.Removed.{remove_spec, remove_lawful};

use crate::rules::BranchRules;
use std::alloc::Global;
use swc_ast::{Mark, Module, PassError, Script, SyntaxContext};
use swc_pass::{CompilerPass, Pass, Repeated};
use swc_utils::ExprCtx;
use tree_walk::{walk_module, walk_script};

/// A pass that removes dead branches, in one walk, children first: conditions and loops of known truth, `switch` on a known
/// value, statements that do nothing, statements behind one that ends its list, and expressions without effects whose values
/// are not used.
#[derive(Drop)]
pub struct Remover {
    unresolved_mark: Mark,
    changed: bool,
}

/// Returns the pass for modules whose unresolved names have the mark.
pub fn dead_branch_remover(unresolved_mark: Mark) -> Remover
    ensures settings { ⟦<Remover as Pass>⟧.settings result ≡ unresolved_mark }
    ensures changed { ⟦<Remover as Repeated>⟧.is_changed result ≡ false }
{
    Remover {
        unresolved_mark,
        changed: false,
    }
}

impl Remover {
    /// Returns the rules of a run.
    pub fn rules(&self, alloc: Global) -> BranchRules
        ensures { unresolved result.ctx ≡ mark_number (⟦<Remover as Pass>⟧.settings self.now) }
    {
        BranchRules {
            alloc,
            ctx: ExprCtx {
                unresolved_ctxt: SyntaxContext::empty().apply_mark(self.unresolved_mark),
                is_unresolved_ref_safe: false,
            },
        }
    }
}

impl Repeated for Remover {
    ghost is_changed = { λ p. p.changed };

    ghost resets_to = { λ p q. q.unresolved_mark ≡ p.unresolved_mark };

    fn changed(&self) -> bool {
        self.changed
    }

    fn reset(&mut self) {
        self.changed = false;
    }
}

impl CompilerPass for Remover {
    ghost its_name = { codes "branch" };

    /// `branch`
    fn name(&self) -> &'static str {
        "branch"
    }
}

impl Pass for Remover {
    ghost Settings = { Mark };

    ghost settings = { λ p. p.unresolved_mark };

    ghost spec = { remove_spec };

    fn mark(&self) -> Option<Mark> {
        Some(self.unresolved_mark)
    }

    fn lowers(&self) -> bool {
        true
    }

    #[tactic(auto, using(crate::proofs::RemoveLaw::removed_module, crate::proofs::RemoveLaw::tells))]
    fn rewrite(&mut self, alloc: Global, mut module: Module) -> Result<Module, PassError> {
        self.changed = false;
        self.changed = walk_module(&self.rules(alloc), &mut module)?;
        Ok(module)
    }

    #[tactic(auto, using(crate::proofs::RemoveLaw::removed_script, crate::proofs::RemoveLaw::tells))]
    fn rewrite_script(&mut self, alloc: Global, mut script: Script) -> Result<Script, PassError> {
        self.changed = false;
        self.changed = walk_script(&self.rules(alloc), &mut script)?;
        Ok(script)
    }

    ghost reset_keeps = { λ p q h. h };

    ghost lawful = { λ p. remove_lawful p.unresolved_mark };
}
