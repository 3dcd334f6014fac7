//! The pass.
ghost use Rattle.std.specs.Prelude.{◌≡◌, false, codes};
ghost use Rattle.swc_ast.specs.declared.names.Mark.{Mark};
ghost use Rattle.swc_ast.specs.Marks.{mark_number};
ghost use Rattle.swc_utils.specs.Globals.{unresolved};
ghost use Rattle.swc_expr.specs.Simplified.{simplify_spec, simplify_lawful};

use crate::rules::ExprRules;
use std::alloc::Global;
use swc_ast::{Mark, Module, PassError, Script, SyntaxContext};
use swc_pass::{CompilerPass, Pass, Repeated};
use swc_utils::ExprCtx;
use tree_walk::{walk_module, walk_script};

/// Options of the expression simplifier: there are none.
#[derive(Clone, Copy, Debug, Default, PartialEq, Eq, Hash)]
pub struct Config {}

/// A pass that simplifies expressions, in one walk, children first: operators on known operands, conditions of known
/// truth, sequences, spreads and members of literals, and defaults that are undefined anyway.
#[derive(Drop)]
pub struct SimplifyExpr {
    unresolved_mark: Mark,
    config: Config,
    changed: bool,
}

/// Returns the pass for modules whose unresolved names have the mark.
pub fn expr_simplifier(unresolved_mark: Mark, config: Config) -> SimplifyExpr
    ensures settings { ⟦<SimplifyExpr as Pass>⟧.settings result ≡ unresolved_mark }
    ensures changed { ⟦<SimplifyExpr as Repeated>⟧.is_changed result ≡ false }
{
    SimplifyExpr {
        unresolved_mark,
        config,
        changed: false,
    }
}

impl SimplifyExpr {
    /// Returns the rules of a run.
    pub fn rules(&self, alloc: Global) -> ExprRules
        ensures { unresolved result.ctx ≡ mark_number (⟦<SimplifyExpr as Pass>⟧.settings self.now) }
    {
        ExprRules {
            alloc,
            ctx: ExprCtx {
                unresolved_ctxt: SyntaxContext::empty().apply_mark(self.unresolved_mark),
                is_unresolved_ref_safe: false,
            },
        }
    }
}

impl Repeated for SimplifyExpr {
    ghost is_changed = { λ p. p.changed };

    ghost resets_to = { λ p q. q.unresolved_mark ≡ p.unresolved_mark };

    fn changed(&self) -> bool {
        self.changed
    }

    fn reset(&mut self) {
        self.changed = false;
    }
}

impl CompilerPass for SimplifyExpr {
    ghost its_name = { codes "simplify-expr" };

    /// `simplify-expr`
    fn name(&self) -> &'static str {
        "simplify-expr"
    }
}

impl Pass for SimplifyExpr {
    ghost Settings = { Mark };

    ghost settings = { λ p. p.unresolved_mark };

    ghost spec = { simplify_spec };

    fn mark(&self) -> Option<Mark> {
        Some(self.unresolved_mark)
    }

    fn lowers(&self) -> bool {
        true
    }

    #[tactic(auto, using(crate::proofs::SimplifyLaw::simplified, crate::proofs::SimplifyLaw::tells))]
    fn rewrite(&mut self, alloc: Global, mut module: Module) -> Result<Module, PassError> {
        self.changed = false;
        self.changed = walk_module(&self.rules(alloc), &mut module)?;
        Ok(module)
    }

    #[tactic(auto, using(crate::proofs::SimplifyLaw::simplified, crate::proofs::SimplifyLaw::tells))]
    fn rewrite_script(&mut self, alloc: Global, mut script: Script) -> Result<Script, PassError> {
        self.changed = false;
        self.changed = walk_script(&self.rules(alloc), &mut script)?;
        Ok(script)
    }

    ghost reset_keeps = { λ p q h. h };

    ghost lawful = { λ p. simplify_lawful p.unresolved_mark };
}
