//! The pass.
ghost use Rattle.std.specs.Prelude.{◌≡◌, false, codes, IfOk};
ghost use Rattle.swc_ast.specs.Marks.{mark_number};
ghost use Rattle.swc_ast.specs.Tree.{Tree};
ghost use Rattle.swc_utils.specs.Globals.{unresolved};
ghost use Rattle.dce_uses.specs.Tables.{Tells};
ghost use Rattle.dce_code.specs.Knowledge.{shaker};
ghost use Rattle.swc_dce.specs.Configured as configured;
ghost use Rattle.swc_dce.specs.Shaken.{MadeFor, Told, shake_spec, shake_lawful};

use crate::config::Config;
use crate::rules::ShakeRules;
use dce_code::Known;
use dce_uses::{Retained, Uses};
use std::alloc::{AllocError, Global};
use swc_ast::{Mark, Module, PassError, Script, SyntaxContext};
use swc_pass::{CompilerPass, Pass, Repeated};
use swc_utils::ExprCtx;
use tree_walk::{walk_module, walk_script};

/// A pass that removes declarations of names that nothing uses, and assignments to names that nothing reads, in one walk.
#[derive(Drop)]
pub struct TreeShaker {
    pub(crate) config: Config,
    unresolved_mark: Mark,
    changed: bool,
}

/// Returns the pass for modules whose unresolved names have the mark.
pub fn dce(config: Config, unresolved_mark: Mark) -> TreeShaker
    ensures settings { ⟦<TreeShaker as Pass>⟧.settings result ≡ configured.told unresolved_mark config }
    ensures changed { ⟦<TreeShaker as Repeated>⟧.is_changed result ≡ false }
{
    TreeShaker {
        config,
        unresolved_mark,
        changed: false,
    }
}

impl TreeShaker {
    /// Which names are the host's.
    pub(crate) fn ctx(&self) -> ExprCtx
        ensures { unresolved result ≡ mark_number self.now.unresolved_mark }
    {
        ExprCtx {
            unresolved_ctxt: SyntaxContext::empty().apply_mark(self.unresolved_mark),
            is_unresolved_ref_safe: false,
        }
    }

    /// Returns the rules of a run over a module or a script that uses its names so. Fails where memory is refused.
    pub fn rules<'a>(&'a self, alloc: Global, uses: &'a Uses) -> Result<ShakeRules<'a>, AllocError>
        ensures made { IfOk result (λ r. (t : Tree) → Tells uses.now t → MadeFor (⟦<TreeShaker as Pass>⟧.settings self.now) (shaker r.known) t) }
        ensures uses { IfOk result (λ r. r.known.uses.now ≡ uses.now) }
    {
        let known = Known {
            uses,
            retained: Retained::of(alloc, &self.config.top_retain)?,
            ctx: self.ctx(),
            top_level: self.config.top_level,
            drops_imports: !self.config.preserve_imports_with_side_effects,
        };
        Ok(ShakeRules { alloc, known })
    }
}

impl Repeated for TreeShaker {
    ghost is_changed = { λ p. p.changed };

    ghost resets_to = { λ p q. (q.unresolved_mark ≡ p.unresolved_mark) × (q.config ≡ p.config) };

    fn changed(&self) -> bool {
        self.changed
    }

    fn reset(&mut self) {
        self.changed = false;
    }
}

impl CompilerPass for TreeShaker {
    ghost its_name = { codes "tree-shaker" };

    /// `tree-shaker`
    fn name(&self) -> &'static str {
        "tree-shaker"
    }
}

impl Pass for TreeShaker {
    ghost Settings = { Told };

    ghost settings = { λ p. configured.told p.unresolved_mark p.config };

    ghost spec = { shake_spec };

    fn mark(&self) -> Option<Mark> {
        Some(self.unresolved_mark)
    }

    fn lowers(&self) -> bool {
        true
    }

    #[tactic(auto, using(crate::proofs::Made::shaken_module, crate::proofs::ShakeLaw::tells))]
    fn rewrite(&mut self, alloc: Global, mut module: Module) -> Result<Module, PassError> {
        self.changed = false;
        let uses = Uses::of_module(alloc, &module)?;
        let changed = walk_module(&self.rules(alloc, &uses)?, &mut module)?;
        self.changed = changed;
        Ok(module)
    }

    #[tactic(auto, using(crate::proofs::Made::shaken_script, crate::proofs::ShakeLaw::tells))]
    fn rewrite_script(&mut self, alloc: Global, mut script: Script) -> Result<Script, PassError> {
        self.changed = false;
        let uses = Uses::of_script(alloc, &script)?;
        let changed = walk_script(&self.rules(alloc, &uses)?, &mut script)?;
        self.changed = changed;
        Ok(script)
    }

    ghost reset_keeps = { λ p q h i. configured.told (h.0 i) (h.1 i) };

    ghost lawful = { λ p. shake_lawful (configured.told p.unresolved_mark p.config) };
}
