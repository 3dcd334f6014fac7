//! Rounds of the tree shaker that are done at once.
ghost use Rattle.std.specs.Prelude.{◌≡◌, true, IfOk, IfErr};
ghost use Rattle.swc_ast.specs.Modules.{module_tree};
ghost use Rattle.swc_ast.specs.declared.errors.PassError.TheVariants.{OutOfMemory};
ghost use Rattle.swc_dce.specs.Peeling.{PeeledBy};

use crate::shaker::TreeShaker;
use dce_items::{rounds_inside, rounds_of};
use dce_peel::what_stays;
use std::alloc::Global;
use std::mem;
use swc_ast::{Module, PassError};
use swc_pass::Pass;

/// A module after some rounds.
#[derive(Drop)]
pub struct Peeled {
    pub module: Module,
    pub rounds: usize,
}

impl TreeShaker {
    /// Runs rounds in which nothing but functions and variables of one list goes, all at once: as many as are known to be such,
    /// `most` at most. The list is the module's own, or that of the body of a wrapper. It refuses where memory runs out.
    #[tactic(auto, using(crate::proofs::Rounds::no_rounds, crate::proofs::Rounds::some_rounds))]
    pub fn peel(&self, alloc: Global, mut module: Module, most: usize) -> Result<Peeled, PassError>
        ensures peeled { IfOk result (λ r. PeeledBy (⟦<TreeShaker as Pass>⟧.settings self.now) most (module_tree «module») r.rounds (module_tree r.module)) }
        ensures memory { IfErr result (λ e. e ≡ OutOfMemory) }
    {
        if !self.config.top_level {
            return Ok(Peeled { module, rounds: 0 });
        }
        let found = rounds_of(alloc, &module, &self.config.top_retain, &self.ctx(), most)?;
        if found.rounds == 0 {
            return self.peel_inside(alloc, module, most);
        }
        let items = mem::replace(&mut module.body, Vec::new(alloc));
        module.body = what_stays(alloc, items, &found.layers, found.rounds)?;
        Ok(Peeled {
            module,
            rounds: found.rounds,
        })
    }

    /// The same in the body of a wrapper.
    fn peel_inside(
        &self,
        alloc: Global,
        mut module: Module,
        most: usize,
    ) -> Result<Peeled, PassError>
        requires { self.now.config.top_level ≡ true }
        ensures peeled { IfOk result (λ r. PeeledBy (⟦<TreeShaker as Pass>⟧.settings self.now) most (module_tree «module») r.rounds (module_tree r.module)) }
        ensures memory { IfErr result (λ e. e ≡ OutOfMemory) }
    {
        let found = rounds_inside(alloc, &module, &self.config.top_retain, &self.ctx(), most)?;
        let Some(found) = found else {
            return Ok(Peeled { module, rounds: 0 });
        };
        if !found.leave_item(alloc, &mut module.body[found.at])? {
            return Ok(Peeled { module, rounds: 0 });
        }
        let rounds = found.rounds;
        Ok(Peeled { module, rounds })
    }
}
