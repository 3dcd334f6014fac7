//! What the simplifier may be told.
ghost use Rattle.std.specs.Prelude.{◌≡◌, ◌-◌, ◌^◌, true, [], None};

use std::alloc::Global;

/// Options of the simplifier: those of its passes, and the greatest number of rounds.
#[derive(Debug, Drop)]
pub struct Config {
    /// Options of the tree shaker.
    pub dce: swc_dce::Config,
    /// Options of the pass that inlines names. They are kept, and nothing reads them: the simplifier doesn't run that pass.
    pub inlining: swc_inlining::Config,
    /// Options of the expression simplifier.
    pub expr: swc_expr::Config,
    /// The greatest number of rounds. With 0 the input is returned.
    pub max_rounds: usize,
}

impl Config {
    /// Returns the default options: those of the passes, and `usize::MAX` rounds at most.
    pub fn new(alloc: Global) -> Config
        ensures module_mark { result.dce.module_mark ≡ None }
        ensures top_level { result.dce.top_level ≡ true }
        ensures top_retain { result.dce.top_retain.items ≡ [] }
        ensures imports { result.dce.preserve_imports_with_side_effects ≡ true }
        ensures max_rounds { result.max_rounds ≡ 2 ^ 64 - 1 }
    {
        Config {
            dce: swc_dce::Config::new(alloc),
            inlining: swc_inlining::Config {},
            expr: swc_expr::Config {},
            max_rounds: usize::MAX,
        }
    }
}
