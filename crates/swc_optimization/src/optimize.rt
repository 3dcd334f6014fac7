//! The simplifier behind the pass that inlines names, in rounds.
ghost use Rattle.std.specs.Prelude.{◌≡◌, false};
ghost use Rattle.swc_dce.specs.Configured.{told};

use crate::config::Config;
use crate::passes::{Optimizer, Simplifier};
use swc_ast::Mark;
use swc_inlining::{Inlining, inlining};
use swc_pass::{Chain, Pass, Repeat, Repeated};

/// Returns the optimizer for modules whose unresolved names have the mark. The greatest number of rounds is that of its own rounds,
/// and that of the simplifier's rounds in each of these.
pub fn optimizer(unresolved_mark: Mark, config: Config) -> Optimizer
    ensures settings { ⟦<Repeat<Chain<Inlining, Simplifier>> as Pass>⟧.settings result ≡ ((tt, (told unresolved_mark config.dce, config.max_rounds)), config.max_rounds) }
    ensures changed { ⟦<Repeat<Chain<Inlining, Simplifier>> as Repeated>⟧.is_changed result ≡ false }
    ensures reached { ⟦<Repeat<Chain<Inlining, Simplifier>> as Repeated>⟧.is_reached result ≡ false }
    ensures rounds { ⟦<Repeat<Chain<Inlining, Simplifier>> as Repeated>⟧.rounds_run result ≡ 0 }
{
    let most = config.max_rounds;
    let row = Chain::new(
        inlining(swc_inlining::Config {}),
        Simplifier::new(unresolved_mark, config),
    );
    Repeat::new(row, most)
}
