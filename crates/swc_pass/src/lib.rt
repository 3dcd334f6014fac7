//! Passes over modules and scripts: what each promises, and passes made of passes.
#![tactic(auto)]

ghost use Rattle.swc_pass.specs.InFront.{InFront};
ghost use Rattle.swc_pass.specs.Laws.{RowIsLawful, RoundsAreLawful, RoundsComeToEnd, RoundsAreFew};
ghost use Rattle.swc_pass.specs.Pass.{IsLawful};

mod chain;
mod pass;
mod repeat;
mod whole;

pub use chain::Chain;
pub use pass::{CompilerPass, Pass, Repeated};
pub use repeat::Repeat;
pub use whole::{Made, Whole, settle};

/// The laws of a pass, which its contract states: an answer does the same, stays resolved, valid and core, and is lighter
/// where the pass says so.
pub fn laws<P: Pass>(_pass: &P)
    ensures { IsLawful (P.spec (P.settings _pass.now)) }
{}

/// The law of passes in a row, which its contract states: two with the laws and no different marks have the laws.
pub fn chain_laws<A: Pass, B: Pass>()
    ensures { (s : A.Settings) (t : B.Settings) → RowIsLawful (A.spec s) (B.spec t) }
{}

/// The laws of rounds, which its contract states: those of a pass with the laws have the laws, and they come to an end
/// where each change makes a module lighter.
pub fn repeat_laws<P: Pass>()
    ensures lawful { (s : P.Settings) → RoundsAreLawful (P.spec s) }
    ensures comes_to_end { (s : P.Settings) → RoundsComeToEnd (P.spec s) }
    ensures few_rounds { (s : P.Settings) → RoundsAreFew (P.spec s) }
{}

/// The law of the world with answers, which its contract states: a pass behind what was put keeps what a module does there.
pub fn given_laws()
    ensures in_front { InFront }
{}
