//! What each rewrite of a node of an expression owes: it means the same, is lighter, and keeps what is static.
#![tactic(auto)]

ghost use Rattle.expr_proofs.specs.Laws.{RedexesHaveSteps, StepsAreExact, StepsAreRoomy, StepsFit, StepsOwe, StepsPassItems};

/// The laws of the rewrites, which its contract states.
pub fn laws()
    ensures exact { StepsAreExact }
    ensures owes { StepsOwe }
    ensures fits { StepsFit }
    ensures no_item { StepsPassItems }
    ensures roomy { StepsAreRoomy }
    ensures redexes { RedexesHaveSteps }
{}
