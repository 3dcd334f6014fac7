//! Rounds of the simplifier in which nothing but functions and variables of one list goes, a module's own or that of a wrapper in
//! it: the expression simplifier and the remover of dead branches rest in them, so each is a round of the tree shaker alone.
#![tactic(auto)]

ghost use Rattle.round_proofs.specs.Rested.{LayersAreRounds, LayersLeaveRest};

/// The laws of these rounds, which its contract states.
pub fn laws()
    ensures rounds { LayersAreRounds }
    ensures rest { LayersLeaveRest }
{}
